// Layer calls.
// The three functions that customers call, in one place: `fit` makes a rack from a fitting list, `call` takes one
// field, and `cell_at` tells the resistance of the cell at an address.
#![tactic(auto)]

pub use calls::{Called, call};
pub use field::Refusal;
pub use fitting::{Fitted, empty_rack, fit, fitted_numbers};
pub use resistance::{Cell, Metered, Resistance, cell_at};
