// Layer rack.
// Demand 3 for any plain supply and any grammar of the line: definitions, statement and proof. There is no code.
#![tactic(auto)]

// What a rack consists of for its whole life: for each address a model number, or 255 if the slot is empty. It is laid
// out for C, so a model stays a number.
#[repr(C)]
#[derive(Clone, Copy)]
pub struct Setup {
    pub models: [u8; 31],
}
