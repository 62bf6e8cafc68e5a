// Layer rack.
// The plain supply on entries, the grammar of the line and the fields, and what demand 3 says about them. There is no
// code.
#![tactic(auto)]
