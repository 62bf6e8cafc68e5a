// Layer calls.
// Demand 3 of the racks that `fit` and `call` return, and that there are such racks. There is no code.
#![tactic(auto)]
