// Layer calls.
// The program works its input as a whole, however it is split into reads; and fields worked after a run extend that
// run. There is no code.
#![tactic(auto)]
