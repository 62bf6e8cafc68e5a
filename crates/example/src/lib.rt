// Layer calls.
// A worked list of calls, with what each returns, the shares and the final states of supplies; and what demand 3 gives
// a customer. There is no code.
#![tactic(auto)]
