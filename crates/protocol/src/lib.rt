// Layer reply.
// No code: statements about one line, from its characters to its reply, for the plain supply.
#![tactic(auto)]
