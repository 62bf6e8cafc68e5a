// Layer calls.
// What holds of the answers that `resistance` gives: they are worked out from the figures that the supply prints, each
// float is the nearest, and each answer follows from its own supply's share alone. There is no code.
#![tactic(auto)]
