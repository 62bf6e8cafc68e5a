// Layer supply.
// What holds of every act of a supply: what FEVE gains, which acts release a trip, that margins are kept and states stay
// coherent. There is no code.
#![tactic(auto)]
