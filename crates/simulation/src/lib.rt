//! How a door simulates the machine: by a plan, a small record of functions and of facts about its table. From a plan follow the rules, right of way and going inside.
//! It is all in proofs/: no code runs here.
#![tactic(auto)]
