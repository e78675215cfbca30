// At every moment of a reading: how the open elements of the program correspond to the state of the rules. No
// code.
#![tactic(auto)]
