// Which events are due where the current element may end here (paper 02, request eight). No code.
#![tactic(auto)]
