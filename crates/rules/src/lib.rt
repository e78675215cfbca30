// The rules of paper 01 as definitions. This crate has no code: what has to be believed is in specs/.
#![tactic(auto)]
