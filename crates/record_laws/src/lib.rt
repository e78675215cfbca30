// Laws only: that reading by a line of two positions decides the three cases of record ends. This crate has no code.
#![tactic(auto)]
