// Paper 01's worked content models, proved as one statement over a list of them. No code.
#![tactic(auto)]
