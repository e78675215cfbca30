// The rules determine exactly one answer of each call. No code.
#![tactic(auto)]
