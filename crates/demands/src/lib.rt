// The demands of paper 01 as theorems about the calls, from their contracts in the source. No code.
#![tactic(auto)]
