// Each start took the one place that the walks allow for its name. No code.
#![tactic(auto)]
