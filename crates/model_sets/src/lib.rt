// What can be computed from a content model, and that it describes the walks of the rules. No code.
#![tactic(auto)]
