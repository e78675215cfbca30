// What holds of the walks of content models with "&" groups. No code.
#![tactic(auto)]
