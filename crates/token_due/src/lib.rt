// Which events are due after a token and after an end tag (paper 02, request eight). No code.
#![tactic(auto)]
