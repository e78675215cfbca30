// Every reading by the rules is a sequence of acts, one for each event. No code.
#![tactic(auto)]
