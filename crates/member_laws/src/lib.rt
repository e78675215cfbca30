// What the table of the members of "&" groups means, and which of them have begun. No code.
#![tactic(auto)]
