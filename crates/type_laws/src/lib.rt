// Laws of a type file that was read, for the tables of the document reader. No code.
#![tactic(auto)]
