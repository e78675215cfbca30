// Laws of the document half of the rules: one pass over settling, and that the walks determine one reading of
// every document. No code.
#![tactic(auto)]
