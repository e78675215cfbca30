// Laws of a batch: of the loop over its documents, of lists that are fit or not, and that the rules have one
// answer to it. No code.
#![tactic(auto)]
