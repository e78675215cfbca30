// Laws of settling: how a reader proceeds from piece to piece, and that a run of data is settled as a whole.
// No code.
#![tactic(auto)]
