// How a start tag or a run of data is settled: the steps of inferring and placing, one after the other, have
// the effect that the rules give the token. No code: the loop of document_events performs the steps itself.
#![tactic(auto)]
