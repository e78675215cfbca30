// Laws of the rules: what holds for a reading, and one pass over the type file and over a document's pieces,
// for every other law to cite. No code.
#![tactic(auto)]
