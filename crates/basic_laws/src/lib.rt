// Laws only: what the crates need about booleans and numbers and the library does not provide.
#![tactic(auto)]
