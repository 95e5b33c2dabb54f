// Laws of tests that every crate cites: all of it stands in proofs/.
#![tactic(auto)]
