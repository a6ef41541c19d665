#![tactic(auto)]

// Laws of lists, for the proofs of the crates above. There is no code here.
