// Laws of truth values, signed numbers and lists that the crates above cite. There is no code here.
#![tactic(auto)]
