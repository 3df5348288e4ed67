// cleanup_topology in words, of its entry: when it says 1 to 3, that it never says 7, and what it leaves on 0 and 6. There is no code
// here.
#![tactic(auto)]
