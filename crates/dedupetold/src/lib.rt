// dedupe_edge and dedupe_edges in words, of their entries: when they say 1 to 5, that they never say 7, and what they leave on 0 and 6.
// There is no code here.
#![tactic(auto)]
