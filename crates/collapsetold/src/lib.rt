// What collapse_edge answers and leaves, in words, and cases of it. There is no code here.
#![tactic(auto)]
