// What remove_if_folded leaves, in words, and that it keeps a sound net sound. There is no code here.
#![tactic(auto)]
