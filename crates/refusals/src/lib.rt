// The refusals 1 to 5 in words, both ways, of every entry that makes the checks: one law over the checks. There is no code here.
#![tactic(auto)]
