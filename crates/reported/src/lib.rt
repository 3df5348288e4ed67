// The report on a well-formed file, in words: 3, 0 or 6, by the net that the file holds. There is no code here.
#![tactic(auto)]
