// Document 01's example net, for cases worked out by hand and proved by computing. There is no code here.
#![tactic(auto)]
