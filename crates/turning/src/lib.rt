// Turning on a finite set, for any turn: what is reached, fans that close, counting. There is no code here.
#![tactic(auto)]
