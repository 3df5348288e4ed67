// What a call says, by number: the definitions are in specs/, and every entry's contract cites them.
#![tactic(auto)]
