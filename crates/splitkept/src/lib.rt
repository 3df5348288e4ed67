// What splitting pinched vertices leaves alone on a sound net: the free rows. There is no code here.
#![tactic(auto)]
