// Guards: laws and cases that a wrong reading of document 01 would break, were it made the same way in the definitions and in the code.
// There is no code here.
#![tactic(auto)]
