// The order of the visits, kept in the work buffer: how the steps of splitting go by one walk of each fan and one pass over what it
// left, and the proof that they are the same steps. There is no code here.
#![tactic(auto)]
