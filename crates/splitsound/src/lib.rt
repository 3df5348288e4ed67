// Demand 3 in one place: what split_pinched_verts says and leaves on a sound net, as one statement over its result. There is no code here.
#![tactic(auto)]
