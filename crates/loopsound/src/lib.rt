// form_loop in words: which answer it gives and what it leaves; whenever it is done a sound net stays sound. There is no code here.
#![tactic(auto)]
