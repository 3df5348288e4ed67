// The cases that document 01 marks with *, as one table under one statement: proofs/Table.antt. There is no code here.
#![tactic(auto)]
