// Document 01's starred examples: a table of them (specs/Table.antt) under one theorem (proofs/Theorem.antt).

#![tactic(auto)]
