// Document 01's cases that are marked P ("On both sides of each line"), as one table, `specs/Table.antt`, over the
// definitions that the public calls promise, and one proved statement, `proofs/Hold.antt`. It has no code of its own.

#![tactic(auto)]
