//! Lemmas on lists and their elements (`proofs/Lists`), on facts of each element (`proofs/Members`), on rising
//! lists and listings of sets (`proofs/Rising`), on booleans and small numbers (`proofs/Tests`), on each
//! number below a bound (`proofs/Below`), and on binary digits (`proofs/Digits`). The proofs of the crates above import theirs from here. What the library
//! `std` has isn't said again: the head of each file names its lemmas.
#![tactic(auto)]
