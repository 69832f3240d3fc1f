//! Lemmas on where a text goes wrong: byte by byte (`proofs/Places`), and the furthest place of several
//! alternatives (`proofs/Furthest`). The readers of symbols and requests are proved by them.
#![tactic(auto)]
