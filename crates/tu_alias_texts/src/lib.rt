//! What the texts of an accepted program may do: each keeps to what its effects and the binds
//! around it let it do. It has lemmas alone, in `proofs/`.
#![tactic(auto)]
