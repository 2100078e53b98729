//! The store of copies and the cells of locations, side by side: they are equal once all that is
//! open has been closed. It has lemmas alone, in `proofs/`.
#![tactic(auto)]
