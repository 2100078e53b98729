//! Two runs of one text, over the store of copies and over the cells: each form keeps what relates
//! them, where the text keeps to what it may do. It has lemmas alone, in `proofs/`.
#![tactic(auto)]
