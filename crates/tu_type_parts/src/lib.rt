//! The types of expressions, written types, starts and declarations, over the tree. They are
//! definitions, in `specs/`.
#![tactic(auto)]
