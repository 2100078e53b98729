//! The rules of types, over names and operands: constants, types by their numbers, what operators,
//! functions and calls ask of their parts, and what a path stands for. They are definitions, in
//! `specs/`.
#![tactic(auto)]
