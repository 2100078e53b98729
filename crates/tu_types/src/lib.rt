//! The check of types: the least fault of a tree whose names are resolved, or its core. Here are
//! statements, subprograms, modules and programs; what stands below them is in tu_type_parts, and
//! the rules in tu_type_rules. They are definitions, in `specs/`.
#![tactic(auto)]
