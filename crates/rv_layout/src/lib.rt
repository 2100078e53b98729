//! The instructions of the machine for each instruction of linear code, and that they keep step with it
//! where they stand.
//!
//! | register | what it has |
//! |---|---|
//! | x1 | the lowest byte of the stack in use |
//! | x2 | the lowest byte of the frame of the running activation |
//! | x3 | the lowest byte that rooms may reach |
//! | x4 | the first byte of the heap |
//! | x5, x6 | values |
//! | x7 | an address |
//! | x8 | where the other side of a call or a return goes on |
//! | x9 | the other frame of a return |
//! | x10, x11, x12, x17 | what is asked of a service, and its reply |
#![tactic(auto)]

mod laws;

pub use laws::laid_code_keeps_step;
