//! The limits of types.

/// The most words of a type, and of all globals.
pub const MOST_WORDS: u32 = 4_194_304;

/// The most index types in one list of an array, and the most labels of a union.
pub const MOST_PARTS: u32 = 32;
