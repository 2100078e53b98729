// How much a unit may weigh.

/// How many words of text there are at most for each unit of weight.
pub const WORDS: u64 = 14;

/// How much a unit weighs at most.
pub const WEIGHT: u64 = 1_179_648;

// A text has at most 16,777,216 words, of which 262,144 are left for the bytes of the literals.
const _: () = prove!(WORDS * WEIGHT <= 16_515_072);
