//! The limits of a source and of the numbers in it, and the layout and the limits of the machine.

/// The most bytes of a source.
pub const MOST_SOURCE_BYTES: u32 = 1_048_576;

/// The most tokens of a source.
pub const MOST_TOKENS: u32 = 65_536;

/// The most brackets and constructs that are open at one place of a source.
pub const MOST_OPEN: u32 = 32;

/// The most bytes of a name.
pub const MOST_NAME_BYTES: u32 = 50;

/// The most bytes that a text stands for.
pub const MOST_TEXT_BYTES: u32 = 255;

/// The largest width with which a part is put.
pub const MOST_WIDTH: u32 = 255;

/// The largest int. The least is its negation.
pub const MOST_INT: u32 = 2_147_483_647;

/// The address of the first byte of memory, where the text of an image lies.
pub const TEXT_AT: u32 = 65_536;

/// The most words of the text of an image.
pub const MOST_TEXT_WORDS: u32 = 16_777_216;

/// The most words of globals, of which the last 65,536 are the run time's own.
pub const MOST_GLOBAL_WORDS: u32 = 4_259_840;

/// The words of the heap, which lies behind the globals.
pub const HEAP_WORDS: u32 = 4_194_304;

/// The words of the stack, which lies behind the heap.
pub const STACK_WORDS: u32 = 8_392_704;

/// The most bytes of the literals of a program.
pub const MOST_LITERAL_BYTES: u32 = 1_048_576;

/// The most bytes that one service reads.
pub const MOST_LENT_BYTES: u32 = 1_048_576;

/// The most bytes of a file that a program reads or writes.
pub const MOST_FILE_BYTES: u32 = 16_777_216;
