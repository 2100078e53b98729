ghost use Rattle.std.specs.Prelude.{◌≡◌, ◌+◌, ◌*◌, ◌≤◌, Ok, IfOk, length, drop};
ghost use Rattle.rv_image.specs.Picture.{Picture, InRange, IsImage, number, spelling};
ghost use Rattle.rv_image.specs.Reading.{number_at, words_of, reading, Gives};

use rv_isa::Text;
use std::alloc::Global;
use std::marker::Model;
use thiserror::Error;
use tu_base::{Bytes, MOST_GLOBAL_WORDS, MOST_TEXT_WORDS, Memory};

/// Why bytes are no image: the first of these conditions that fails, in this order.
#[derive(Clone, Copy, PartialEq, Eq, Debug, Error)]
pub enum ImageError {
    /// There are more than 67,108,884 bytes.
    #[error("the image has more than 67108884 bytes")]
    Size,
    /// There are fewer than the 20 bytes of a header.
    #[error("the image has fewer than 20 bytes")]
    Short,
    /// The first four bytes are not `TURI`.
    #[error("the image does not begin with TURI")]
    Magic,
    /// The version is not 1.
    #[error("the version of the image is not 1")]
    Version,
    /// There are not exactly as many bytes as the header and its number of text words need.
    #[error("the image does not have the length that its header says")]
    Length,
    /// The entry is no multiple of 4 or lies outside the text.
    #[error("the entry of the image is no place in its text")]
    Entry,
    /// There are more than 4,259,840 words of globals.
    #[error("the image has more than 4259840 words of globals")]
    Globals,
    /// Want of memory.
    #[error("out of memory")]
    Memory,
}

impl From<Memory> for ImageError {
    ghost use Rattle.rv_image.specs.declared.image.ImageError.TheVariants.{Memory as error_memory};

    ghost from_gives = { λ _ e. e ≡ error_memory };

    fn from(_: Memory) -> Self {
        ImageError::Memory
    }
}

/// A program for the machine: at most 16,777,216 words of text, at most 4,259,840 words of globals,
/// and an entry in the text, in bytes.
#[derive(Debug, Drop)]
pub struct Image {
    words: Text,
    global_words: u32,
    entry_offset: u32,
}

impl Model for Image {
    ghost Value = { Picture };

    ghost view = { λ i. record { text = i.words; globals = i.global_words; entry = i.entry_offset } };

    ghost invariant = { λ i. InRange (record { text = i.words; globals = i.global_words; entry = i.entry_offset }) };
}

impl Image {
    /// The image of these parts: the text, the number of words of globals, and the entry in bytes
    /// from the text's start.
    pub fn make(text: Text, globals: u32, entry: u32) -> Image
        requires { InRange (record { text = text; globals = globals; entry = entry }) }
        ensures { result ≡ record { text = text; globals = globals; entry = entry } }
    {
        Image {
            words: text,
            global_words: globals,
            entry_offset: entry,
        }
    }

    /// The image that the bytes spell, or the first condition that fails, in the order of
    /// `ImageError`. It answers `Memory` only where memory ran out.
    pub fn read(alloc: Global, bytes: &Bytes) -> Result<Image, ImageError>
        ensures exact { Gives result (reading bytes.now) }
        ensures found { IfOk result (λ i. IsImage bytes.now i) }
        ensures only { (p : Picture) → IsImage bytes.now p → Gives result (Ok p) }
    {
        image_of(alloc, bytes.as_slice())
    }

    /// The bytes that spell the image: 20 for the header and 4 for each word of text.
    pub fn bytes(&self, alloc: Global) -> Result<Bytes, Memory>
        ensures { IfOk result (λ bytes. bytes ≡ spelling self.now) }
    {
        let text = self.words.as_slice();
        let mut bytes = Bytes::make(alloc);
        bytes.extend(b"TURI")?;
        bytes.extend(&number_bytes(VERSION))?;
        bytes.extend(&number_bytes(text.len() as u32))?;
        bytes.extend(&number_bytes(self.global_words))?;
        bytes.extend(&number_bytes(self.entry_offset))?;
        for &word in text {
            bytes.extend(&number_bytes(word))?;
        }
        Ok(bytes)
    }

    /// The words of the text.
    pub fn text(&self) -> &Text
        ensures is { result.now ≡ self.now.text }
        ensures ranges { InRange self.now }
    {
        &self.words
    }

    /// How many words of globals there are.
    pub fn globals(&self) -> u32
        ensures { result ≡ self.now.globals }
    {
        self.global_words
    }

    /// Where the first instruction lies, in bytes from the text's start.
    pub fn entry(&self) -> u32
        ensures { result ≡ self.now.entry }
    {
        self.entry_offset
    }
}

// In bytes, as the header's size.
const LARGEST_SIZE: usize = HEADER_SIZE + 4 * MOST_TEXT_WORDS as usize;

const HEADER_SIZE: usize = 20;

// The bytes `TURI` as a number.
const MAGIC: u32 = 0x4952_5554;

const VERSION: u32 = 1;

// A number in four bytes, the lowest first.
fn number_bytes(value: u32) -> [u8; 4]
    ensures { result ≡ number value }
{
    value.to_le_bytes()
}

// The number of four bytes, the lowest first.
fn read_number(bytes: &[u8], at: usize) -> u32
    requires { at + 4 ≤ length bytes.now }
    ensures { result ≡ number_at bytes.now at }
{
    bytes[at] as u32
        + 256 * (bytes[at + 1] as u32)
        + 65536 * (bytes[at + 2] as u32)
        + 16777216 * (bytes[at + 3] as u32)
}

// The words behind the header. Their memory is reserved once, since their number is known.
fn read_text(alloc: Global, bytes: &[u8], words: usize) -> Result<Text, Memory>
    requires { length bytes.now ≡ 20 + 4 * words }
    ensures words { IfOk result (λ text. text ≡ words_of (drop 20 bytes.now)) }
    ensures count { IfOk result (λ text. length text ≡ words) }
{
    let mut text = Vec::with_capacity(alloc, words)?;
    for k in 0..words {
        text.push(read_number(bytes, HEADER_SIZE + 4 * k))?;
    }
    Text::from_slice(alloc, text.as_slice())
}

// The conditions stand in the order of `ImageError`.
fn image_of(alloc: Global, bytes: &[u8]) -> Result<Image, ImageError>
    ensures exact { Gives result (reading bytes.now) }
    ensures found { IfOk result (λ i. IsImage bytes.now i) }
{
    if bytes.len() > LARGEST_SIZE {
        return Err(ImageError::Size);
    }
    if bytes.len() < HEADER_SIZE {
        return Err(ImageError::Short);
    }
    if read_number(bytes, 0) != MAGIC {
        return Err(ImageError::Magic);
    }
    if read_number(bytes, 4) != VERSION {
        return Err(ImageError::Version);
    }
    let text_words = read_number(bytes, 8) as usize;
    if bytes.len() != HEADER_SIZE + 4 * text_words {
        return Err(ImageError::Length);
    }
    let entry_offset = read_number(bytes, 16);
    if entry_offset % 4 != 0 || entry_offset as usize >= 4 * text_words {
        return Err(ImageError::Entry);
    }
    let global_words = read_number(bytes, 12);
    if global_words > MOST_GLOBAL_WORDS {
        return Err(ImageError::Globals);
    }
    let words = read_text(alloc, bytes, text_words)?;
    Ok(Image {
        words,
        global_words,
        entry_offset,
    })
}
