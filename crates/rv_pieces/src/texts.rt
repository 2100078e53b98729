// Bytes behind the code.

ghost use Rattle.std.specs.Prelude.{◌≡◌, ◌+◌, ◌*◌, ◌++◌, OnOk};
ghost use Rattle.rv_text.specs.Text.{packed};

use crate::output::Output;
use tu_base::Memory;

// Four bytes, the lowest first.
fn word(a: u8, b: u8, c: u8, d: u8) -> u32
    ensures { result ≡ a + 256 * b + 65536 * c + 16777216 * d }
{
    u32::from_le_bytes([a, b, c, d])
}

impl Output {
    // Bytes as words, the lowest byte first, filled up with zeros.
    pub fn push_texts(&mut self, bytes: &[u8]) -> Result<(), Memory>
        ensures { OnOk result (self.new ≡ self.old ++ packed bytes.now) }
    {
        let mut left = bytes;
        'words: loop {
            match left {
                [] => return Ok(()),
                [a] => return self.push_word(u32::from(*a)),
                [a, b] => return self.push_word(word(*a, *b, 0, 0)),
                [a, b, c] => return self.push_word(word(*a, *b, *c, 0)),
                [a, b, c, d, rest @ ..] => {
                    self.push_word(word(*a, *b, *c, *d))?;
                    left = rest;
                }
            }
        }
    }
}
