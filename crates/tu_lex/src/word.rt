// Names, and the sign that begins as one.
ghost use Rattle.std.specs.Prelude.{◌≡◌, ◌≤◌, length};
ghost use Rattle.std.specs.List.{prefix_len};
ghost use Rattle.tu_token.specs.Lexemes.{is_name_byte};
ghost use Rattle.tu_lex.specs.Front.{begins_not_equal};

pub fn is_name_byte(byte: u8) -> bool
    ensures { result ≡ is_name_byte byte }
{
    byte.is_ascii_alphanumeric() || byte == b'_'
}

/// How many bytes in front are those of a name.
pub fn name_length(bytes: &[u8]) -> usize
    ensures number { result ≡ prefix_len is_name_byte bytes.now }
    ensures within { result ≤ length bytes.now }
{
    bytes.iter().take_while(|byte| is_name_byte(**byte)).count()
}

/// Whether the sign `not=` stands in front.
pub fn begins_not_equal(bytes: &[u8]) -> bool
    ensures { result ≡ begins_not_equal bytes.now }
{
    match bytes {
        [a, b, c, d, ..] => *a == b'n' && *b == b'o' && *c == b't' && *d == b'=',
        _ => false,
    }
}
