// White space and comments.
ghost use Rattle.std.specs.Prelude.{◌≡◌, ◌≤◌, false, length, IfSome};
ghost use Rattle.std.specs.List.{prefix_len};
ghost use Rattle.tu_token.specs.Lexemes.{is_white, is_inside_line};
ghost use Rattle.tu_token.specs.Scans.{comment_scan, close_of};

pub fn is_white(byte: u8) -> bool
    ensures { result ≡ is_white byte }
{
    matches!(byte, b'\t' | b'\n' | b'\r' | b' ')
}

/// How many bytes in front are white space.
pub fn white_length(bytes: &[u8]) -> usize
    ensures { result ≡ prefix_len is_white bytes.now }
{
    bytes.iter().take_while(|byte| is_white(**byte)).count()
}

/// How many bytes stand before the line's end.
pub fn line_length(bytes: &[u8]) -> usize
    ensures { result ≡ prefix_len is_inside_line bytes.now }
{
    bytes.iter().take_while(|byte| **byte != b'\n').count()
}

/// How many bytes of a comment stand behind its `/*`, or None where it does not end.
pub fn comment_end(body: &[u8]) -> Option<usize>
    ensures place { result ≡ close_of comment_scan false body.now }
    ensures within { IfSome result (λ n. n ≤ length body.now) }
{
    let mut behind_star = false;
    for (place, byte) in body.iter().enumerate() {
        if behind_star && *byte == b'/' {
            return Some(place + 1);
        }
        behind_star = *byte == b'*';
    }
    None
}
