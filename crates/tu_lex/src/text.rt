// Texts, from the byte behind the opening quote on.
ghost use Rattle.std.specs.Prelude.{◌≡◌, ◌<◌, ◌≤◌, ◌==◌, ◌&&◌, not, false, length, is_some, IfSome};
ghost use Rattle.tu_token.specs.Scans.{text_scan, close_of, is_text_byte, is_escape, bad_place, contents};

// Whether a byte begins an escape, where it may be the escaped one of the byte before.
fn begins_escape(escaped: bool, byte: u8) -> bool
    ensures { result ≡ (not escaped && (byte == 92)) }
{
    !escaped && byte == b'\\'
}

/// How many bytes of a text stand behind its opening quote, or None where it does not end.
pub fn text_end(body: &[u8]) -> Option<usize>
    ensures place { result ≡ close_of text_scan false body.now }
    ensures within { IfSome result (λ n. (0 < n) × (n ≤ length body.now)) }
{
    let mut escaped = false;
    for (place, byte) in body.iter().enumerate() {
        if *byte == b'\n' {
            return None;
        }
        if !escaped && *byte == b'"' {
            return Some(place + 1);
        }
        escaped = begins_escape(escaped, *byte);
    }
    None
}

/// How many bytes a text stands for.
pub fn contents_length(body: &[u8]) -> usize
    ensures { result ≡ length (contents false body.now) }
{
    let mut count = 0;
    let mut escaped = false;
    for byte in body {
        escaped = begins_escape(escaped, *byte);
        if !escaped {
            count += 1;
        }
    }
    count
}

fn is_text_byte(byte: u8) -> bool
    ensures { result ≡ is_text_byte byte }
{
    matches!(byte, b'\t' | 32..=126 | 128..=255)
}

fn is_escape(byte: u8) -> bool
    ensures { result ≡ is_escape byte }
{
    matches!(byte, b'n' | b't' | b'"' | b'\\')
}

/// Whether a byte or an escape stands in a text that may not.
pub fn has_bad_byte(body: &[u8]) -> bool
    ensures { result ≡ is_some (bad_place false 1 body.now) }
{
    let mut escaped = false;
    for byte in body {
        let fits = if escaped {
            is_escape(*byte)
        } else {
            is_text_byte(*byte)
        };
        if !fits {
            return true;
        }
        escaped = begins_escape(escaped, *byte);
    }
    false
}
