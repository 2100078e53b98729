// Numbers.
ghost use Rattle.std.specs.Prelude.{◌≡◌, ◌≤◌, length, nat_lt};
ghost use Rattle.std.specs.List.{prefix_len};
ghost use Rattle.std.specs.Char.{is_ascii_digit};
ghost use Rattle.tu_token.specs.LexFaults.{value_after, goes_on, is_bad_number};

use crate::word::is_name_byte;
use tu_base::MOST_INT;

const LARGEST: u64 = MOST_INT as u64;

/// How many bytes in front are digits.
pub fn digits_length(bytes: &[u8]) -> usize
    ensures number { result ≡ prefix_len is_ascii_digit bytes.now }
    ensures within { result ≤ length bytes.now }
{
    bytes
        .iter()
        .take_while(|byte| byte.is_ascii_digit())
        .count()
}

fn is_too_large(digits: &[u8]) -> bool
    ensures { result ≡ nat_lt MOST_INT (value_after 0 digits.now) }
{
    let mut number = 0u64;
    for digit in digits {
        number = 10 * number + (*digit as u64).saturating_sub(48);
        if number > LARGEST {
            return true;
        }
    }
    false
}

// Whether a name or a fraction stands directly behind a number.
fn goes_on(rest: &[u8]) -> bool
    ensures { result ≡ goes_on rest.now }
{
    match rest {
        [] => false,
        [b'.', byte, ..] => byte.is_ascii_digit(),
        [byte, ..] => is_name_byte(*byte),
    }
}

/// Whether the number in front is too large or goes on as no number does.
pub fn is_bad_number(bytes: &[u8]) -> bool
    ensures { result ≡ is_bad_number bytes.now }
{
    let length = digits_length(bytes);
    goes_on(&bytes[length..]) || is_too_large(&bytes[..length])
}
