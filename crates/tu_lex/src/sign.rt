// Signs.
ghost use Rattle.std.specs.Prelude.{◌≡◌};
ghost use Rattle.tu_token.specs.Words.{single, double};

use tu_token::Class;

/// The sign that is this byte.
pub fn single(byte: u8) -> Option<Class>
    ensures { result ≡ single byte }
{
    match byte {
        b'+' => Some(Class::SignPlus),
        b'-' => Some(Class::SignMinus),
        b'*' => Some(Class::SignStar),
        b'<' => Some(Class::SignLess),
        b'>' => Some(Class::SignGreater),
        b'=' => Some(Class::SignEqual),
        b'(' => Some(Class::SignLeftBracket),
        b')' => Some(Class::SignRightBracket),
        b',' => Some(Class::SignComma),
        b':' => Some(Class::SignColon),
        b';' => Some(Class::SignSemicolon),
        b'.' => Some(Class::SignDot),
        _ => None,
    }
}

/// The sign that is these two bytes.
pub fn double(first: u8, second: u8) -> Option<Class>
    ensures { result ≡ double first second }
{
    match (first, second) {
        (b':', b'=') => Some(Class::SignAssign),
        (b'=', b'>') => Some(Class::SignImplies),
        (b'<', b'=') => Some(Class::SignLessOrEqual),
        (b'>', b'=') => Some(Class::SignGreaterOrEqual),
        (b'.', b'.') => Some(Class::SignRange),
        (b'*', b'*') => Some(Class::SignPower),
        _ => None,
    }
}
