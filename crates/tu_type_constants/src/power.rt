// Powers of ints.
ghost use Rattle.std.specs.Prelude.{◌≡◌, ◌^◌, pos, nat_le, Some, None, if◌then◌else◌};
ghost use Rattle.tu_base.specs.Scalars.{power};
ghost use Rattle.tu_base.specs.declared.limits.TheConstants.{MOST_INT};
ghost use Rattle.tu_type_constants.specs.Constants.{int_in};

use tu_base::MOST_INT;
use tu_type_base::Int;

/// The power of a base without its sign, or none where it passes `MOST_INT`. A base of 2 or more
/// takes at most 31 rounds.
fn magnitude(base: u32, exponent: u32) -> Option<i32>
    ensures { result ≡ (if nat_le (base ^ exponent) MOST_INT then Some (pos (base ^ exponent)) else None) }
{
    if exponent == 0 {
        return Some(1);
    }
    if base <= 1 {
        return Some(base as i32);
    }
    let mut product: u64 = 1;
    for _round in 0..exponent {
        product *= u64::from(base);
        if product > u64::from(MOST_INT) {
            return None;
        }
    }
    Some(product as i32)
}

/// `a ** b`, or none where it raises an exception: the exponent is negative, or the power is no
/// int. 0 to the power 0 is 1.
pub fn power(a: Int, b: Int) -> Option<Int>
    ensures { result ≡ int_in (power a b) }
{
    let base = a.get();
    let exponent = b.get();
    if exponent < 0 {
        return None;
    }
    let magnitude = magnitude(base.unsigned_abs(), exponent.unsigned_abs())?;
    if base < 0 && exponent % 2 == 1 {
        Int::new(-magnitude)
    } else {
        Int::new(magnitude)
    }
}
