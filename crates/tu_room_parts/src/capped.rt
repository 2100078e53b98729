ghost use Rattle.std.specs.Prelude.{◌≡◌, ◌+◌, ◌*◌};
ghost use Rattle.tu_room_parts.specs.Capped.{capped};

/// Where sums are cut off: one word more than rooms may have together. So no text that has it
/// ever runs, and no sum passes the range of its type.
pub const MOST_ROOM: u64 = 8_388_609;

/// The sum of two numbers, cut off.
pub fn plus(a: u64, b: u64) -> u64
    ensures { result ≡ capped (a + b) }
{
    a.saturating_add(b).min(MOST_ROOM)
}

/// The product of two numbers, cut off.
pub fn times(a: u64, b: u64) -> u64
    ensures { result ≡ capped (a * b) }
{
    a.saturating_mul(b).min(MOST_ROOM)
}

/// A number, cut off.
pub fn cut_off(a: u64) -> u64
    ensures { result ≡ capped a }
{
    a.min(MOST_ROOM)
}
