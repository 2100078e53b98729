ghost use Rattle.std.specs.Prelude.{◌≡◌};
ghost use Rattle.tu_effects.specs.Least.{at_if as at_if_of, earlier as earlier_of};

use tu_core::At;

/// The earlier one of two places, where there are any.
pub fn earlier(first: Option<At>, second: Option<At>) -> Option<At>
    ensures { result ≡ earlier_of first second }
{
    match first {
        None => second,
        Some(one) => match second {
            None => Some(one),
            Some(other) => if other.start < one.start {
                Some(other)
            } else {
                Some(one)
            },
        },
    }
}

/// A place, where something holds there.
pub fn at_if(holds: bool, at: At) -> Option<At>
    ensures { result ≡ at_if_of holds at }
{
    if holds { Some(at) } else { None }
}
