ghost use Rattle.std.specs.Prelude.{◌≡◌, Some, None, IsTrue, if◌then◌else◌};
ghost use Rattle.tu_base.specs.Scalars.{is_int};

use std::marker::Model;
use tu_base::MOST_INT;

/// A number that an int can be: from -`MOST_INT` to `MOST_INT`.
#[derive(Clone, Copy, PartialEq, Eq)]
pub struct Int {
    value: i32,
}

impl Model for Int {
    ghost use Rattle.std.specs.Prelude.{ℤ, IsTrue};
    ghost use Rattle.tu_base.specs.Scalars.{is_int};

    ghost Value = { ℤ };

    ghost view = { λ i. i.value };

    ghost invariant = { λ i. IsTrue (is_int i.value) };

    ghost inverse = { λ z. record { value = z } };
}

impl Int {
    /// The number, or none where no int is that number.
    pub fn new(value: i32) -> Option<Int>
        ensures { result ≡ (if is_int value then Some value else None) }
    {
        if value.unsigned_abs() <= MOST_INT {
            Some(Int { value })
        } else {
            None
        }
    }

    pub fn get(self) -> i32
        ensures value { result ≡ self }
        ensures within { IsTrue (is_int result) }
    {
        self.value
    }
}
