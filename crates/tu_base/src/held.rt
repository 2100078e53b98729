ghost use Rattle.std.specs.Prelude.{◌≡◌};

use std::marker::Model;

/// A value in hand while more is read. It is dropped by one call, however deep it is.
pub struct Held<T> {
    inner: T,
}

impl<T> Model for Held<T> {
    ghost Value = { T };

    ghost coded = { T.code };

    ghost view = { λ h. h.inner };
}

impl<T: Drop> Drop for Held<T> {
    fn drop(self) {
        let Held { inner } = self;
        drop(inner);
    }
}

impl<T> Held<T> {
    pub fn new(inner: T) -> Held<T>
        ensures { result ≡ inner }
    {
        Held { inner }
    }

    pub fn into_inner(self) -> T
        ensures { result ≡ self }
    {
        let Held { inner } = self;
        inner
    }
}
