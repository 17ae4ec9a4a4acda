ghost use Rattle.std.specs.Prelude.{◌≡◌, IfOk};
ghost use Rattle.std.specs.Option.{option_copied};

use crate::share::Share;
use std::alloc::AllocError;
use std::marker::Model;

/// A value as the map holds it, copied by `share` where the map is copied.
#[derive(Drop)]
pub(crate) struct Held<T> {
    value: T,
}

impl<T> Model for Held<T> {
    ghost Value = { T };

    ghost view = { λ h. h.value };
}

impl<T> Held<T> {
    pub(crate) fn new(value: T) -> Held<T>
        ensures { result ≡ value }
    {
        Held { value }
    }

    pub(crate) fn lend(&self) -> &T
        ensures { result.now ≡ self.now }
    {
        &self.value
    }

    pub(crate) fn into_value(self) -> T
        ensures { result ≡ self }
    {
        let Held { value } = self;
        value
    }
}

impl<T: Share + Drop> Clone for Held<T> {
    ghost is_clone = { λ x y. T.alike x y };

    fn clone(&self) -> Result<Held<T>, AllocError> {
        match self.value.share() {
            Ok(value) => Ok(Held { value }),
            Err(_) => Err(AllocError),
        }
    }
}
