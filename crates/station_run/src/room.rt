//! Lists with room.
ghost use Rattle.std.specs.Prelude.{◌≡◌, ◌+◌, ◌<◌, ◌≤◌, ◌++◌, ◌∷◌, [], vec_len};
ghost use Rattle.std.specs.Vec.{vec_capacity};

/// Appends the item to a list that has room for it.
pub fn place<T: Drop>(list: &mut Vec<T>, item: T)
    requires { vec_len list.old < vec_capacity list.old }
    ensures items { list.new.items ≡ list.old.items ++ item ∷ [] }
    ensures len { vec_len list.new ≡ vec_len list.old + 1 }
    ensures capacity { vec_capacity list.old ≤ vec_capacity list.new }
{
    if list.push(item).is_err() {
        // the premise leaves room for it
        unreachable!();
    }
}
