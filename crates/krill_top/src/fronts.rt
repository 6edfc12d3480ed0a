//! Taking from the front of a list, and putting back in front, within the room that is there.

ghost use Rattle.std.specs.Prelude.{◌≡◌, ◌≤◌, ◌+◌, ◌<◌, ◌∷◌, vec_len, vec_capacity};

/// Takes the first element out.
pub(crate) fn take_first<T>(list: &mut Vec<T>) -> T
    requires { 0 < vec_len list.old }
    ensures items { list.old.items ≡ result ∷ list.new.items }
    ensures len { vec_len list.old ≡ vec_len list.new + 1 }
    ensures capacity { vec_capacity list.new ≡ vec_capacity list.old }
{
    list.remove(0)
}

/// Puts an element in front.
pub(crate) fn put_in_front<T: Drop>(list: &mut Vec<T>, element: T)
    requires { vec_len list.old < vec_capacity list.old }
    ensures items { list.new.items ≡ element ∷ list.old.items }
    ensures len { vec_len list.new ≡ vec_len list.old + 1 }
    ensures capacity { vec_capacity list.old ≤ vec_capacity list.new }
{
    list.insert(0, element).unwrap();
}
