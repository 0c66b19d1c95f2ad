// A list of two members, taken apart and put together again.
ghost use Rattle.std.specs.Prelude.{◌≡◌, ◌≤◌, [], ◌∷◌, length};
ghost use Rattle.std.specs.Vec.{vec_capacity};

// Returns both members of a list, and the empty list with room for them.
pub(crate) fn two_of<T>(mut members: Vec<T>) -> (T, T, Vec<T>)
    requires { length members.items ≡ 2 }
    ensures members { members.items ≡ result.0 ∷ result.1 ∷ [] }
    ensures room { (result.2.items ≡ []) × (2 ≤ vec_capacity result.2) }
{
    let Some(second) = members.pop() else {
        unreachable!()
    };
    let Some(first) = members.pop() else {
        unreachable!()
    };
    (first, second, members)
}

// Returns the list of both.
pub(crate) fn both<T>(mut room: Vec<T>, first: T, second: T) -> Vec<T>
    requires { (room.items ≡ []) × (2 ≤ vec_capacity room) }
    ensures { result.items ≡ first ∷ second ∷ [] }
{
    room.push_reserved(first);
    room.push_reserved(second);
    room
}
