//! Lists of one member or two, taken apart and put together again.
ghost use Rattle.std.specs.Prelude.{◌≡◌, ◌≤◌, [], ◌∷◌, length};
ghost use Rattle.std.specs.Vec.{vec_capacity};

/// Takes the only member out of a list, which keeps its room.
pub fn only<T>(members: &mut Vec<T>) -> T
    requires { length members.old.items ≡ 1 }
    ensures member { members.old.items ≡ result ∷ [] }
    ensures room { (members.new.items ≡ []) × (1 ≤ vec_capacity members.new) }
{
    let Some(member) = members.pop() else {
        unreachable!()
    };
    member
}

/// Puts one member into a list.
pub fn sole<T>(mut room: Vec<T>, member: T) -> Vec<T>
    requires { (room.items ≡ []) × (1 ≤ vec_capacity room) }
    ensures { result.items ≡ member ∷ [] }
{
    room.push_reserved(member);
    room
}

/// Both members of a list of two, and the list with its room.
pub struct Pair<T> {
    /// The first member.
    pub first: T,
    /// The second one.
    pub second: T,
    /// The list without them.
    pub room: Vec<T>,
}

impl<T> Pair<T> {
    /// Takes a list of two apart.
    pub fn of(mut members: Vec<T>) -> Pair<T>
        requires { length members.items ≡ 2 }
        ensures members { members.items ≡ result.first ∷ result.second ∷ [] }
        ensures room { (result.room.items ≡ []) × (2 ≤ vec_capacity result.room) }
    {
        let Some(second) = members.pop() else {
            unreachable!()
        };
        let Some(first) = members.pop() else {
            unreachable!()
        };
        Pair {
            first,
            second,
            room: members,
        }
    }
}

/// Puts both members into their list.
pub fn both<T>(pair: Pair<T>) -> Vec<T>
    requires { (pair.room.items ≡ []) × (2 ≤ vec_capacity pair.room) }
    ensures { result.items ≡ pair.first ∷ pair.second ∷ [] }
{
    let Pair {
        first,
        second,
        mut room,
    } = pair;
    room.push_reserved(first);
    room.push_reserved(second);
    room
}
