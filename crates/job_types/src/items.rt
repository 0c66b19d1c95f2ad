//! The items of a job, which lie in the job itself if they are few.

ghost use Rattle.std.specs.Prelude.{◌≡◌, ℕ, List, false, true, IfErr, IfOk, IfSome};
ghost use Rattle.job_types.specs.Inner.Items.{AreHeld, IsWhole, id_lane_in, numbers_in, result_in};
ghost use Rattle.job_types.specs.Inner.Kept.{is_scan};

use crate::kind::Kind;

// The items of a job. One to four items of a job that is no scan need no block of memory of their
// own. Beside them is the lane of the job's id: the tag of the enum leaves room for it there.
#[derive(Debug, Drop)]
pub(crate) enum Items {
    One(u32, [u64; 1]),
    Two(u32, [u64; 2]),
    Three(u32, [u64; 3]),
    Four(u32, [u64; 4]),
    Many(u32, Vec<u64>),
    // The number of items of a scan, and a list of these and of as many numbers of its result.
    Scan(u32, usize, Vec<u64>),
}

// Copies one to four items. Returns `None` for any other number of them.
fn few(items: &[u64]) -> Option<Items>
    ensures { IfSome result (AreHeld false items.now) }
{
    match items {
        [a] => Some(Items::One(0, [*a])),
        [a, b] => Some(Items::Two(0, [*a, *b])),
        [a, b, c] => Some(Items::Three(0, [*a, *b, *c])),
        [a, b, c, d] => Some(Items::Four(0, [*a, *b, *c, *d])),
        _ => None,
    }
}

// Returns the items of a scan, with room for its result.
fn of_scan(items: Vec<u64>) -> Result<Items, Vec<u64>>
    ensures made { IfOk result (AreHeld true items.items) }
    ensures gives_back { IfErr result (λ back. back.items ≡ items.items) }
{
    let count = items.len();
    let mut numbers = items;
    let Ok(()) = numbers.reserve_exact(count) else {
        return Err(numbers);
    };
    let Ok(()) = numbers.extend_from_within(..) else {
        return Err(numbers);
    };
    Ok(Items::Scan(0, count, numbers))
}

impl Items {
    // Takes the items of a job, and reserves room for the result of a scan. Frees the list of few
    // items. Returns the list if memory runs out.
    pub(crate) fn new(kind: Kind, items: Vec<u64>) -> Result<Self, Vec<u64>>
        ensures made { IfOk result (AreHeld (is_scan kind) items.items) }
        ensures gives_back { IfErr result (λ back. back.items ≡ items.items) }
    {
        if kind.is_scan() {
            return of_scan(items);
        }
        match few(&items) {
            Some(few) => Ok(few),
            None => Ok(Items::Many(0, items)),
        }
    }

    // Returns the items in order.
    pub(crate) fn as_slice(&self) -> &[u64]
        requires { IsWhole self.now }
        ensures { result.now ≡ numbers_in self.now }
    {
        match self {
            Items::One(_, items) => items.as_slice(),
            Items::Two(_, items) => items.as_slice(),
            Items::Three(_, items) => items.as_slice(),
            Items::Four(_, items) => items.as_slice(),
            Items::Many(_, items) => items.as_slice(),
            Items::Scan(_, count, numbers) => &numbers[..*count],
        }
    }

    // Returns the lane of the job's id, once it is known.
    pub(crate) fn id_lane(&self) -> u32
        ensures { result ≡ id_lane_in self.now }
    {
        match self {
            Items::One(lane, _)
            | Items::Two(lane, _)
            | Items::Three(lane, _)
            | Items::Four(lane, _)
            | Items::Many(lane, _)
            | Items::Scan(lane, _, _) => *lane,
        }
    }

    // Keeps the lane of the job's id.
    pub(crate) fn put_id_lane(&mut self, id_lane: u32)
        ensures lane { id_lane_in self.new ≡ id_lane }
        ensures items { numbers_in self.new ≡ numbers_in self.old }
        ensures result { (number : List ℕ) →
            result_in self.new number ≡ result_in self.old number }
        ensures whole { IsWhole self.old → IsWhole self.new }
    {
        match self {
            Items::One(lane, _) => *lane = id_lane,
            Items::Two(lane, _) => *lane = id_lane,
            Items::Three(lane, _) => *lane = id_lane,
            Items::Four(lane, _) => *lane = id_lane,
            Items::Many(lane, _) => *lane = id_lane,
            Items::Scan(lane, _, _) => *lane = id_lane,
        }
    }
}
