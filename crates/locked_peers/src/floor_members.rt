// The stations of a `LockedFloor`: making them when it opens, collecting them when it ends.
ghost use Rattle.std.specs.Prelude.{◌≡◌, ℕ, ◌<◌, ◌≤◌, [], length};
ghost use Rattle.std.specs.List.{All};
ghost use Rattle.std.specs.Vec.{vec_capacity};
ghost use Rattle.locked_peers.specs.InnerFloor.View.{first_view};
ghost use Rattle.locked_peers.specs.InnerFloor.End.{IsWhole};
ghost use Rattle.locked_peers.specs.InnerFloor.Handle.{table_of, size_of, floor_id, is_seated, grants_of};

use crate::floor_handle::LockedStation;
use crate::floor_lock::{BitsLock, Seat};
use cube_shape::MAX_STATIONS;

// Makes the stations from the records of the first seat.
pub(crate) fn deal_stations(
    lock: &BitsLock,
    mut seat: Seat,
    mut stations: Vec<LockedStation>,
    count: u32,
) -> Vec<LockedStation>
    requires table { seat.table_id ≡ table_of lock.now }
    requires first { seat.me ≡ (first_view (size_of lock.now), []) }
    requires count { count ≡ (size_of lock.now).stations }
    requires few { count ≤ MAX_STATIONS }
    requires none_yet { stations.items ≡ [] }
    requires room { count ≤ vec_capacity stations }
    ensures count { length result.items ≡ count }
    ensures stations { All (is_seated (floor_id lock.now)) result.items }
    ensures fresh { All (λ s. grants_of s ≡ []) result.items }
{
    for number in 0..count {
        let seat = lock.deal(&mut seat);
        stations.push_reserved(LockedStation { number, seat });
    }
    stations
}

// Joins the records of all stations in one seat.
pub(crate) fn gather_stations(lock: &BitsLock, mut stations: Vec<LockedStation>) -> Seat
    requires stations { All (is_seated (floor_id lock.now)) stations.items }
    requires all { length stations.items ≡ (size_of lock.now).stations }
    requires some { 0 < length stations.items }
    ensures table { result.table_id ≡ table_of lock.now }
    ensures whole { IsWhole (size_of lock.now) result.me }
{
    let Some(
        LockedStation {
            number: _,
            mut seat,
        },
    ) = stations.pop()
    else {
        unreachable!()
    };
    while let Some(
        LockedStation {
            number: _,
            seat: other,
        },
    ) = stations.pop()
    {
        lock.gather(&mut seat, other);
    }
    stations.destroy_empty();
    seat
}
