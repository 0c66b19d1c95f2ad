//! Opening a cube, and its size.
ghost use Rattle.std.specs.Prelude.{◌≡◌, ◌<◌, ◌≤◌, ◌⊎◌, ◌↔◌, [], All, map, vec_len, vec_capacity, IfOk, IsErrOf};
ghost use Rattle.tree_steps.specs.Rule.{first_view, idle_entries};
ghost use Rattle.tree_steps.specs.Tree.{id_of, size_of, station_count};
ghost use Rattle.cube_tree.specs.Seats.{IsBare};
ghost use Rattle.cube_tree.specs.Ends.{HasAll};
ghost use Rattle.cube_tree.specs.Hint.{HasNoHint};
ghost use Rattle.cube_tree.specs.Handles.{cube_dim, cube_size, loads_of, station_entry, size_with, IsStationOf, HasTable};

use crate::handles::{Cube, TreeStation};
use crate::refused::CubeRefused;
use cube_shape::{Dim, MAX_DIM, MAX_STATIONS};
use std::alloc::Global;
use tree_steps::{Seat, Size, Tree};

impl Cube {
    /// Opens a machine of dimension `n` in which every block is free. Returns it with its stations,
    /// which are idle and have the numbers from 0 on.
    pub fn open(
        alloc: Global,
        n: u32,
        stations: u32,
    ) -> Result<(Cube, Vec<TreeStation>), CubeRefused>
        ensures dimension { IsErrOf result CubeRefused.BadDimension ↔ (MAX_DIM < n) }
        ensures stations { IsErrOf result CubeRefused.BadStations
            ↔ ((n ≤ MAX_DIM) × ((stations ≡ 0) ⊎ (MAX_STATIONS < stations))) }
        ensures size { IfOk result (λ made. cube_size made.0 ≡ size_with n stations) }
        ensures loads { IfOk result (λ made. loads_of made.0 ≡ []) }
        ensures count { IfOk result (λ made. vec_len made.1 ≡ stations) }
        ensures idle { IfOk result (λ made. map station_entry made.1.items
            ≡ idle_entries 0 stations) }
        ensures all { IfOk result (λ made. HasAll stations made.1.items) }
        ensures of_cube { IfOk result (λ made. All (IsStationOf made.0) made.1.items) }
        ensures nothing { IfOk result (λ made. All HasNoHint made.1.items) }
    {
        if !Dim(n).fits(MAX_DIM) {
            return Err(CubeRefused::BadDimension);
        }
        if stations == 0 || stations > MAX_STATIONS {
            return Err(CubeRefused::BadStations);
        }
        let Ok(mut list) = Vec::with_capacity(alloc, stations as usize) else {
            return Err(CubeRefused::OutOfMemory);
        };
        match Tree::open(alloc, Size { dim: n, stations }) {
            Ok((tree, mut seat)) => {
                deal(&tree, &mut seat, &mut list, stations);
                Ok((Cube { tree, seat }, list))
            }
            Err(_) => {
                list.destroy_empty();
                Err(CubeRefused::OutOfMemory)
            }
        }
    }
}

impl Cube {
    /// Returns the dimension of the machine.
    pub fn dim(&self) -> u32
        ensures value { result ≡ cube_dim self.now }
        ensures limit { result ≤ MAX_DIM }
    {
        self.tree.size().dim
    }

    /// Returns the number of its stations.
    pub fn stations(&self) -> u32
        ensures value { result ≡ (cube_size self.now).stations }
        ensures limit { result ≤ MAX_STATIONS }
    {
        self.tree.size().stations
    }
}

// Gives each station a seat of its own.
fn deal(tree: &Tree, seat: &mut Seat, list: &mut Vec<TreeStation>, stations: u32)
    requires seat { seat.old.table_id ≡ id_of tree.now }
    requires first { seat.old.me ≡ (first_view (size_of tree.now), []) }
    requires count { station_count tree.now ≡ stations }
    requires empty { list.old.items ≡ [] }
    requires room { stations ≤ vec_capacity list.old }
    requires limit { stations ≤ MAX_STATIONS }
    ensures seat { seat.new.table_id ≡ seat.old.table_id }
    ensures bare { IsBare seat.new.me }
    ensures loads { seat.new.me.0.loads ≡ [] }
    ensures len { vec_len list.new ≡ stations }
    ensures idle { map station_entry list.new.items ≡ idle_entries 0 stations }
    ensures all { HasAll stations list.new.items }
    ensures of_tree { All (HasTable (id_of tree.now)) list.new.items }
    ensures nothing { All HasNoHint list.new.items }
{
    for number in 0..stations {
        let own = tree.cut_first(seat);
        list.push_reserved(TreeStation {
            number,
            hint: None,
            seat: own,
        });
    }
}
