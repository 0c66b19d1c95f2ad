// The names of the stations of a machine.
ghost use Rattle.std.specs.Prelude.{◌≡◌, ◌≢◌, ◌↔◌, ℕ, ◌-◌, ◌<◌, ◌≤◌, None, Some, length, replicate, slice_set, IsTrue, IfOk, IfNone, IfSome};
ghost use Rattle.cli_commands.specs.Inner.Names.{AreNamedBelow, name_at};

use cube_shape::MAX_STATIONS;
use jobs_csv::Name;
use std::alloc::{AllocError, Global};
use std::marker::Model;

/// A name, or none, for each station.
///
/// Contracts see the list of these. A search for a name ends at the last station that has one.
#[derive(Drop)]
pub(crate) struct Names {
    list: Vec<Option<Name>>,
    // No station from this number on has a name.
    used: usize,
}

impl Model for Names {
    ghost use Rattle.std.specs.Prelude.{List, ℕ, Option};
    ghost use Rattle.cli_commands.specs.Inner.Names.{AreNamedBelow};

    ghost Value = { List (Option (List ℕ)) };

    ghost view = { λ n. n.list.items };

    ghost invariant = { λ n. AreNamedBelow n.used n.list.items };
}

// Returns whether a station has this name.
fn is_name(held: Option<Name>, name: Name) -> bool
    ensures { IsTrue result ↔ (held ≡ Some name) }
{
    match held {
        Some(other) => other == name,
        None => false,
    }
}

// Returns the station that has this name, if there is one.
#[tactic(auto, using(std::proofs::lemmas::List::get_or_past))]
fn station_of(names: &[Option<Name>], name: Name) -> Option<u32>
    requires { length names.now ≤ MAX_STATIONS }
    ensures some { IfSome result (λ s. (s < MAX_STATIONS) × (name_at names.now s ≡ Some name)) }
    ensures none { IfNone result ((s : ℕ) → name_at names.now s ≢ Some name) }
{
    let index = names.iter().position(|held| is_name(*held, name))?;
    Some(index as u32)
}

// Returns the first station that has no name, if there is one.
fn first_idle(names: &[Option<Name>]) -> Option<u32>
    requires { length names.now ≡ MAX_STATIONS }
    ensures some { IfSome result (λ s. (s < MAX_STATIONS) × (name_at names.now s ≡ None)
        × ((t : ℕ) → t < s → name_at names.now t ≢ None)) }
    ensures none { IfNone result ((s : ℕ) → s < MAX_STATIONS → name_at names.now s ≢ None) }
{
    let index = names.iter().position(|held| held.is_none())?;
    Some(index as u32)
}

// Returns the number after the last station that has a name.
fn used_in(names: &[Option<Name>]) -> usize
    ensures below { AreNamedBelow result names.now }
    ensures last { result ≢ 0 → name_at names.now (result - 1) ≢ None }
{
    let mut used = names.len();
    while used > 0 && names[used - 1].is_none() {
        used -= 1;
    }
    used
}

impl Names {
    /// Creates a list in which no station has a name.
    pub(crate) fn new(alloc: Global) -> Result<Self, AllocError>
        ensures { IfOk result (λ names. names ≡ replicate MAX_STATIONS None) }
    {
        Ok(Names {
            list: vec![in alloc; None; MAX_STATIONS as usize]?,
            used: 0,
        })
    }

    /// Returns the station that has this name, if there is one.
    #[inline(always)]
    pub(crate) fn station_of(&self, name: Name) -> Option<u32>
        requires { length self.now ≡ MAX_STATIONS }
        ensures some { IfSome result (λ s. (s < MAX_STATIONS) × (name_at self.now s ≡ Some name)) }
        ensures none { IfNone result ((s : ℕ) → name_at self.now s ≢ Some name) }
    {
        station_of(&self.list[..self.used], name)
    }

    /// Returns the first station that has no name, if there is one.
    pub(crate) fn first_idle(&self) -> Option<u32>
        requires { length self.now ≡ MAX_STATIONS }
        ensures some { IfSome result (λ s. (s < MAX_STATIONS) × (name_at self.now s ≡ None)
            × ((t : ℕ) → t < s → name_at self.now t ≢ None)) }
        ensures none { IfNone result ((s : ℕ) → s < MAX_STATIONS → name_at self.now s ≢ None) }
    {
        first_idle(&self.list)
    }

    /// Sets the name of a station, or removes it.
    pub(crate) fn set(&mut self, station: u32, name: Option<Name>)
        requires { station < length self.old }
        ensures { self.new ≡ slice_set self.old station name }
    {
        let index = station as usize;
        self.list[index] = name;
        self.used = used_in(&self.list[..self.used.max(index + 1)]);
    }
}
