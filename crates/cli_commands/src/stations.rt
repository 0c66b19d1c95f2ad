// The stations of a machine, each of which holds a block under a name or nothing.
ghost use Rattle.std.specs.Prelude.{◌≡◌, ℕ, ◌≤◌, IfOk};
ghost use Rattle.jobs_csv.specs.declared.place.Command.TheVariants as command;
ghost use Rattle.jobs_csv.specs.Place.{Fits};
ghost use Rattle.cli_commands.specs.Place.{PlaceStep, command_in, empty_table};
ghost use Rattle.cli_commands.specs.Inner.Stations.{AreStations, dim_of, named_holdings};

use crate::names::Names;
use alloc_bits::AllocBits;
use cube_shape::MAX_DIM;
use jobs_csv::{Command, Name, PlaceRow};
use std::alloc::{AllocError, Global};

/// A machine with a name for each station that holds a block.
#[derive(Drop)]
pub(crate) struct Stations {
    bits: AllocBits,
    names: Names,
}

impl Stations {
    /// Creates a machine of dimension `n` whose stations hold nothing.
    pub(crate) fn new(alloc: Global, n: u32) -> Result<Self, AllocError>
        requires { n ≤ MAX_DIM }
        ensures made { IfOk result (λ made. AreStations made) }
        ensures dim { IfOk result (λ made. dim_of made ≡ n) }
        ensures free { IfOk result (λ made. (s : ℕ) → named_holdings made s ≡ empty_table s) }
    {
        Ok(Stations {
            bits: AllocBits::new(alloc, n)?,
            names: Names::new(alloc)?,
        })
    }

    // Takes a block for a name, unless the name holds one.
    fn take(&mut self, name: Name, dim: u32) -> PlaceRow
        requires made { AreStations self.old }
        requires fits { dim ≤ dim_of self.old }
        ensures made { AreStations self.new }
        ensures dim { dim_of self.new ≡ dim_of self.old }
        ensures command { command_in result ≡ command.Take name dim }
        ensures step { PlaceStep (dim_of self.old) result (named_holdings self.old)
            (named_holdings self.new) }
    {
        if let Some(_holder) = self.names.station_of(name) {
            return PlaceRow::Held { name, dim };
        }
        let Some(station) = self.names.first_idle() else {
            return PlaceRow::NoStation { name, dim };
        };
        let Ok(region) = self.bits.take(station, dim) else {
            return PlaceRow::NoSubcube { name, dim };
        };
        self.names.set(station, Some(name));
        let base = region.base;
        PlaceRow::Given { name, dim, base }
    }

    // Releases the block of a name, if it holds one.
    fn free(&mut self, name: Name) -> PlaceRow
        requires made { AreStations self.old }
        ensures made { AreStations self.new }
        ensures dim { dim_of self.new ≡ dim_of self.old }
        ensures command { command_in result ≡ command.Free name }
        ensures step { PlaceStep (dim_of self.old) result (named_holdings self.old)
            (named_holdings self.new) }
    {
        let Some(station) = self.names.station_of(name) else {
            return PlaceRow::NothingHeld { name };
        };
        let region = self.bits.release(station).unwrap();
        self.names.set(station, None);
        let dim = region.dim;
        let base = region.base;
        PlaceRow::Freed { name, dim, base }
    }

    /// Carries out a command and returns its row.
    pub(crate) fn answer(&mut self, command: Command) -> PlaceRow
        requires made { AreStations self.old }
        requires fits { Fits (dim_of self.old) command }
        ensures made { AreStations self.new }
        ensures dim { dim_of self.new ≡ dim_of self.old }
        ensures command { command_in result ≡ command }
        ensures step { PlaceStep (dim_of self.old) result (named_holdings self.old)
            (named_holdings self.new) }
    {
        match command {
            Command::Take { name, dim } => self.take(name, dim),
            Command::Free { name } => self.free(name),
        }
    }
}
