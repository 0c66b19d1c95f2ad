use thiserror::Error;

/// A call of a station: the beginning of a take or of a release, one step, or its retirement.
#[derive(Clone, Copy, Debug, PartialEq, Eq, Hash)]
pub enum Act {
    Take { station: u64, node: u64 },
    Release { station: u64 },
    Step { station: u64 },
    Retire { station: u64 },
}

/// The reason why a call is refused. A refused call changes nothing.
#[derive(Clone, Copy, Debug, PartialEq, Eq, Error)]
pub enum Refused {
    /// A take or a retirement by a station that is not idle.
    #[error("the station is not idle")]
    NotIdle,
    /// A release by a station that holds nothing.
    #[error("the station holds nothing")]
    NotHolding,
    /// No station has this number.
    #[error("there is no such station")]
    NoStation,
    /// A take of a number that is no node of the machine.
    #[error("there is no such node")]
    NotInCube,
    /// A step of a station at rest.
    #[error("the station makes no step")]
    Resting,
}
