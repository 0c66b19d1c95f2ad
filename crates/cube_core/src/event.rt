/// The kind of an event: which atomic step it is.
#[derive(Clone, Copy, Debug, PartialEq, Eq, Hash)]
pub enum Kind {
    Look,
    Claim,
    Sweep,
    Raise,
    Zero,
    Unmark,
    Mark,
    Child,
    Clear,
    Retire,
}

/// The outcome of an event.
#[derive(Clone, Copy, Debug, PartialEq, Eq, Hash)]
pub enum Note {
    /// The word was free.
    Free,
    /// The word of the node asked for was in use.
    InUse,
    /// Another station changed the word first.
    Lost,
    /// The station continues at the parent.
    Climb,
    /// The station holds the block from now on.
    Held,
    /// The step is done, and the station goes on.
    Ok,
    /// An ancestor is occupied.
    Under,
    /// Nothing is left to do.
    Done,
    /// The node is occupied, so the station has nothing more to do.
    Stop,
    /// The word of a child was in use.
    Used,
    /// The node stays in use.
    Keep,
    /// The station has retired.
    Retired,
}

/// One atomic step of a station on one word.
#[derive(Clone, Copy, Debug, PartialEq, Eq, Hash)]
pub struct Event {
    pub station: u64,
    pub kind: Kind,
    /// The node of the word; `0` is the roll.
    pub node: u64,
    /// The word after the step.
    pub word: u64,
    pub note: Note,
}
