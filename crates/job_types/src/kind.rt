//! The collectives that jobs ask for, and the operations that join their items.

ghost use Rattle.std.specs.Prelude.{◌≡◌};
ghost use Rattle.job_types.specs.Collective.{shape_of};
ghost use Rattle.job_types.specs.Job.{has_bad_root};
ghost use Rattle.job_types.specs.Inner.Collective.{operation_of};
ghost use Rattle.job_types.specs.Inner.Kept.{is_scan, shown_place};

use collectives::Shape;

/// An operation that joins two items into one. Each is associative.
#[derive(Clone, Copy, Debug, PartialEq, Eq, Hash)]
pub enum Op {
    /// The sum modulo `2^64`.
    Add,
    /// The smaller.
    Min,
    /// The larger.
    Max,
    /// The bits in which the two differ.
    Xor,
    /// The bits that both have.
    And,
    /// The bits that either has.
    Or,
}

/// The collective that a job asks for. Items are joined in the order of their ranks.
#[derive(Clone, Copy, Debug, PartialEq, Eq, Hash)]
pub enum Kind {
    /// Every processor that has an item receives the item of the root.
    Broadcast {
        /// The rank of the root.
        root: u64,
    },
    /// The root receives all items, joined, and the other processors hold nothing.
    Reduce {
        /// What joins them.
        op: Op,
        /// The rank of the root.
        root: u64,
    },
    /// Every processor that has an item receives all items, joined.
    AllReduce {
        /// What joins them.
        op: Op,
    },
    /// Each processor that has an item receives the items up to and including its own, joined.
    Scan {
        /// What joins them.
        op: Op,
    },
    /// Each processor that has an item receives the items before its own, joined. The first one
    /// receives the unit of the operation.
    ExScan {
        /// What joins them.
        op: Op,
    },
}

impl Kind {
    // Returns whether the collective has a root that is none of the `places` places.
    pub(crate) fn has_bad_root(self, places: u64) -> bool
        ensures { result ≡ has_bad_root self places }
    {
        match self {
            Kind::Broadcast { root } | Kind::Reduce { root, .. } => root >= places,
            Kind::AllReduce { .. } | Kind::Scan { .. } | Kind::ExScan { .. } => false,
        }
    }

    // Returns the operation that joins the items. A broadcast joins none, so any operation will do.
    pub(crate) fn operation(self) -> Op
        ensures { result ≡ operation_of self }
    {
        match self {
            Kind::Broadcast { .. } => Op::Add,
            Kind::Reduce { op, .. }
            | Kind::AllReduce { op }
            | Kind::Scan { op }
            | Kind::ExScan { op } => op,
        }
    }

    // Returns whether each place of an item may hold a number of its own at the end.
    pub(crate) fn is_scan(self) -> bool
        ensures { result ≡ is_scan self }
    {
        match self {
            Kind::Broadcast { .. } | Kind::Reduce { .. } | Kind::AllReduce { .. } => false,
            Kind::Scan { .. } | Kind::ExScan { .. } => true,
        }
    }

    // Returns a place that holds the result of all items, if the collective is no scan.
    pub(crate) fn shown_place(self) -> u64
        ensures { result ≡ shown_place self }
    {
        match self {
            Kind::Reduce { root, .. } => root,
            Kind::Broadcast { .. }
            | Kind::AllReduce { .. }
            | Kind::Scan { .. }
            | Kind::ExScan { .. } => 0,
        }
    }

    // Returns which messages the collective sends.
    pub(crate) fn shape(self) -> Shape
        ensures { result ≡ shape_of self }
    {
        match self {
            Kind::Broadcast { .. } => Shape::Broadcast,
            Kind::Reduce { .. } => Shape::Reduce,
            Kind::AllReduce { .. } => Shape::AllReduce,
            Kind::Scan { .. } | Kind::ExScan { .. } => Shape::Scan,
        }
    }
}
