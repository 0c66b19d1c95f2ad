use thiserror::Error;

/// The reason why a cube is not opened.
#[derive(Clone, Copy, Debug, PartialEq, Eq, Hash, Error)]
pub enum CubeRefused {
    /// The dimension is above the largest one.
    #[error("the dimension is above the largest one")]
    BadDimension,
    /// The number of stations is 0 or above the largest one.
    #[error("the number of stations is not within its limits")]
    BadStations,
    /// There was no memory for the words or for the stations.
    #[error("out of memory")]
    OutOfMemory,
}

/// The reason why a take of a `Solo` is refused.
#[derive(Clone, Copy, Debug, PartialEq, Eq, Hash, Error)]
pub enum SoloRefused {
    /// No aligned block of this dimension is free: each overlaps a held block.
    #[error("no free subcube of this dimension")]
    NoSubcube,
    /// Each station holds a block.
    #[error("each station holds a region")]
    NoStation,
}
