use cube_shape::Node;
use thiserror::Error;

/// The reason why a take of a node is refused.
#[derive(Clone, Copy, Debug, PartialEq, Eq, Hash, Error)]
pub enum Why {
    /// The node's word was in use.
    #[error("the node is in use")]
    InUse,
    /// Another station changed the node's word first.
    #[error("another station changed the node first")]
    Lost,
    /// This ancestor was occupied.
    #[error("an ancestor is occupied")]
    Under(Node),
}
