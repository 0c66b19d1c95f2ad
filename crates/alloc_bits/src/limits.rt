/// The largest dimension of a machine whose bits are a slice: it has at most `2^MAX_BITS_DIM`
/// processors.
pub const MAX_BITS_DIM: u32 = 20;
