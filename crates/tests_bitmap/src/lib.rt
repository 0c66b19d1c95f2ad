//! A test of the allocator over a tree of bitmaps (`bitmap_tree`), and a caller of the exact
//! allocator (`fit_tree`).
#![tactic(auto)]

mod backfill;
#[cfg(test)]
mod tests;

pub use backfill::take_apart;
