//! The end of a measurement: the words that are free, and whether the machine is whole again.
ghost use Rattle.std.specs.Prelude.{◌≡◌, ◌≤◌};
ghost use Rattle.std.specs.List.{All};
ghost use Rattle.bitmap_tree.specs.Handles.{permits_of, IsHeldOf};
ghost use Rattle.cube_bench.specs.RegionLanes.{IsLaneOf};
ghost use Rattle.cube_shape.specs.declared.limits.TheConstants.{MAX_BITMAP_DIM};

use crate::regions::lanes::Lane;
use bitmap_tree::{BitmapTree, HeldBlock};
use std::alloc::Global;

// Marks the words of a block.
fn mark_block(in_use: &mut [bool], block: &HeldBlock) {
    let region = block.region();
    let first = region.base / 64;
    for i in 0..1u64 << region.dim.saturating_sub(6).min(63) {
        if let Some(word) = in_use.get_mut(first.wrapping_add(i) as usize) {
            *word = true;
        }
    }
}

// Marks the words of all blocks.
fn mark_all(in_use: &mut [bool], blocks: &[HeldBlock]) {
    for block in blocks {
        mark_block(in_use, block);
    }
}

/// Returns how many words have no held processor.
pub(crate) fn free_words(
    alloc: Global,
    dim: u32,
    blocks: &[HeldBlock],
    lanes: &[Lane],
) -> Option<u64>
    requires { dim ≤ MAX_BITMAP_DIM }
{
    let mut in_use = vec![in alloc; false; 1usize << dim.saturating_sub(6)].ok()?;
    mark_all(&mut in_use, blocks);
    for lane in lanes {
        mark_all(&mut in_use, &lane.held);
    }
    Some(in_use.iter().filter(|is_in_use| !**is_in_use).count() as u64)
}

/// Releases all blocks of a list.
pub(crate) fn release_all(tree: &BitmapTree, mut blocks: Vec<HeldBlock>)
    requires { All (IsHeldOf tree.now) blocks.items }
{
    while let Some(block) = blocks.pop() {
        tree.release(block);
    }
    blocks.destroy_empty();
}

/// Releases all blocks of all lanes.
pub(crate) fn end_lanes(tree: &BitmapTree, mut lanes: Vec<Lane>)
    requires { All (IsLaneOf tree.now) lanes.items }
{
    while let Some(lane) = lanes.pop() {
        let Lane {
            held,
            plan: _,
            random: _,
            in_use: _,
            refused: _,
            times: _,
            padding: _,
        } = lane;
        release_all(tree, held);
    }
    lanes.destroy_empty();
}

/// Takes the whole machine, and releases it. Returns whether it could.
pub(crate) fn is_whole(tree: &BitmapTree) -> bool
    requires { permits_of tree.now ≡ 0 }
{
    match tree.take(tree.dim(), 0) {
        Ok(whole) => {
            tree.release(whole);
            true
        }
        Err(_) => false,
    }
}
