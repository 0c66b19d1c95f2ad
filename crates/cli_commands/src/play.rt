// Playing the lines of a schedule.
ghost use Rattle.std.specs.Prelude.{◌≡◌, ◌<◌, ◌≤◌, ◌+◌, ◌^◌, [], ◌∷◌, length, replicate, IfOk};
ghost use Rattle.cube_core.specs.declared.act.Act.TheVariants as act;
ghost use Rattle.cube_core.specs.World.{HasShapeOf};
ghost use Rattle.cli_commands.specs.Trace.{IsTrace};
ghost use Rattle.cli_commands.specs.Inner.Replay.{rows_in};
ghost use Rattle.cli_commands.specs.Replay.{ActStep, IsPlayed, RestsAfter, final_rows};

use cube_core::World;
use cube_shape::MAX_DIM;
use jobs_csv::{Line, ReplayRow};
use std::alloc::{AllocError, Global};

// Returns a list of the row, if there is one.
fn to_list(alloc: Global, row: Option<ReplayRow>) -> Result<Vec<ReplayRow>, AllocError>
    ensures { IfOk result (λ rows. rows.items ≡ rows_in row) }
{
    let mut rows = Vec::new(alloc);
    if let Some(row) = row {
        rows.push(row)?;
    }
    Ok(rows)
}

// Begins the take of a node's block by a station. Returns a row if the call is refused.
#[tactic(auto, using(crate::proofs::ReplayLemmas::is_accepted, crate::proofs::ReplayLemmas::is_refused))]
fn take(world: &mut World, station: u64, node: u64) -> Option<ReplayRow>
    ensures acts { ActStep (act.Take station node) world.old world.new (rows_in result) }
    ensures shape { HasShapeOf world.old world.new }
{
    let Err(why) = world.begin_take(station, node) else {
        return None;
    };
    let node = Some(node);
    Some(ReplayRow::Refused { station, node, why })
}

// Begins the release of a station's block. Returns a row if the call is refused.
#[tactic(auto, using(crate::proofs::ReplayLemmas::is_accepted, crate::proofs::ReplayLemmas::is_refused))]
fn release(world: &mut World, station: u64) -> Option<ReplayRow>
    ensures acts { ActStep (act.Release station) world.old world.new (rows_in result) }
    ensures shape { HasShapeOf world.old world.new }
{
    let Err(why) = world.begin_release(station) else {
        return None;
    };
    let node = None;
    Some(ReplayRow::Refused { station, node, why })
}

// Makes a step of a station, and returns its row.
#[tactic(auto, using(crate::proofs::ReplayLemmas::is_accepted, crate::proofs::ReplayLemmas::is_refused))]
fn step(world: &mut World, station: u64) -> ReplayRow
    ensures acts { ActStep (act.Step station) world.old world.new (result ∷ []) }
    ensures shape { HasShapeOf world.old world.new }
{
    let node = None;
    match world.step(station) {
        Ok(event) => return ReplayRow::Made { event },
        Err(why) => return ReplayRow::Refused { station, node, why },
    }
}

// Retires a station, and returns its row.
#[tactic(auto, using(crate::proofs::ReplayLemmas::is_accepted, crate::proofs::ReplayLemmas::is_refused))]
fn retire(world: &mut World, station: u64) -> ReplayRow
    ensures acts { ActStep (act.Retire station) world.old world.new (result ∷ []) }
    ensures shape { HasShapeOf world.old world.new }
{
    let node = None;
    match world.retire(station) {
        Ok(event) => return ReplayRow::Made { event },
        Err(why) => return ReplayRow::Refused { station, node, why },
    }
}

// Makes `times` steps of a station, and returns their rows.
fn steps(
    alloc: Global,
    world: &mut World,
    station: u64,
    times: u64,
) -> Result<Vec<ReplayRow>, AllocError>
    ensures acts { IfOk result (λ rows.
        IsTrace ActStep (replicate times (act.Step station)) world.old world.new rows.items) }
    ensures shape { HasShapeOf world.old world.new }
{
    let mut rows = Vec::new(alloc);
    for _made in 0..times {
        rows.push(step(world, station))?;
    }
    Ok(rows)
}

// Makes steps of a station until it is at rest, and returns their rows.
fn run(alloc: Global, world: &mut World, station: u64) -> Result<Vec<ReplayRow>, AllocError>
    requires { station < length world.old.records }
    ensures rests { IfOk result (λ rows. RestsAfter station world.old world.new rows.items) }
    ensures shape { HasShapeOf world.old world.new }
{
    let mut rows = Vec::new(alloc);
    loop {
        let Ok(event) = world.step(station) else {
            return Ok(rows);
        };
        rows.push(ReplayRow::Made { event })?;
    }
}

/// Plays a line of a schedule in a world of `stations` stations, and returns its rows.
///
/// If memory runs out, the world has changed and the rows are lost.
pub(crate) fn play(
    alloc: Global,
    stations: u32,
    world: &mut World,
    line: Line,
) -> Result<Vec<ReplayRow>, AllocError>
    requires { length world.old.records ≡ stations }
    ensures played { IfOk result (λ rows. IsPlayed line world.old world.new rows.items) }
    ensures shape { HasShapeOf world.old world.new }
{
    match line {
        Line::Take { station, node } => return to_list(alloc, take(world, station, node)),
        Line::Release { station } => return to_list(alloc, release(world, station)),
        Line::Step { station, times } => return steps(alloc, world, station, times),
        Line::Run { station } => {
            if station < u64::from(stations) {
                return run(alloc, world, station);
            }
            return to_list(alloc, Some(step(world, station)));
        }
        Line::Retire { station } => return to_list(alloc, Some(retire(world, station))),
    }
}

// Returns the number after that of the last node.
fn node_limit(n: u32) -> u64
    requires { n ≤ MAX_DIM }
    ensures { result ≡ 2 ^ (n + 1) }
{
    1 << (n + 1)
}

/// Returns the rows of the end, for a world of dimension `n`.
pub(crate) fn final_rows(alloc: Global, n: u32, world: &World) -> Result<Vec<ReplayRow>, AllocError>
    requires limit { n ≤ MAX_DIM }
    requires dim { world.now.dim ≡ n }
    ensures { IfOk result (λ rows. rows.items ≡ final_rows world.now) }
{
    let mut rows = Vec::new(alloc);
    for node in 1..node_limit(n) {
        let word = world.word(node);
        if word != 0 {
            rows.push(ReplayRow::Word { node, word })?;
        }
    }
    let count = rows.len() as u64;
    rows.push(ReplayRow::End { count })?;
    Ok(rows)
}
