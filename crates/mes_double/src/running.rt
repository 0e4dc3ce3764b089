//! Running a list of moves.
ghost use Rattle.std.specs.Prelude.{◌≡◌, IfOk, OnErr};
ghost use Rattle.mes_double.specs.Courses.{Course, IsCourse};
ghost use Rattle.mes_double.specs.Memory.{WantsMemory};
ghost use Rattle.mes_double.specs.Promises.{KeepsPromises};

use crate::moves::Move;
use crate::world::World;
use mes_json::NoMemory;
use mes_model::Id;
use std::alloc::Global;
use uuid::Uuid;

/// Makes the moves in order between a new session and a new master, and returns the final world.
/// The streams get the ids in order.
///
/// The course of the moves keeps the promises of `world_laws`, whatever is lost, delayed or
/// repeated. Each move has the effect that the contracts of `Session` and `Master` state.
///
/// Errors: `NoMemory` if an allocation fails. An allocation is only needed for a move that would be
/// made, for an update on a stream, or for a SUBSCRIBE (`MayWant`). A move that fails in this way
/// is not counted as skipped.
pub fn run_world(
    alloc: Global,
    framework: Id,
    ids: Vec<Uuid>,
    moves: &[Move],
) -> Result<World, NoMemory>
    // On success: the result is the final world of the moves, and the course of the moves keeps all
    // promises of `world_laws`.
    ensures ok { IfOk result (λ world. (c : Course) × IsCourse framework ids.items moves.now c
        × KeepsPromises c × (c.world ≡ world)) }
    ensures memory { OnErr result (WantsMemory framework ids.items moves.now) }
{
    let mut world = World::new(alloc, framework, ids);
    for next in moves {
        world.make(next)?;
    }
    Ok(world)
}
