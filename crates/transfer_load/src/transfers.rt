//! The transfers: all workers at once, and the replies to them.

ghost use Rattle.std.specs.Prelude.{◌≡◌, ◌+◌, ◌*◌, ◌≤◌, ◌<◌, List, length, IfOk};
ghost use Rattle.tds_tokens.specs.declared.token.Token.{Token};
ghost use Rattle.seat_server.specs.House.{IsFull};
ghost use Rattle.tds_login.specs.declared.config.Entry.TheVariants.{Bare};
ghost use Rattle.transfer_load.specs.Connections.{AreDone, IsDone, all_replies};
ghost use Rattle.transfer_load.specs.Load.{OnlyServes, Transferred};
ghost use Rattle.transfer_load.specs.Replies.{refused_in, transfers_in};

use crate::connection::{BatchSource, ReplySink};
use crate::hall::WorkerHall;
use crate::replies::{Counts, count_replies};
use outside_io::Joined;
use seat_server::House;
use std::alloc::Global;
use std::sync::Wait;
use std::thread::Threads;
use tds_login::Config;
use value_types::Memory;

/// So many workers make so many transfers each, at once, each by a seat of its own. The replies are counted.
pub(crate) fn transfer<R: Threads + Wait + Sync>(
    alloc: Global,
    rt: &R,
    house: &mut House,
    config: &Config,
    workers: u32,
    transfers: u32,
) -> Result<Counts, Memory>
    requires bare { config.now.entry ≡ Bare }
    requires full { IsFull 64 house.old }
    requires workers { (1 ≤ workers) × (workers ≤ 64) }
    requires transfers { transfers ≤ 10000 }
    ensures full { IsFull 64 house.new }
    ensures only { OnlyServes workers house.old house.new }
    ensures transferred { IfOk result (λ counts. (each : List (List (List Token))) × Transferred config.now workers transfers house.old.seats house.new.seats each
        × (counts.transfers ≡ transfers_in (all_replies each)) × (counts.refused ≡ refused_in (all_replies each))
        × (counts.transfers + counts.refused ≡ workers * transfers)) }
{
    let mut hall = WorkerHall::new(alloc, transfers);
    let tally = house.serve_hall(alloc, rt, workers, config, &mut hall, Some(workers));
    if tally.starved > 0 {
        return Err(Memory);
    }
    match hall.into_connections() {
        Some(connections) if connections.len() == workers as usize => {
            let counts = count_all(alloc, &connections, transfers)?;
            Ok(counts)
        }
        _ => Err(Memory),
    }
}

/// Counts the replies of all workers' connections.
fn count_all(
    alloc: Global,
    connections: &[Joined<BatchSource, ReplySink>],
    transfers: u32,
) -> Result<Counts, Memory>
    requires workers { length connections.now ≤ 64 }
    requires transfers { transfers ≤ 10000 }
    ensures { IfOk result (λ counts. (each : List (List (List Token))) × AreDone transfers 0 connections.now each
        × (counts.transfers ≡ transfers_in (all_replies each)) × (counts.refused ≡ refused_in (all_replies each))
        × (counts.transfers + counts.refused ≡ length connections.now * transfers)) }
{
    let mut all = Counts {
        transfers: 0,
        refused: 0,
    };
    let mut worker = 0;
    for connection in connections {
        let counts = count_one(alloc, connection, transfers, worker)?;
        all.transfers += counts.transfers;
        all.refused += counts.refused;
        worker += 1;
    }
    Ok(all)
}

/// Counts the replies of a worker's connection, if it is that, and all its batches were taken.
fn count_one(
    alloc: Global,
    connection: &Joined<BatchSource, ReplySink>,
    transfers: u32,
    worker: u32,
) -> Result<Counts, Memory>
    ensures { IfOk result (λ counts. (replies : List (List Token)) × IsDone transfers worker connection.now replies
        × (counts.transfers ≡ transfers_in replies) × (counts.refused ≡ refused_in replies) × (counts.transfers + counts.refused ≡ transfers)) }
{
    if !connection.source.has_given_all(transfers, worker) {
        return Err(Memory);
    }
    let written = Vec::from_slice(alloc, connection.sink.as_slice())?;
    count_replies(alloc, written, transfers)
}
