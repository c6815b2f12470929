//! The load.

ghost use Rattle.std.specs.Prelude.{◌≡◌, ◌≤◌, ◌<◌, ◌++◌, ℕ, false, List, IfOk, OnErr, length, string_bytes};
ghost use Rattle.seat_server.specs.House.{IsFull, ServesFirst};
ghost use Rattle.tds_login.specs.declared.config.Entry.TheVariants.{Bare};
ghost use Rattle.transfer_load.specs.Load.{Loaded, OnlyServes, ServesBytes};

use crate::batches::{closing_bytes, opening_bytes};
use crate::replies::read_number;
use crate::summary::summary_text;
use crate::transfers::transfer;
use outside_io::{Joined, MemorySink, MemorySource};
use seat_server::House;
use session_server::End;
use std::alloc::Global;
use std::sync::Wait;
use std::thread::Threads;
use tds_login::{Config, Entry};
use value_types::{Memory, Units};

/// Makes a hundred accounts, lets so many workers make so many transfers each between them, adds up, and appends the summary to
/// `out`: how many transfers were made, how many were refused, and the total.
///
/// The first seat serves the accounts' making and the adding up; each worker's batches are a connection of one of the first seats. Where
/// memory is wanting nothing is appended, and the house keeps the steps that were made.
pub fn load<R: Threads + Wait + Sync>(
    alloc: Global,
    rt: &R,
    house: &mut House,
    workers: u32,
    transfers: u32,
    out: &mut Vec<u8>,
) -> Result<(), Memory>
    requires full { IsFull 64 house.old }
    requires workers { (1 ≤ workers) × (workers ≤ 64) }
    requires transfers { (1 ≤ transfers) × (transfers ≤ 10000) }

    // What was served, and what is printed of it.
    ensures loaded { IfOk result (λ _. (printed : List ℕ) × (out.new.items ≡ out.old.items ++ printed)
        × Loaded workers transfers house.old.seats house.new.seats printed) }
    ensures unchanged { OnErr result (out.new.items ≡ out.old.items) }

    // The house is full again, and has the steps that were made, also where memory was wanting.
    ensures full { IsFull 64 house.new }
    ensures only { OnlyServes workers house.old house.new }
{
    let summary = run(alloc, rt, house, workers, transfers)?;
    out.extend_from_slice(summary.as_bytes())?;
    Ok(())
}

/// The load, and the text of its summary.
fn run<R: Threads + Wait + Sync>(
    alloc: Global,
    rt: &R,
    house: &mut House,
    workers: u32,
    transfers: u32,
) -> Result<String, Memory>
    requires full { IsFull 64 house.old }
    requires workers { (1 ≤ workers) × (workers ≤ 64) }
    requires transfers { transfers ≤ 10000 }
    ensures loaded { IfOk result (λ text. Loaded workers transfers house.old.seats house.new.seats (string_bytes text)) }
    ensures full { IsFull 64 house.new }
    ensures only { OnlyServes workers house.old house.new }
{
    let config = bare_config(alloc);
    serve_bytes(alloc, rt, house, &config, opening_bytes(alloc)?)?;
    let counts = transfer(alloc, rt, house, &config, workers, transfers)?;
    let written = serve_bytes(alloc, rt, house, &config, closing_bytes(alloc)?)?;
    let total = read_number(alloc, written)?;
    let text = summary_text(alloc, counts, total)?;
    Ok(text)
}

/// The configuration of clients that are logged in from the beginning.
fn bare_config(alloc: Global) -> Config
    ensures bare { result.entry ≡ Bare }
    ensures plain { result.drivers ≡ false }
{
    Config {
        user: Units::new(alloc),
        password: Units::new(alloc),
        entry: Entry::Bare,
        drivers: false,
    }
}

/// The first seat serves a connection of these bytes. What was written to it, if it was closed at its end.
fn serve_bytes<R: Wait>(
    alloc: Global,
    rt: &R,
    house: &mut House,
    config: &Config,
    bytes: Vec<u8>,
) -> Result<Vec<u8>, Memory>
    requires full { IsFull 64 house.old }
    ensures served { IfOk result (λ written. ServesFirst (ServesBytes config.now bytes.items written.items) house.old.seats house.new.seats) }
    ensures full { IsFull 64 house.new }
    ensures only { OnlyServes 1 house.old house.new }
{
    let mut line = Joined {
        source: MemorySource::new(bytes, u32::MAX, Vec::new(alloc)),
        sink: MemorySink::new(alloc, u32::MAX, Vec::new(alloc)),
    };
    match house.serve_first(alloc, rt, config, &mut line) {
        End::Closed => Ok(line.sink.into_bytes()),
        _ => Err(Memory),
    }
}
