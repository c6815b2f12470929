//! The hall of the workers: each door has the one connection of one worker.

ghost use Rattle.std.specs.Prelude.{◌≡◌, ◌≤◌, ◌<◌, [], None, Some, true, false, IfOk, option_map, vec_items};

use crate::connection::{BatchSource, ReplySink};
use outside_io::{Door, Failed, Hall, Joined};
use std::alloc::Global;
use std::marker::Model;
use value_types::Memory;

/// How many workers there may be at most.
const MOST_WORKERS: u32 = 64;

/// A door that gives one connection, and never fails. It tells the connection, when that is finished.
#[derive(Drop)]
pub struct WorkerDoor {
    next: Option<BatchSource>,
    is_out: bool,
    has_closed: bool,
    finished: Option<Joined<BatchSource, ReplySink>>,
    alloc: Global,
}

impl Model for WorkerDoor {
    ghost use Rattle.std.specs.Prelude.{◌≡◌, ◌+◌, ◌≤◌, [], length, is_some, IfSome};
    ghost use Rattle.outside_io.specs.Doors.{one_if};
    ghost use Rattle.transfer_load.specs.Hall.{DoorState, connections_of};

    ghost Value = { DoorState };

    ghost view = { λ d. record {
      waits = is_some d.next;
      is_out = d.is_out;
      has_closed = d.has_closed;
      finished = connections_of d.finished;
    } };

    ghost invariant = { λ d. (one_if (is_some d.next) + one_if d.is_out + one_if (is_some d.finished) ≤ 1) × IfSome d.next (λ source. source.given ≡ []) };
}

impl Door for WorkerDoor {
    type Line = Joined<BatchSource, ReplySink>;

    ghost use Rattle.std.specs.Prelude.{length, not};
    ghost use Rattle.transfer_load.specs.Hall.{door_told};

    ghost faults = { λ d. 0 };

    ghost finished = { λ d. length d.finished };

    ghost is_out = { λ d. d.is_out };

    ghost may_close = { λ d. not d.waits };

    ghost has_closed = { λ d. d.has_closed };

    ghost told = { door_told };

    fn accept(&mut self) -> Result<Option<Joined<BatchSource, ReplySink>>, Failed> {
        match self.next.take() {
            Some(source) => {
                self.is_out = true;
                let sink = ReplySink::new(self.alloc);
                Ok(Some(Joined { source, sink }))
            }
            None => {
                self.has_closed = true;
                Ok(None)
            }
        }
    }

    fn finish(&mut self, line: Joined<BatchSource, ReplySink>) {
        self.is_out = false;
        self.finished = Some(line);
    }
}

impl WorkerDoor {
    /// The door of a worker, for so many transfers.
    fn new(alloc: Global, transfers: u32, worker: u32) -> Result<WorkerDoor, Memory>
        requires transfers { transfers ≤ 10000 }
        requires worker { worker < 64 }
        ensures { IfOk result (λ door. door ≡ record { waits = true; is_out = false; has_closed = false; finished = [] }) }
    {
        let next = BatchSource::new(alloc, transfers, worker)?;
        Ok(WorkerDoor {
            next: Some(next),
            is_out: false,
            has_closed: false,
            finished: None,
            alloc,
        })
    }
}

/// The hall of so many transfers for each worker. The doors that it makes are those of the workers, one after another.
#[derive(Drop)]
pub struct WorkerHall {
    alloc: Global,
    transfers: u32,
    made: u32,
    back: u64,
    begun: u64,
    at_port: Option<u16>,
    finished: u64,
    closed: u64,
    tells: bool,
    connections: Vec<Joined<BatchSource, ReplySink>>,
}

impl Model for WorkerHall {
    ghost use Rattle.std.specs.Prelude.{◌≤◌, Some, None, if◌then◌else◌};
    ghost use Rattle.transfer_load.specs.Hall.{HallState};

    ghost Value = { HallState };

    ghost view = { λ h. record { told = if h.tells then Some h.connections.items else None; finished = h.finished; closed = h.closed; made = h.made; back = h.back; begun = h.begun; at_port = h.at_port } };

    ghost invariant = { λ h. h.transfers ≤ 10000 };
}

impl WorkerHall {
    /// A hall that has made no door yet.
    pub(crate) fn new(alloc: Global, transfers: u32) -> WorkerHall
        requires { transfers ≤ 10000 }
        ensures { result ≡ record { told = Some []; finished = 0; closed = 0; made = 0; back = 0; begun = 0; at_port = None } }
    {
        WorkerHall {
            alloc,
            transfers,
            made: 0,
            back: 0,
            begun: 0,
            at_port: None,
            finished: 0,
            closed: 0,
            tells: true,
            connections: Vec::new(alloc),
        }
    }

    /// The connections that came back, if they are all told.
    pub(crate) fn into_connections(self) -> Option<Vec<Joined<BatchSource, ReplySink>>>
        ensures { option_map vec_items result ≡ self.told }
    {
        if self.tells {
            Some(self.connections)
        } else {
            None
        }
    }
}

impl Hall for WorkerHall {
    type Door = WorkerDoor;

    ghost begun = { λ h. h.begun };

    ghost at_port = { λ h. h.at_port };

    ghost faults = { λ h. 0 };

    ghost finished = { λ h. h.finished };

    ghost failed = { λ h. 0 };

    ghost closed = { λ h. h.closed };

    ghost made = { λ h. h.made };

    ghost back = { λ h. h.back };

    ghost told = { λ h. h.told };

    fn begin(&mut self, port: u16) -> Result<(), Failed> {
        self.begun = self.begun.saturating_add(1);
        self.at_port = Some(port);
        Ok(())
    }

    fn door(&mut self) -> Result<WorkerDoor, Memory> {
        if self.made >= MOST_WORKERS {
            return Err(Memory);
        }
        let door = WorkerDoor::new(self.alloc, self.transfers, self.made)?;
        self.made += 1;
        Ok(door)
    }

    fn rejoin(&mut self, door: WorkerDoor) {
        let WorkerDoor {
            has_closed,
            finished,
            ..
        } = door;
        self.closed = self.closed.saturating_add(u64::from(has_closed));
        self.back = self.back.saturating_add(1);
        if let Some(connection) = finished {
            self.finished = self.finished.saturating_add(1);
            if self.connections.push(connection).is_err() {
                self.tells = false;
            }
        }
    }
}
