//! The desk.

ghost use Rattle.std.specs.Prelude.{◌≡◌, ◌≢◌, ℕ, ◌<◌, ◌≤◌, [], IfOk, length, map};
ghost use Rattle.std.specs.List.{All};
ghost use Rattle.turn_desk.specs.declared.view.View.TheVariants.{NumberMaker};
ghost use Rattle.turn_desk.specs.Seats.{DeskState, AreSeatsOf};
ghost use Rattle.turn_desk.specs.Acts.{Agrees, Acts};
ghost use Rattle.turn_desk.specs.Views.{pasts, count_of, past_of_seat, IsIdle};
ghost use Rattle.turn_desk.specs.Rule.{KeptAtEnd};
ghost use Rattle.turn_desk.specs.Moves.{IsDeskTable};

use crate::machine::Machine;
use crate::machine_box::MachineBox;
use crate::rule::{DeskTable, Numbers, SharedTable, TableSeat, Terms};
use crate::seat::Seat;
use crate::turns::{MACHINE, play, take, wake_next};
use atomic_table::{Refused, Table};
use std::alloc::{AllocError, Global};
use std::marker::Model;
use std::snapshot::Snapshot;
use std::sync::Wait;
use std::sync::atomic::AtomicU64;
use value_types::Memory;

/// A desk with its machine. In a clause it is which desk it is, how many seats it has, and the story
/// that it opened with.
#[derive(Drop)]
pub struct Desk<M: Machine> {
    table: DeskTable<M>,
    seats: u32,
    // How many threads may sleep until the turn is free. Nothing is claimed of it.
    sleepers: AtomicU64,
}

impl<M: Machine> Model for Desk<M> {
    ghost Value = { DeskState M.Event };

    ghost view = { λ d. record { desk = d.table.shared.table_id; seats = d.seats; base = M.story d.table.shared.key.machine.value } };

    ghost invariant = { λ d. IsDeskTable d.table.shared.table_id × (d.seats ≡ d.table.shared.key.seats) × (1 ≤ d.seats) × (d.seats ≤ 64) };
}

impl<M: Machine> Desk<M> {
    /// A desk for a machine in an opening content, with its seats, which are numbered from 1.
    pub fn start(alloc: Global, machine: M, seats: u32) -> Result<(Desk<M>, Vec<Seat<M>>), Memory>
        requires seats { (1 ≤ seats) × (seats ≤ 64) }
        requires opening { M.opening machine }
        ensures desk { IfOk result (λ r. (r.0.seats ≡ seats) × (r.0.base ≡ M.story machine)) }
        ensures seats { IfOk result (λ r. AreSeatsOf r.0.desk seats (M.story machine) r.1.items) }
    {
        let terms = Terms {
            machine: Snapshot::of(&machine),
            seats,
        };
        let mut slots = Vec::new(alloc);
        slots.push(Some(MachineBox::new(alloc, machine)?))?;
        let (table, maker): (DeskTable<M>, TableSeat<M>) = match Table::new(
            alloc,
            &[0, 0],
            slots,
            &terms,
        ) {
            Ok(made) => made,
            Err(Refused { slots: _ }) => return Err(Memory),
        };
        let made = make_seats(alloc, &table.shared, maker, seats)?;
        Ok((
            Desk {
                table,
                seats,
                sleepers: AtomicU64::new(0),
            },
            made,
        ))
    }

    /// How many seats it has.
    pub fn seats(&self) -> u32
        ensures seats { result ≡ self.now.seats }
        ensures range { (1 ≤ result) × (result ≤ 64) }
    {
        self.seats
    }

    /// Waits for the turn, and makes one step of the machine by the seat's number.
    pub fn act<R: Wait>(&self, rt: &R, seat: &mut Seat<M>, call: &M::Call) -> M::Reply
        requires desk { seat.old.desk ≡ self.now.desk }
        requires ready { M.ready seat.old.number seat.old.steps call.now }
        ensures acts { Acts M.story M.moved M.knows M.within seat.old call.now result seat.new }
    {
        let number = seat.number;
        take(
            rt,
            &self.table.shared,
            &self.sleepers,
            &mut seat.token,
            number,
        );
        let reply = play(&self.table.shared, &mut seat.token, number, call);
        wake_next(&self.table.shared, &self.sleepers);
        reply
    }

    /// Ends the desk: it takes all its seats, and gives the machine back.
    pub fn close(self, seats: Vec<Seat<M>>) -> M
        requires all { length seats.items ≡ self.seats }
        requires desk { All (λ s. s.desk ≡ self.desk) seats.items }
        ensures seats { All (Agrees M.story M.knows result) seats.items }
        ensures others { (n : ℕ) → All (λ s. s.number ≢ n) seats.items → M.knows result n [] }
    {
        let Desk {
            table,
            seats: _,
            sleepers: _,
        } = self;
        let token = join_seats(&table.shared, seats);
        take_machine(table, token)
    }
}

/// Makes the seats, numbered from 1. The seat that made the numbers is let go.
fn make_seats<M: Machine>(
    alloc: Global,
    table: &SharedTable<M>,
    mut maker: TableSeat<M>,
    seats: u32,
) -> Result<Vec<Seat<M>>, AllocError>
    requires table { (maker.table_id ≡ table.now.table_id) × IsDeskTable table.now.table_id }
    requires seats { (seats ≡ table.now.key.seats) × (seats ≤ 64) }
    requires maker { maker.me ≡ (NumberMaker 0 (M.story table.now.key.machine.value), []) }
    requires opening { M.opening table.now.key.machine.value }
    ensures { IfOk result (λ made. AreSeatsOf table.now.table_id seats (M.story table.now.key.machine.value) made.items) }
{
    let mut made = Vec::with_capacity(alloc, seats as usize)?;
    for i in 0..seats {
        let token = table.split_seat::<Numbers<M>>(&mut maker);
        made.push(Seat {
            token,
            number: i + 1,
        })?;
    }
    Ok(made)
}

/// Puts together what all seats did, in one seat of the table.
fn join_seats<M: Machine>(table: &SharedTable<M>, mut seats: Vec<Seat<M>>) -> TableSeat<M>
    requires table { IsDeskTable table.now.table_id }
    requires some { 0 < length seats.items }
    requires desk { All (λ s. s.desk ≡ table.now.table_id) seats.items }
    ensures table { (result.table_id ≡ table.now.table_id) × (result.me.1 ≡ []) × IsIdle result.me.0 }
    ensures pasts { pasts result.me.0 ≡ map past_of_seat seats.items }
{
    let Some(last) = seats.pop() else {
        unreachable!()
    };
    let mut token = last.into_token();
    while let Some(seat) = seats.pop() {
        table.join_seat::<Numbers<M>>(&mut token, seat.into_token());
    }
    token
}

/// Ends the table, and takes the machine out of its slot.
fn take_machine<M: Machine>(table: DeskTable<M>, token: TableSeat<M>) -> M
    requires table { (token.table_id ≡ table.shared.table_id) × IsDeskTable table.shared.table_id }
    requires all { IsIdle token.me.0 × (count_of token.me.0 ≡ table.shared.key.seats) }
    ensures { KeptAtEnd M.story M.knows M.within result table.shared.key.seats token.me.0 }
{
    let mut closed = table.close_with(token);
    let machine = closed.take(MACHINE);
    closed.free();
    let Some(machine) = machine else {
        unreachable!()
    };
    machine.into_machine()
}
