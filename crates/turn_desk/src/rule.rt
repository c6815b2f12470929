//! The table under the desk: its rule, and what each step at it tells. But for [`Terms`] these types
//! are for the proofs alone.

ghost use Rattle.std.specs.Prelude.{Option, None};
ghost use Rattle.turn_desk.specs.Rule.{Kept};
ghost use Rattle.turn_desk.specs.Moves.{first_view, Tries, Counts, Leaves, cut_left, cut_right, both_kept};
ghost use Rattle.turn_desk.specs.declared.view.View.TheVariants.{SpentSeat};

use crate::machine::Machine;
use crate::machine_box::MachineBox;
use crate::view::View;
use atomic_table::{Join, Play, Seat, Shared, Split, Table, TableRule};
use std::alloc::Global;
use std::marker::{Brand, PhantomData};
use std::snapshot::Snapshot;

/// The view of a seat of the table.
pub type SeatView<M> = View<<M as Machine>::Call, <M as Machine>::Reply, <M as Machine>::Event, M>;

/// A seat of the table.
pub type TableSeat<M> = Seat<Option<MachineBox<M>>, SeatView<M>>;

/// The table as threads share it.
pub type SharedTable<M> = Shared<Option<MachineBox<M>>, SeatView<M>, Terms<M>, Turns<M>>;

/// The table with its memory.
pub type DeskTable<M> = Table<Option<MachineBox<M>>, SeatView<M>, Terms<M>, Turns<M>, Global>;

/// With what a desk opens: the machine, and how many seats it gets.
#[derive(Drop)]
pub struct Terms<M> {
    pub machine: Snapshot<M>,
    pub seats: u32,
}

/// The rule. Word 0 is the number that has the turn, or 0; word 1 counts the steps; the one slot has
/// the machine.
pub struct Turns<M> {
    machine: PhantomData<M>,
}

impl<M: Machine> TableRule<Option<MachineBox<M>>, SeatView<M>, Terms<M>> for Turns<M> {
    ghost holds = { λ terms. Kept M.story M.knows M.within (M.story terms.machine.value) terms.seats };

    ghost first = { λ terms. first_view M.story M.knows M.within terms.machine.value };
}

/// A try to take the turn.
pub struct Try<M> {
    machine: PhantomData<M>,
}

impl<M: Machine> Play<Option<MachineBox<M>>, SeatView<M>> for Try<M> {
    ghost then = { Tries M.story M.knows M.within };
}

/// What was done with the machine while it was out of its slot: the call, the reply and the content
/// since. A step of the table is given by a type, and a type can't name values: each call of
/// `count` says them by this member.
pub trait News<C, R, M> {
    ghost news: { Option ((C × R) × M) };
}

impl<C, R, M> News<C, R, M> for Brand {
    ghost news = { None };
}

/// The count raised by one step.
pub struct Count<M, N> {
    machine: PhantomData<(M, N)>,
}

impl<M: Machine, N: News<M::Call, M::Reply, M>> Play<Option<MachineBox<M>>, SeatView<M>>
    for Count<M, N> {
    ghost then = { Counts M.story M.knows M.within N.news };
}

/// The turn given back.
pub struct Leave<M> {
    machine: PhantomData<M>,
}

impl<M: Machine> Play<Option<MachineBox<M>>, SeatView<M>> for Leave<M> {
    ghost then = { Leaves M.story M.knows M.within };
}

/// A number made at the start, and what two seats did put together at the close.
pub struct Numbers<M> {
    machine: PhantomData<M>,
}

impl<M: Machine> Split<SeatView<M>> for Numbers<M> {
    ghost left = { cut_left M.story M.knows M.within };

    ghost right = { cut_right M.story M.knows M.within };
}

impl<M: Machine> Join<SeatView<M>> for Numbers<M> {
    ghost both = { both_kept M.story M.knows M.within };

    ghost spent = { SpentSeat };
}
