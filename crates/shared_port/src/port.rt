//! The port.

ghost use Rattle.std.specs.Prelude.{◌≡◌, [], ◌∷◌, Option, None, is_some};
ghost use Rattle.step_model.specs.Exchange.{MayAsk, CanReply};
ghost use Rattle.step_model.specs.Fits.{is_wait};
ghost use Rattle.step_model.specs.Port.{GoesOn, AnswersSure};
ghost use Rattle.history_laws.specs.Knows.{Ready};
ghost use Rattle.history_laws.specs.Sure.{Sure};
ghost use Rattle.engine_core.specs.Machine.{exchanges_of, mine_in};
ghost use Rattle.shared_port.specs.Asked.{EngineSeat, IsAsked};
ghost use Rattle.shared_port.specs.SharedPort.{IsAtRest, Since, FitsSince, seat_standing, shared_past};

use crate::bell::Bell;
use engine_core::{Ask, Engine};
use std::alloc::Global;
use std::marker::{Brand, Model, PhantomData};
use std::sync::Wait;
use step_model::{Manner, Op, Port, Reply};
use turn_desk::{Desk, Seat, law_within};

/// The seat with which a port began, so that its past is told since then. It has no code: the proof of a call that
/// passes `Brand` for such a type says which seat it is.
pub trait Entrance {
    ghost entry: { Option EngineSeat };
}

impl Entrance for Brand {
    ghost entry = { None };
}

/// A port over a desk, for the session of its seat's number. In a clause it is its seat.
pub struct SharedPort<'a, R, E> {
    alloc: Global,
    rt: &'a R,
    desk: &'a Desk<Engine>,
    bell: &'a Bell,
    seat: Seat<Engine>,
    entrance: PhantomData<E>,
}

impl<'a, R, E> Model for SharedPort<'a, R, E> {
    ghost use Rattle.std.specs.Prelude.{◌≡◌};
    ghost use Rattle.shared_port.specs.Asked.{EngineSeat};
    ghost use Rattle.shared_port.specs.SharedPort.{IsAtRest};

    ghost Value = { EngineSeat };

    ghost view = { λ port. port.seat };

    ghost invariant = { λ port. (port.seat.desk ≡ port.desk.now.desk) × IsAtRest port.seat };
}

impl<'a, R, E> SharedPort<'a, R, E> {
    /// A port for a seat of this desk that waits for nobody.
    pub fn new(
        alloc: Global,
        rt: &'a R,
        desk: &'a Desk<Engine>,
        bell: &'a Bell,
        seat: Seat<Engine>,
    ) -> SharedPort<'a, R, E>
        requires desk { seat.desk ≡ desk.now.desk }
        requires rests { IsAtRest seat }
        ensures seat { result ≡ seat }
        ensures entry { Since result result [] }
    {
        law_entry(&seat);
        SharedPort {
            alloc,
            rt,
            desk,
            bell,
            seat,
            entrance: PhantomData,
        }
    }

    /// Gives the seat back. What it has done since an entry with no transaction open fits what the log has grown by.
    pub fn into_seat(self) -> Seat<Engine>
        ensures seat { result ≡ self.entry }
        ensures fits { (entry : EngineSeat) → FitsSince entry result }
    {
        let SharedPort {
            alloc: _,
            rt: _,
            desk: _,
            bell: _,
            seat,
            entrance: _,
        } = self;
        law_since(&seat);
        seat
    }
}

impl<'a, R: Wait, E: Entrance> Port for SharedPort<'a, R, E> {
    ghost use Rattle.shared_port.specs.SharedPort.{shared_past};

    ghost past = { shared_past E.entry };

    // Beside what the trait promises, its seat has made steps of this operation in this manner alone: any number
    // that were told to wait, and one that was not.
    fn ask(&mut self, op: &Op, manner: Manner) -> Reply
        requires allowed { MayAsk (seat_standing self.old) op.now manner }
        ensures past { GoesOn (shared_past E.entry self.old) (shared_past E.entry self.new) (record { op = op.now; manner = manner; reply = result } ∷ []) }
        ensures reply { CanReply op.now result }
        ensures sure { AnswersSure (Sure (mine_in self.old.steps)) op.now result }
        ensures asked { IsAsked self.old (record { op = op.now; manner = manner }) result self.new }
    {
        // A seat's number is a session's.
        let _ = self.seat.number();
        let call = Ask::new(self.alloc, op, manner);
        ask_until(
            self.rt,
            self.desk,
            self.bell,
            &mut self.seat,
            &call,
            frees_locks(op),
        )
    }
}

/// Asks until it isn't told to wait. In between it sleeps until the bell has rung.
///
/// It rings where a sleeper may find things changed. Only the operations of `frees_locks` end locks: a way back ends
/// none. Others fall only by a step that begins a wait, or falls by it, and who fell has to wake to hear it: so it
/// rings at a first wait, and at one for another holder; at one as before it doesn't, or sleepers woke each other.
fn ask_until<R: Wait>(
    rt: &R,
    desk: &Desk<Engine>,
    bell: &Bell,
    seat: &mut Seat<Engine>,
    call: &Ask,
    frees: bool,
) -> Reply
    requires desk { seat.old.desk ≡ desk.now.desk }
    requires ready { Ready seat.old.number (exchanges_of seat.old.steps) call.now.op call.now.manner }
    ensures { IsAsked seat.old call.now result seat.new }
{
    let mut last = None;
    for _ in rt.forever() {
        let seen = bell.rings();
        let reply = desk.act(rt, seat, call);
        let holder = holder_of(&reply);
        if holder.is_none() {
            if frees || is_victim(&reply) {
                bell.ring(rt);
            }
            return reply;
        }
        if holder == last {
            bell.wait_past(rt, seen);
        } else {
            last = holder;
            bell.ring(rt);
        }
    }
    unreachable!()
}

/// The lowest session in whose way a session is told to wait.
fn holder_of(reply: &Reply) -> Option<u32>
    ensures { is_some result ≡ is_wait reply.now }
{
    match reply {
        Reply::Wait { holder } => Some(*holder),
        _ => None,
    }
}

/// Whether a session fell: then others may have fallen with it.
fn is_victim(reply: &Reply) -> bool {
    matches!(reply, Reply::Victim { .. })
}

/// Whether an operation may end locks.
fn frees_locks(op: &Op) -> bool {
    matches!(op, Op::Relax | Op::Commit | Op::Rollback)
}

/// A seat has done nothing since itself.
fn law_entry(seat: &Seat<Engine>)
    ensures { Since seat.now seat.now [] }
{
    law_within(seat);
}

/// From an entry with no transaction open, what a seat has done since fits what the log has grown by.
fn law_since(seat: &Seat<Engine>)
    ensures { (entry : EngineSeat) → FitsSince entry seat.now }
{
    law_within(seat);
}
