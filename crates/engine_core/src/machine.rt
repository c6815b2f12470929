//! The engine as a machine that sessions on threads step at a desk.

ghost use Rattle.std.specs.Prelude.{◌≡◌, None, IfSome};
ghost use Rattle.step_model.specs.Exchange.{MayLackMemory};
ghost use Rattle.step_model.specs.Runs.{MayStep};
ghost use Rattle.step_model.specs.Step.{Step};

use crate::commit::Commit;
use crate::engine::Engine;
use crate::parts::Parts;
use std::alloc::Global;
use std::marker::Model;
use std::snapshot::Snapshot;
use step_model::{Manner, Op, Reply};
use turn_desk::Machine;

/// An operation, in the manner in which it is asked. A port lends the operation and a call owns what it asks, so it
/// has a copy, unless there was no memory for one: then the engine answers as where memory is wanting.
#[derive(Drop)]
pub struct Ask {
    copy: Option<Op>,
    asked: Snapshot<Op>,
    manner: Manner,
}

impl Model for Ask {
    ghost use Rattle.std.specs.Prelude.{◌≡◌, None, IfSome};
    ghost use Rattle.step_model.specs.Exchange.{MayLackMemory};
    ghost use Rattle.engine_core.specs.Machine.{Ask as Asking};

    ghost Value = { Asking };

    ghost view = { λ ask. record { op = ask.asked.value; manner = ask.manner } };

    ghost invariant = { λ ask. IfSome ask.copy (λ copy. copy ≡ ask.asked.value) × (ask.copy ≡ None → MayLackMemory ask.asked.value) };
}

impl Ask {
    /// Asks an operation in a manner.
    pub fn new(alloc: Global, op: &Op, manner: Manner) -> Ask
        ensures { result ≡ record { op = op.now; manner = manner } }
    {
        Ask {
            copy: copy(alloc, op),
            asked: Snapshot::of(op),
            manner,
        }
    }
}

/// A copy of an operation, where there is memory for it. The ends and the ways back need none.
fn copy(alloc: Global, op: &Op) -> Option<Op>
    ensures same { IfSome result (λ copy. copy ≡ op.now) }
    ensures free { result ≡ None → MayLackMemory op.now }
{
    match op {
        Op::BackTo { mark } => Some(Op::BackTo { mark: *mark }),
        Op::Relax => Some(Op::Relax),
        Op::Commit => Some(Op::Commit),
        Op::Rollback => Some(Op::Rollback),
        _ => op.copy(alloc).ok(),
    }
}

impl Machine for Engine {
    ghost use Rattle.std.specs.Prelude.{◌≡◌, []};
    ghost use Rattle.step_model.specs.Runs.{opening};
    ghost use Rattle.step_model.specs.Step.{Step};
    ghost use Rattle.history_laws.specs.Knows.{Ready};
    ghost use Rattle.engine_core.specs.Machine.{exchanges_of, FitsSteps, KnowsSteps};
    ghost use Rattle.engine_core.specs.MachineLaws.{story_grows, own_steps, other_steps, no_steps};

    type Call = Ask;

    type Reply = Reply;

    type Event = Commit;

    ghost story = { λ engine. engine.log };

    ghost moved = { λ old number call reply new. Step old number call.op call.manner reply new };

    ghost ready = { λ number steps call. Ready number (exchanges_of steps) call.op call.manner };

    ghost knows = { λ engine number steps. KnowsSteps engine number steps };

    ghost within = { λ log number steps. FitsSteps log number steps };

    ghost opening = { λ engine. engine ≡ opening };

    fn step(&mut self, number: u32, call: &Ask) -> Reply {
        match &call.copy {
            Some(op) => self.attempt(number, op, call.manner),
            None => self.starve(number, &call.asked, call.manner),
        }
    }

    ghost story_grows = { λ old new number call reply moved. story_grows old new number call reply moved };

    ghost own_steps = { λ old new number steps call reply known ready moved. own_steps old new number steps call reply known ready moved };

    ghost other_steps = { λ old new number steps call reply other others known ready moved differ these. other_steps old new number steps call reply other others known ready moved differ these };

    ghost no_steps = { λ engine number is. no_steps engine number is };

    ghost steps_within = { λ engine number steps known. (known.0.accords.fits, known.1) };
}

impl Engine {
    /// One step, of an operation for which memory is wanting.
    fn starve(&mut self, session: u32, op: &Snapshot<Op>, manner: Manner) -> Reply
        requires may { MayStep self.old session op.now.value manner }
        requires free { MayLackMemory op.now.value }
        ensures { Step self.old session op.now.value manner result self.new }
    {
        self.parts.starve(session, op, manner)
    }
}

impl Parts {
    // Such a step. A session that fell is told so first.
    fn starve(&mut self, session: u32, op: &Snapshot<Op>, manner: Manner) -> Reply
        requires free { MayLackMemory op.now.value }
        ensures { Step self.old session op.now.value manner result self.new }
    {
        self.end_wait(session);
        match self.take_victim(session) {
            Some(cycle) => Reply::Victim { cycle },
            None => Reply::Memory,
        }
    }
}
