//! What answers the steps of a script.

ghost use Rattle.std.specs.Prelude.{◌≡◌, ◌==◌};
ghost use Rattle.std.specs.List.{list_any};
ghost use Rattle.step_model.specs.State.{Engine as State, is_open};
ghost use Rattle.step_model.specs.Step.{Step};
ghost use Rattle.step_model.specs.Runs.{MayStep, standing_of};

use engine_core::Engine;
use step_model::{Manner, Op, Reply};

/// An engine of many sessions.
pub trait ScriptEngine {
    // Its state.
    ghost state: { Self → State };

    /// Whether a session has a transaction open.
    fn in_transaction(&self, session: u32) -> bool
        ensures { result ≡ is_open session (state self.now) };

    /// Whether a mark is a live one of the session's transaction.
    fn is_mark(&self, session: u32, mark: u64) -> bool
        ensures { result ≡ list_any (λ live. live == mark) (standing_of session (state self.now)).marks };

    /// One step: what a session asks, answered.
    fn attempt(&mut self, session: u32, op: &Op, manner: Manner) -> Reply
        requires { MayStep (state self.old) session op.now manner }
        ensures { Step (state self.old) session op.now manner result (state self.new) };
}

// The engine's own methods keep the contract.
impl ScriptEngine for Engine {
    ghost state = { λ engine. engine };

    fn in_transaction(&self, session: u32) -> bool {
        self.in_transaction(session)
    }

    fn is_mark(&self, session: u32, mark: u64) -> bool {
        self.is_mark(session, mark)
    }

    fn attempt(&mut self, session: u32, op: &Op, manner: Manner) -> Reply {
        self.attempt(session, op, manner)
    }
}
