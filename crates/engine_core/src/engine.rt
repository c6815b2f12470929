//! The engine.

ghost use Rattle.std.specs.Prelude.{◌≡◌, ◌==◌, length, None, IfSome, IfOk, OnErr};
ghost use Rattle.std.specs.List.{list_any};
ghost use Rattle.step_model.specs.Exchange.{MayLackMemory};
ghost use Rattle.step_model.specs.State.{is_open, victim_of};
ghost use Rattle.step_model.specs.Moves.{without_wait, without_victim};
ghost use Rattle.step_model.specs.Step.{Step, StepFrom, told_first};
ghost use Rattle.step_model.specs.Runs.{MayStep, opening, standing_of};
ghost use Rattle.history_laws.specs.Sane.{Sane};

use crate::parts::Parts;
use crate::transaction::{is_active, marks_in};
use std::alloc::Global;
use std::marker::Model;
use step_model::{Cycle, Manner, Op, Reply};
use value_types::Memory;

/// The engine of all sessions.
#[derive(Drop)]
pub struct Engine {
    pub(crate) parts: Parts,
}

impl Model for Engine {
    ghost use Rattle.step_model.specs.State.{Engine as State};
    ghost use Rattle.history_laws.specs.Sane.{Sane};

    ghost Value = { State };

    ghost view = { λ engine. engine.parts };

    ghost invariant = { λ engine. Sane engine.parts };
}

impl Engine {
    /// An engine before any step.
    pub fn new(alloc: Global) -> Engine
        ensures { result ≡ opening }
    {
        Engine {
            parts: Parts::new(alloc),
        }
    }

    /// Whether a session has a transaction open.
    pub fn in_transaction(&self, session: u32) -> bool
        ensures { result ≡ is_open session self.now }
    {
        self.parts.in_transaction(session)
    }

    /// Whether a mark is a live one of the session's transaction.
    pub fn is_mark(&self, session: u32, mark: u64) -> bool
        ensures { result ≡ list_any (λ live. live == mark) (standing_of session self.now).marks }
    {
        self.parts.is_mark(session, mark)
    }

    /// How many commits the log has.
    pub fn commits(&self) -> u64
        ensures { result ≡ length self.now.log }
    {
        self.parts.commits()
    }

    /// Every state of an engine is sane, whatever was asked of it.
    pub fn law_sane(&self)
        ensures { Sane self.now }
    {
        let _parts = &self.parts;
    }

    /// One step: what a session asks, answered.
    pub fn attempt(&mut self, session: u32, op: &Op, manner: Manner) -> Reply
        requires { MayStep self.old session op.now manner }
        ensures { Step self.old session op.now manner result self.new }
    {
        self.parts.answer(session, op, manner)
    }
}

impl Parts {
    // Whether a session has a transaction open.
    fn in_transaction(&self, session: u32) -> bool
        ensures { result ≡ is_open session self.now }
    {
        is_active(&self.active, session)
    }

    // Whether a mark is a live one of the session's transaction.
    fn is_mark(&self, session: u32, mark: u64) -> bool
        ensures { result ≡ list_any (λ live. live == mark) (standing_of session self.now).marks }
    {
        marks_in(&self.active, session).contains(&mark)
    }

    // How many commits the log has.
    fn commits(&self) -> u64
        ensures { result ≡ length self.now.log }
    {
        self.log.len() as u64
    }

    // One step.
    fn answer(&mut self, session: u32, op: &Op, manner: Manner) -> Reply
        requires may { MayStep self.old session op.now manner }
        requires sane { Sane self.old }
        ensures { Step self.old session op.now manner result self.new }
    {
        self.end_wait(session);
        match self.hears(session, op) {
            Some(cycle) => Reply::Victim { cycle },
            None => match self.step(session, op, manner) {
                Ok(reply) => reply,
                Err(Memory) => Reply::Memory,
            },
        }
    }

    // The cycle of which a session that fell has to be told before its operation; it is marked no more then.
    fn hears(&mut self, session: u32, op: &Op) -> Option<Cycle>
        ensures told { result ≡ told_first op.now (victim_of session self.old) }
        ensures kept { result ≡ None → self.new ≡ self.old }
        ensures taken { IfSome result (λ cycle. self.new ≡ without_victim session self.old) }
    {
        match op {
            Op::Rollback => None,
            _ => self.take_victim(session),
        }
    }

    // One step of a session that waits no more, unless memory is wanting.
    fn step(&mut self, session: u32, op: &Op, manner: Manner) -> Result<Reply, Memory>
        requires may { MayStep self.old session op.now manner }
        requires sane { Sane self.old }
        requires calm { without_wait session self.old ≡ self.old }
        ensures step { IfOk result (λ reply. StepFrom self.old session op.now manner reply self.new) }
        ensures free { OnErr result (MayLackMemory op.now) }
        ensures err { OnErr result (self.new ≡ self.old) }
    {
        match op {
            Op::Begin => self.begin(session),
            Op::Fetch {
                table,
                start,
                stop,
                hold,
                part,
            } => self.fetch(session, table, start, stop, *hold, *part, manner),
            Op::Insert { table, key, row } => self.insert(session, table, key, row, manner),
            Op::Replace { table, key, row } => {
                self.write(session, table, key, Some(row), manner)
            }
            Op::Erase { table, key } => self.write(session, table, key, None, manner),
            Op::Mark => self.mark(session),
            Op::BackTo { mark } => Ok(self.back_to(session, *mark)),
            Op::Relax => Ok(self.relax(session)),
            Op::Commit => Ok(self.commit(session)),
            Op::Rollback => Ok(self.rollback(session)),
        }
    }
}
