//! The open transactions.

ghost use Rattle.std.specs.Prelude.{◌≡◌, ◌+◌, ◌≤◌, true, [], ◌∷◌, ◌++◌, None, vec_len, IfOk, OnErr};
ghost use Rattle.std.specs.Option.{option_copied};
ghost use Rattle.engine_core.specs.Transactions.{is_active, made_in, marks_in, with_opened, add_mark, cut_marks, set_wait, drop_wait, mark_victim, drop_victim, mark_in, without_opened, AreDistinct};

use crate::wait::StandingWait;
use std::alloc::Global;
use std::marker::Model;
use step_model::Cycle;
use value_types::Memory;

/// A session that has a transaction open, with how many marks that has made, and those that are live; what it waits
/// for, and the cycle as whose victim it is marked.
#[derive(Drop)]
pub(crate) struct Transaction {
    session: u32,
    made: u64,
    marks: Vec<u64>,
    wait: Option<StandingWait>,
    victim: Option<Cycle>,
}

impl Model for Transaction {
    ghost use Rattle.engine_core.specs.Transactions.{Opened};

    ghost Value = { Opened };

    ghost view = { λ transaction. record { session = transaction.session; made = transaction.made; marks = transaction.marks.items; wait = transaction.wait; victim = transaction.victim } };
}

impl Transaction {
    /// The transaction that a session begins.
    pub(crate) fn new(alloc: Global, session: u32) -> Transaction
        ensures { result ≡ record { session = session; made = 0; marks = []; wait = None; victim = None } }
    {
        Transaction {
            session,
            made: 0,
            marks: Vec::new(alloc),
            wait: None,
            victim: None,
        }
    }

    /// The session.
    pub(crate) fn session(&self) -> u32
        ensures { result ≡ self.now.session }
    {
        self.session
    }

    /// How many marks it has made.
    fn made(&self) -> u64
        ensures { result ≡ self.now.made }
    {
        self.made
    }

    /// The live marks in order.
    fn marks(&self) -> &[u64]
        ensures { result.now ≡ self.now.marks }
    {
        &self.marks
    }

    /// What it waits for, if it waits.
    pub(crate) fn wait(&self) -> Option<&StandingWait>
        ensures { option_copied result ≡ self.now.wait }
    {
        self.wait.as_ref()
    }

    /// Makes the next mark. Where there is no number for one more, memory is wanting.
    fn mark(&mut self) -> Result<u64, Memory>
        ensures marked { IfOk result (λ mark. mark ≡ self.old.made + 1) }
        ensures kept { IfOk result (λ mark. self.new ≡ add_mark mark self.old) }
        ensures err { OnErr result (self.new ≡ self.old) }
    {
        if self.made == u64::MAX {
            return Err(Memory);
        }
        let mark = self.made + 1;
        self.marks.push(mark)?;
        self.made = mark;
        Ok(mark)
    }

    /// Drops the marks behind one.
    fn cut(&mut self, mark: u64)
        ensures { self.new ≡ cut_marks mark self.old }
    {
        self.marks.retain(|live| *live <= mark);
    }

    /// Ends its wait.
    fn end_wait(&mut self)
        ensures { self.new ≡ drop_wait self.old }
    {
        self.wait = None;
    }

    /// Lets it wait.
    fn begin_wait(&mut self, wait: StandingWait)
        ensures { self.new ≡ set_wait wait self.old }
    {
        self.wait = Some(wait);
    }

    /// Ends its wait, and marks it as the victim of a cycle.
    fn fall(&mut self, cycle: Cycle)
        ensures { self.new ≡ mark_victim cycle self.old }
    {
        self.wait = None;
        self.victim = Some(cycle);
    }

    /// Takes its mark as a victim.
    fn take_victim(&mut self) -> Option<Cycle>
        ensures mark { result ≡ self.old.victim }
        ensures taken { self.new ≡ drop_victim self.old }
    {
        self.victim.take()
    }
}

/// Whether a session has a transaction open.
pub(crate) fn is_active(active: &[Transaction], session: u32) -> bool
    ensures { result ≡ is_active session active.now }
{
    active.iter().any(|open| open.session() == session)
}

/// How many marks a session's transaction has made, if it has one.
pub(crate) fn made_in(active: &[Transaction], session: u32) -> u64
    ensures { result ≡ made_in session active.now }
{
    for open in active {
        if open.session() == session {
            return open.made();
        }
    }
    0
}

/// The live marks of a session's transaction, if it has one.
pub(crate) fn marks_in(active: &[Transaction], session: u32) -> &[u64]
    ensures { result.now ≡ marks_in session active.now }
{
    for open in active {
        if open.session() == session {
            return open.marks();
        }
    }
    &[]
}

/// Makes the next mark of a session's transaction.
pub(crate) fn mark(active: &mut [Transaction], session: u32) -> Result<u64, Memory>
    requires begun { is_active session active.old ≡ true }
    requires distinct { AreDistinct active.old }
    ensures next { IfOk result (λ mark. mark ≡ made_in session active.old + 1) }
    ensures kept { IfOk result (λ mark. active.new ≡ with_opened session (add_mark mark) active.old) }
    ensures err { OnErr result (active.new ≡ active.old) }
{
    for open in active.iter_mut() {
        if open.session() == session {
            let mark = open.mark()?;
            return Ok(mark);
        }
    }
    unreachable!()
}

/// Drops the marks of a session's transaction that are behind one.
pub(crate) fn cut(active: &mut [Transaction], session: u32, mark: u64)
    requires begun { is_active session active.old ≡ true }
    requires distinct { AreDistinct active.old }
    ensures { active.new ≡ with_opened session (cut_marks mark) active.old }
{
    for open in active.iter_mut() {
        if open.session() == session {
            open.cut(mark);
            return;
        }
    }
    unreachable!()
}

/// Ends a session's wait, if it has a transaction that waits.
pub(crate) fn end_wait(active: &mut [Transaction], session: u32)
    requires distinct { AreDistinct active.old }
    ensures { active.new ≡ with_opened session drop_wait active.old }
{
    for open in active.iter_mut() {
        if open.session() == session {
            open.end_wait();
            return;
        }
    }
}

/// Lets a session wait, if it has a transaction.
pub(crate) fn begin_wait(active: &mut [Transaction], session: u32, wait: StandingWait)
    requires distinct { AreDistinct active.old }
    ensures { active.new ≡ with_opened session (set_wait wait) active.old }
{
    for open in active.iter_mut() {
        if open.session() == session {
            open.begin_wait(wait);
            return;
        }
    }
}

/// Ends a session's wait, and marks it as the victim of a cycle, if it has a transaction.
pub(crate) fn fall(active: &mut [Transaction], session: u32, cycle: Cycle)
    requires distinct { AreDistinct active.old }
    ensures { active.new ≡ with_opened session (mark_victim cycle) active.old }
{
    for open in active.iter_mut() {
        if open.session() == session {
            open.fall(cycle);
            return;
        }
    }
}

/// Takes a session's mark as a victim, if it has one.
pub(crate) fn take_victim(active: &mut [Transaction], session: u32) -> Option<Cycle>
    requires distinct { AreDistinct active.old }
    ensures mark { result ≡ mark_in session active.old }
    ensures taken { active.new ≡ with_opened session drop_victim active.old }
{
    for open in active.iter_mut() {
        if open.session() == session {
            return open.take_victim();
        }
    }
    None
}

/// Ends a session's transaction.
pub(crate) fn close(active: &mut Vec<Transaction>, session: u32)
    requires begun { is_active session active.old.items ≡ true }
    ensures closed { active.new.items ≡ without_opened session active.old.items }
    ensures fewer { vec_len active.new + 1 ≤ vec_len active.old }
{
    active.retain(|open| open.session() != session);
}
