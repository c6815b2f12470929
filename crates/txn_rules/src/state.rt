//! The state of transactions.

ghost use Rattle.std.specs.Prelude.{◌≡◌, ◌<◌, ◌↔◌, ℤ, Some, None, OnErr, OnOk};
ghost use Rattle.txn_rules.specs.Savepoints.{mark_of};
ghost use Rattle.txn_rules.specs.State.{after_begin, after_commit, after_cut, after_end, after_fire, after_fired, after_save, back_to, commit_answer, count_limit, is_called, is_closed, no_transaction, rollback_answer, save_refusal, whole_answer, xact_state};

use crate::savepoints::{Savepoint, Savepoints};
use std::alloc::Global;
use thiserror::Error;
use value_types::{Memory, Units};

/// A session's transactions.
#[derive(Debug, Drop)]
pub struct TxnState {
    /// How many are open in one another, which is `@@TRANCOUNT`.
    pub count: u32,
    /// Whether the transaction can only be rolled back.
    pub doomed: bool,
    /// How many outermost ones have begun.
    pub serial: u64,
    /// The name of the outermost.
    pub name: Option<Units>,
    /// Its savepoints.
    pub saves: Savepoints,
}

/// What a rollback to a name goes back to.
#[derive(Clone, Copy, Debug, PartialEq, Eq)]
pub enum BackKind {
    /// The mark of a savepoint.
    Mark(u64),
    /// The beginning: the whole transaction is rolled back.
    Whole,
}

/// Why a savepoint is not set.
#[derive(Clone, Copy, Debug, PartialEq, Eq, Error)]
pub enum TxnFault {
    /// The error of this number refuses it.
    #[error("error {0}")]
    Number(i32),
    /// Memory was wanting.
    #[error("memory was wanting")]
    Memory,
}

impl From<Memory> for TxnFault {
    ghost use Rattle.txn_rules.specs.declared.state.TxnFault.TheVariants.{Memory as NoMemory};

    ghost from_gives = { λ _ fault. fault ≡ NoMemory };

    fn from(_e: Memory) -> TxnFault {
        TxnFault::Memory
    }
}

impl TxnState {
    /// No transaction.
    pub fn new(alloc: Global) -> TxnState
        ensures { result ≡ no_transaction }
    {
        TxnState {
            count: 0,
            doomed: false,
            serial: 0,
            name: None,
            saves: Savepoints::new(alloc),
        }
    }

    /// Begins a transaction, and answers whether it is the outermost.
    pub fn begin(&mut self, name: Option<Units>) -> bool
        requires { self.old.count < count_limit }
        ensures outermost { result ≡ is_closed self.old }
        ensures state { self.new ≡ after_begin name self.old }
    {
        if self.count == 0 {
            self.count = 1;
            self.serial = self.serial.saturating_add(1);
            self.name = name;
            return true;
        }
        self.count += 1;
        false
    }

    /// Commits a transaction, and answers whether it is the outermost.
    pub fn commit(&mut self) -> Result<bool, i32>
        ensures answer { result ≡ commit_answer self.old }
        ensures state { self.new ≡ after_commit self.old }
    {
        if self.count == 0 {
            return Err(3902);
        }
        if self.doomed {
            return Err(3930);
        }
        if self.count == 1 {
            self.ended();
            return Ok(true);
        }
        self.count -= 1;
        Ok(false)
    }

    /// Sets a savepoint.
    pub fn save(&mut self, name: Units, mark: u64) -> Result<(), TxnFault>
        ensures set { OnOk result (self.new ≡ after_save name mark self.old) }
        ensures free { OnOk result (save_refusal self.old ≡ None) }
        ensures refused { (number : ℤ) → (result ≡ Err (TxnFault.Number number)) ↔ (save_refusal self.old ≡ Some number) }
        ensures err { OnErr result (self.new ≡ self.old) }
    {
        if self.count == 0 {
            return Err(TxnFault::Number(49005));
        }
        if self.doomed {
            return Err(TxnFault::Number(3930));
        }
        self.saves.push(Savepoint { name, mark })?;
        Ok(())
    }

    /// What a rollback to this name goes back to.
    pub fn rollback_to(&self, name: &Units) -> Result<BackKind, i32>
        ensures { result ≡ rollback_answer name.now self.now }
    {
        if self.count == 0 {
            return Err(3903);
        }
        match self.saves.mark_of(name) {
            None => self.rollback_whole(name),
            Some(_) if self.doomed => Err(3931),
            Some(mark) => Ok(BackKind::Mark(mark)),
        }
    }

    /// What a rollback to a name that no savepoint has goes back to.
    fn rollback_whole(&self, name: &Units) -> Result<BackKind, i32>
        ensures { result ≡ whole_answer name.now self.now }
    {
        match &self.name {
            Some(called) if *called == *name => Ok(BackKind::Whole),
            _ => Err(6401),
        }
    }

    /// The mark of a statement whose triggers run stands among the savepoints, without a name. Where no transaction was
    /// begun, the statement's own counts as one.
    pub fn fire(&mut self, alloc: Global, mark: u64) -> Result<(), Memory>
        ensures fired { OnOk result (self.new ≡ after_fire mark self.old) }
        ensures err { OnErr result (self.new ≡ self.old) }
    {
        self.saves.push(Savepoint {
            name: Units::new(alloc),
            mark,
        })?;
        if self.count == 0 {
            self.count = 1;
        }
        Ok(())
    }

    /// Drops the mark of a statement whose triggers have run.
    pub fn fired(&mut self, mark: u64)
        ensures { self.new ≡ after_fired mark self.old }
    {
        self.saves.drop_mark(mark);
    }

    /// Drops the savepoints that a return to this mark leaves behind.
    pub fn cut(&mut self, mark: u64)
        ensures { self.new ≡ after_cut mark self.old }
    {
        self.saves.cut(mark);
    }

    /// Ends the transaction, with its doom, its name and its savepoints.
    pub fn ended(&mut self)
        ensures { self.new ≡ after_end self.old }
    {
        self.count = 0;
        self.doomed = false;
        self.name = None;
        self.saves.clear();
    }

    /// `XACT_STATE()`: 1 where a transaction is open, -1 where it is doomed, 0 where none is.
    pub fn state(&self) -> i64
        ensures { result ≡ xact_state self.now }
    {
        if self.count == 0 {
            0
        } else if self.doomed {
            -1
        } else {
            1
        }
    }
}
