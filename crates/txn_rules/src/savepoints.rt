//! The savepoints of a transaction.

ghost use Rattle.std.specs.Prelude.{◌≡◌, ◌++◌, ◌∷◌, [], OnErr, OnOk};
ghost use Rattle.txn_rules.specs.Savepoints.{is_kept, is_other, mark_of, up_to, without};

use std::alloc::Global;
use std::marker::Model;
use value_types::{Memory, Units};

/// A savepoint.
#[derive(Debug, Drop)]
pub struct Savepoint {
    /// Its name.
    pub name: Units,
    /// The mark at which it was set.
    pub mark: u64,
}

impl Savepoint {
    /// Whether its mark is this one or an earlier one.
    fn is_kept(&self, mark: u64) -> bool
        ensures { result ≡ is_kept mark self.now }
    {
        self.mark <= mark
    }
}

/// The savepoints of a transaction, in the order in which they were set.
#[derive(Debug, Drop)]
pub struct Savepoints {
    savepoints: Vec<Savepoint>,
}

impl Model for Savepoints {
    ghost use Rattle.std.specs.Prelude.{List};
    ghost use Rattle.txn_rules.specs.declared.savepoints.Savepoint.{Savepoint as Point};

    ghost Value = { List Point };

    ghost view = { λ saves. saves.savepoints.items };
}

impl Savepoints {
    /// No savepoints.
    pub fn new(alloc: Global) -> Savepoints
        ensures { result ≡ [] }
    {
        Savepoints {
            savepoints: Vec::new(alloc),
        }
    }

    /// The savepoints in order.
    pub fn as_slice(&self) -> &[Savepoint]
        ensures { result.now ≡ self.now }
    {
        self.savepoints.as_slice()
    }

    /// Adds a savepoint behind the others.
    pub(crate) fn push(&mut self, savepoint: Savepoint) -> Result<(), Memory>
        ensures pushed { OnOk result (self.new ≡ self.old ++ savepoint ∷ []) }
        ensures err { OnErr result (self.new ≡ self.old) }
    {
        self.savepoints.push(savepoint)?;
        Ok(())
    }

    /// Drops the savepoint of this mark.
    pub(crate) fn drop_mark(&mut self, mark: u64)
        ensures { self.new ≡ without mark self.old }
    {
        self.savepoints.retain(|savepoint| savepoint.mark != mark);
    }

    /// The mark of the latest savepoint of this name.
    pub(crate) fn mark_of(&self, name: &Units) -> Option<u64>
        ensures { result ≡ mark_of name.now self.now }
    {
        let mut mark = None;
        for savepoint in self.savepoints.as_slice() {
            if savepoint.name == *name {
                mark = Some(savepoint.mark);
            }
        }
        mark
    }

    /// Drops the savepoints whose mark is above this one.
    pub(crate) fn cut(&mut self, mark: u64)
        ensures { self.new ≡ up_to mark self.old }
    {
        self.savepoints.retain(|savepoint| savepoint.is_kept(mark));
    }

    /// Drops all savepoints.
    pub(crate) fn clear(&mut self)
        ensures { self.new ≡ [] }
    {
        self.savepoints.clear();
    }
}
