//! What is told where a transaction ends.

ghost use Rattle.std.specs.Prelude.{◌≡◌, ◌∷◌, [], IfOk};
ghost use Rattle.batch_meaning.specs.Tokens.{transaction_committed, transaction_rolled_back};

use crate::sendable::TokenList;
use crate::tokens::{transaction_committed, transaction_rolled_back};
use std::alloc::Global;
use std::marker::Model;
use value_types::Memory;

/// What is told where the transaction of a number ends, seen as that number. It is made as the transaction begins, so
/// that its end wants no memory.
#[derive(Drop)]
pub struct Endings {
    serial: u64,
    committed: TokenList,
    rolled_back: TokenList,
}

impl Model for Endings {
    ghost use Rattle.std.specs.Prelude.{◌≡◌, ◌∷◌, [], ℕ};
    ghost use Rattle.batch_meaning.specs.Tokens.{transaction_committed, transaction_rolled_back};

    ghost Value = { ℕ };

    ghost view = { λ endings. endings.serial };

    ghost invariant = { λ endings. (endings.committed ≡ transaction_committed endings.serial ∷ []) × (endings.rolled_back ≡ transaction_rolled_back endings.serial ∷ []) };
}

impl Endings {
    /// That of the transaction of this number.
    pub fn new(alloc: Global, serial: u64) -> Result<Endings, Memory>
        ensures { IfOk result (λ endings. endings ≡ serial) }
    {
        Ok(Endings {
            serial,
            committed: transaction_committed(alloc, serial)?,
            rolled_back: transaction_rolled_back(alloc, serial)?,
        })
    }

    /// That it is committed.
    pub(crate) fn committed(&self) -> &TokenList
        ensures { result.now ≡ transaction_committed self.now ∷ [] }
    {
        &self.committed
    }

    /// That it is rolled back.
    pub(crate) fn rolled_back(&self) -> &TokenList
        ensures { result.now ≡ transaction_rolled_back self.now ∷ [] }
    {
        &self.rolled_back
    }

    /// That it is committed, owned.
    pub(crate) fn into_committed(self) -> TokenList
        ensures { result ≡ transaction_committed self ∷ [] }
    {
        self.committed
    }

    /// That it is rolled back, owned.
    pub(crate) fn into_rolled_back(self) -> TokenList
        ensures { result ≡ transaction_rolled_back self ∷ [] }
    {
        self.rolled_back
    }
}
