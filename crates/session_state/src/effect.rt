//! What a statement comes to where it succeeds.

ghost use Rattle.std.specs.Prelude.{◌≡◌};
ghost use Rattle.batch_meaning.specs.Selecting.{no_effect, sending};

use crate::sendable::TokenList;
use std::alloc::Global;
use std::marker::Model;
use value_types::Value;

/// The variables that a statement assigns, one after another, how many rows it counts, and what it sends.
#[derive(Drop)]
pub struct Effect {
    /// The places of the variables, and their values.
    pub sets: Vec<(u16, Value)>,
    /// How many rows it counts.
    pub rows: u64,
    /// What it sends.
    pub tokens: TokenList,
}

impl Model for Effect {
    ghost use Rattle.batch_meaning.specs.Selecting.{Effect as Comes};

    ghost Value = { Comes };

    ghost view = { λ effect. record { sets = effect.sets.items; rows = effect.rows; tokens = effect.tokens } };
}

impl Effect {
    /// Nothing.
    pub fn none(alloc: Global) -> Effect
        ensures { result ≡ no_effect }
    {
        Effect::sending(alloc, TokenList::none(alloc))
    }

    /// What it sends.
    pub fn tokens(&self) -> &TokenList
        ensures { result.now ≡ self.now.tokens }
    {
        &self.tokens
    }

    /// These tokens.
    pub fn sending(alloc: Global, tokens: TokenList) -> Effect
        ensures { result ≡ sending tokens }
    {
        Effect {
            sets: Vec::new(alloc),
            rows: 0,
            tokens,
        }
    }
}
