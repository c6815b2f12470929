//! Tokens that can be sent.

ghost use Rattle.std.specs.Prelude.{◌≡◌, ◌==◌, length, []};
ghost use Rattle.session_state.specs.Sendable.{IsFit};

use std::alloc::Global;
use std::marker::Model;
use tds_tokens::Token;

/// Tokens that have bytes, whatever columns were described before them.
#[derive(Drop)]
pub struct TokenList {
    tokens: Vec<Token>,
}

impl Model for TokenList {
    ghost use Rattle.std.specs.Prelude.{List};
    ghost use Rattle.tds_tokens.specs.declared.token.Token.{Token as Sent};
    ghost use Rattle.session_state.specs.Sendable.{IsFit};

    ghost Value = { List Sent };

    ghost view = { λ list. list.tokens.items };

    ghost invariant = { λ list. IsFit list.tokens.items };
}

impl TokenList {
    /// Nothing.
    pub fn none(alloc: Global) -> TokenList
        ensures { result ≡ [] }
    {
        TokenList {
            tokens: Vec::new(alloc),
        }
    }

    /// These tokens.
    pub fn new(tokens: Vec<Token>) -> TokenList
        requires { IsFit tokens.items }
        ensures { result ≡ tokens.items }
    {
        TokenList { tokens }
    }

    /// The tokens in order.
    pub fn as_slice(&self) -> &[Token]
        ensures { result.now ≡ self.now }
    {
        self.tokens.as_slice()
    }

    /// Whether there are none.
    pub fn is_empty(&self) -> bool
        ensures { result ≡ (length self.now == 0) }
    {
        self.tokens.is_empty()
    }

    /// The tokens in order, owned.
    pub(crate) fn into_vec(self) -> Vec<Token>
        ensures tokens { result.items ≡ self }
        ensures fit { IsFit self }
    {
        self.tokens
    }
}
