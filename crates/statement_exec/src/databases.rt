//! USE.

ghost use Rattle.std.specs.Prelude.{◌≡◌, [], Ok, IfOk};
ghost use Rattle.batch_meaning.specs.Databases.{context_tokens, is_database, tells_context, uses_database};
ghost use Rattle.batch_meaning.specs.Asking.{with_room};
ghost use Rattle.batch_meaning.specs.Meaning.{line_of};
ghost use Rattle.session_state.specs.Parts.{Stepped};

use crate::prepare::bind_first;
use crate::working::line_of;
use batch_meaning::Failure;
use session_state::{
    Around, Effect, NO_DATABASE, RESULT_FULL, SessionState, TokenList, context_tokens, naming,
    no_memory,
};
use std::alloc::Global;
use tsql_tree::Statement;
use value_types::{Memory, Units};

/// The name of the one database.
const DATABASE: &str = "main";

/// Its other name.
const OTHER_NAME: &str = "master";

/// USE: the database is told, which is the one that there is.
#[inline(never)]
pub fn use_database(
    alloc: Global,
    session: &SessionState,
    statement: &Statement,
    name: &Units,
    around: &Around<'_, '_>,
) -> Result<Effect, Failure>
    ensures came { Stepped (uses_database around.now statement.now name.now) session.now (Ok result) session.now }
    ensures none { IfOk result (λ effect. effect.sets ≡ []) }
{
    bind_first(alloc, session, statement)?;
    if !is_database(name) {
        return Err(naming(alloc, NO_DATABASE, name));
    }
    tell(alloc, session, statement, around)
}

/// The database is told, for which the batch has bytes left.
fn tell(
    alloc: Global,
    session: &SessionState,
    statement: &Statement,
    around: &Around<'_, '_>,
) -> Result<Effect, Failure>
    ensures came { Stepped (with_room (tells_context (context_tokens around.now.procedure (line_of statement.now)))) session.now (Ok result) session.now }
    ensures none { IfOk result (λ effect. effect.sets ≡ []) }
{
    match told(alloc, statement, around) {
        Ok(tokens) if session.is_full(&tokens) => Err(Failure::plain(RESULT_FULL)),
        Ok(tokens) => Ok(Effect::sending(alloc, tokens)),
        Err(_) => Err(no_memory()),
    }
}

/// What tells it.
fn told(alloc: Global, statement: &Statement, around: &Around<'_, '_>) -> Result<TokenList, Memory>
    ensures { IfOk result (λ tokens. tokens ≡ context_tokens around.now.procedure (line_of statement.now)) }
{
    let line = line_of(statement)?;
    let procedure = around.procedure(alloc)?;
    context_tokens(alloc, procedure, line)
}

/// Whether there is a database of this name.
fn is_database(name: &Units) -> bool
    ensures { result ≡ is_database name.now }
{
    name.is(DATABASE) || name.is(OTHER_NAME)
}
