//! What the server says of itself.

ghost use Rattle.std.specs.Prelude.{Ok};
ghost use Rattle.typed_nodes.specs.Refusals.{Gives};
ghost use Rattle.clause_binder.specs.Server as spec;

use std::alloc::Global;
use typed_nodes::{BindFault, TypedExpr, cast_expr};
use value_types::{SqlType, Units};

/// The version, in the form in which drivers look for four numbers.
const VERSION: &[u8] = b"Microsoft SQL Server protocol, tsqld - 15.0.0.0";

/// The most digits of a decimal.
const MOST_DIGITS: i64 = 38;

/// How many units the type of the version has.
const VERSION_SIZE: u16 = 300;

/// How many units the type of a name has.
const NAME_SIZE: u16 = 128;

/// `@@VERSION`
pub(crate) fn version(alloc: Global) -> Result<TypedExpr, BindFault>
    ensures { Gives result (Ok (spec.server_text spec.version_size spec.version_text)) }
{
    let text = Units::of_ascii(alloc, VERSION)?;
    server_text(alloc, VERSION_SIZE, &text)
}

/// `@@SERVERNAME`
pub(crate) fn server_name(alloc: Global) -> Result<TypedExpr, BindFault>
    ensures { Gives result (Ok (spec.server_text spec.name_size spec.server_name)) }
{
    let text = Units::of_ascii(alloc, b"tsqld")?;
    server_text(alloc, NAME_SIZE, &text)
}

/// `@@MAX_PRECISION`
pub(crate) fn max_precision(alloc: Global) -> Result<TypedExpr, BindFault>
    ensures { Gives result (Ok spec.max_precision) }
{
    cast_expr(alloc, SqlType::TinyInt, TypedExpr::number(MOST_DIGITS))
}

/// `SCHEMA_NAME()`
pub(crate) fn schema_name(alloc: Global) -> Result<TypedExpr, BindFault>
    ensures { Gives result (Ok (spec.server_text spec.name_size spec.schema_name)) }
{
    let text = Units::of_ascii(alloc, b"dbo")?;
    server_text(alloc, NAME_SIZE, &text)
}

/// `DB_NAME()`
pub(crate) fn database_name(alloc: Global) -> Result<TypedExpr, BindFault>
    ensures { Gives result (Ok (spec.server_text spec.name_size spec.database_name)) }
{
    let text = Units::of_ascii(alloc, b"main")?;
    server_text(alloc, NAME_SIZE, &text)
}

/// `USER_NAME()`
pub(crate) fn user_name(alloc: Global) -> Result<TypedExpr, BindFault>
    ensures { Gives result (Ok (spec.server_text spec.name_size spec.user_name)) }
{
    let text = Units::of_ascii(alloc, b"dbo")?;
    server_text(alloc, NAME_SIZE, &text)
}

/// What the server says, as a text of a type of this size.
fn server_text(alloc: Global, size: u16, text: &Units) -> Result<TypedExpr, BindFault>
    ensures { Gives result (Ok (spec.server_text size text.now)) }
{
    let literal = TypedExpr::text(alloc, text)?;
    cast_expr(alloc, SqlType::NText(size), literal)
}
