//! What names, inner queries and aggregates are bound to.

ghost use Rattle.std.specs.Prelude.{◌≡◌, Ok, Err, None, Some, OnOk, option_map};
ghost use Rattle.bound_tree.specs.declared.expr.BoundExpr.TheVariants as bound;
ghost use Rattle.typed_nodes.specs.Refusals.{Gives};
ghost use Rattle.clause_binder.specs.Answers.{GivesOn};
ghost use Rattle.value_types.specs.Units.{utf16_of};
ghost use Rattle.typed_nodes.specs.Nodes as node;
ghost use Rattle.typed_nodes.specs.Tests as tests;
ghost use Rattle.typed_nodes.specs.Facts as facts;
ghost use Rattle.clause_binder.specs.Scope.{syntax_error};
ghost use Rattle.clause_binder.specs.Operands as spec;

use crate::and_next::and_next;
use crate::fault::{
    OPERAND_NOT_ALLOWED, SEVERAL_ITEMS, SYNTAX_ERROR, UNDECLARED_VARIABLE, refused, refused_unnamed,
};
use crate::progress::{Context, Progress, is_deep};
use crate::scope::{Found, behind, column_of, is_long};
use crate::server::{database_name, max_precision, schema_name, server_name, user_name, version};
use bound_tree::{BoundExpr, BoundQuery, BoundTest, InnerQuery, Item, Sum, SumKind, SystemValue};
use session_vars::Vars;
use sqlite_items::{Boxed, Items};
use std::alloc::Global;
use tsql_tree::{Aggregate, SystemWord};
use typed_nodes::{BindFault, Facts, TypedExpr, TypedTest, in_query_test};
use value_types::{SqlType, Units, Value, units_of_str};

/// How many variables a batch has at most.
const MAX_VARIABLES: u16 = 10_000;

/// How many units a text has at most.
const TEXT_LIMIT: u16 = 4_000;

/// How many inner queries a statement has at most.
pub const MAX_INNER: u16 = 10_000;

/// A select that is bound.
#[derive(Drop)]
pub struct Selected {
    /// Its query.
    pub query: BoundQuery,
    /// The variables that its items are assigned to.
    pub places: Items<u16>,
    /// Whether any is.
    pub assigns: bool,
    /// How many inner queries it has, those within others too; more than the limit are one more.
    pub count: u16,
    /// Whether something is outside a limit.
    pub beyond: bool,
}

/// Something outside a limit, of this type.
pub fn left_out(kind: Option<SqlType>) -> TypedExpr
    ensures { result ≡ spec.left_out kind }
{
    TypedExpr::with_facts(
        Facts::alone(kind).outside(),
        BoundExpr::Constant(Value::Null),
    )
}

/// What stands at a place of the row.
fn cell_at(place: usize, kind: SqlType) -> TypedExpr
    ensures { result ≡ spec.placed place kind bound.Cell }
{
    match u16::try_from(place) {
        Ok(place) => TypedExpr::leaf(kind, BoundExpr::Cell(place)),
        Err(_) => left_out(Some(kind)),
    }
}

/// A column, which is in no GROUP BY until it is found there.
pub(crate) fn cell(found: Found) -> TypedExpr
    ensures { result ≡ spec.cell found }
{
    let TypedExpr { expr, facts } = cell_at(found.place, found.kind);
    let loose = u16::try_from(found.place).ok();
    TypedExpr {
        expr,
        facts: Facts { loose, ..facts },
    }
}

/// A column, maybe of the table so named. Error 207 where there is none, and 209 where there are several.
pub fn column(
    alloc: Global,
    table: &Option<Boxed<Units>>,
    name: &Units,
    at: &Context<'_, '_>,
) -> Result<TypedExpr, BindFault>
    ensures { Gives result (spec.column_in table.now name.now at.now) }
{
    match table {
        Some(table) => Ok(cell(column_of(alloc, Some(table.get()), name, at.sources)?)),
        None => Ok(cell(column_of(alloc, None, name, at.sources)?)),
    }
}

/// A value of the session, or what the server says of itself.
pub fn system_expr(
    alloc: Global,
    word: SystemWord,
    at: &Context<'_, '_>,
) -> Result<TypedExpr, BindFault>
    ensures { Gives result (Ok (spec.system_at at.now word)) }
{
    let node = system_node(alloc, word)?;
    if at.row_alone {
        let kind = node.facts.kind;
        drop(node);
        return Ok(left_out(kind));
    }
    Ok(node)
}

/// What a word for a value is bound to.
fn system_node(alloc: Global, word: SystemWord) -> Result<TypedExpr, BindFault>
    ensures { Gives result (Ok (spec.system_node word)) }
{
    match word {
        SystemWord::TranCount => Ok(session_value(SystemValue::TranCount)),
        SystemWord::Error => Ok(session_value(SystemValue::Error)),
        SystemWord::RowCount => Ok(session_value(SystemValue::RowCount)),
        SystemWord::FetchStatus => Ok(session_value(SystemValue::FetchStatus)),
        SystemWord::XactState => Ok(session_value(SystemValue::XactState)),
        SystemWord::ErrorNumber => Ok(session_value(SystemValue::ErrorNumber)),
        SystemWord::ErrorSeverity => Ok(session_value(SystemValue::ErrorSeverity)),
        SystemWord::ErrorState => Ok(session_value(SystemValue::ErrorState)),
        SystemWord::ErrorLine => Ok(session_value(SystemValue::ErrorLine)),
        SystemWord::ErrorMessage => Ok(session_value(SystemValue::ErrorMessage)),
        SystemWord::ErrorProcedure => Ok(session_value(SystemValue::ErrorProcedure)),
        SystemWord::Version => version(alloc),
        SystemWord::ServerName => server_name(alloc),
        SystemWord::MaxPrecision => max_precision(alloc),
        SystemWord::SchemaName => schema_name(alloc),
        SystemWord::DatabaseName => database_name(alloc),
        SystemWord::UserName => user_name(alloc),
    }
}

fn session_value(of: SystemValue) -> TypedExpr
    ensures { result ≡ spec.session_value of }
{
    TypedExpr::leaf(system_kind(of), BoundExpr::System(of))
}

fn system_kind(of: SystemValue) -> SqlType
    ensures { result ≡ spec.system_kind of }
{
    match of {
        SystemValue::TranCount => SqlType::Int,
        SystemValue::Error => SqlType::Int,
        SystemValue::RowCount => SqlType::Int,
        SystemValue::FetchStatus => SqlType::Int,
        SystemValue::XactState => SqlType::SmallInt,
        SystemValue::ErrorNumber => SqlType::Int,
        SystemValue::ErrorSeverity => SqlType::Int,
        SystemValue::ErrorState => SqlType::Int,
        SystemValue::ErrorLine => SqlType::Int,
        SystemValue::ErrorMessage => SqlType::NText(4_000),
        SystemValue::ErrorProcedure => SqlType::NText(128),
    }
}

/// A variable. Error 137 where it is not declared.
pub(crate) fn variable_of(alloc: Global, name: &Units, vars: &Vars) -> Result<TypedExpr, BindFault>
    ensures { Gives result (spec.variable_of vars.now name.now) }
{
    match vars.find(name) {
        Some(place) => Ok(variable_at(name, place, vars.kind(place))),
        None => refused(alloc, UNDECLARED_VARIABLE, name),
    }
}

/// A variable, where one may be named.
pub fn variable_in(
    alloc: Global,
    at: &Context<'_, '_>,
    name: &Units,
    vars: &Vars,
) -> Result<TypedExpr, BindFault>
    ensures { Gives result (spec.variable_in vars.now at.now name.now) }
{
    if at.row_alone {
        Ok(left_out(None))
    } else {
        variable_of(alloc, name, vars)
    }
}

/// The variable at a place, of this name and type.
fn variable_at(name: &Units, place: u16, kind: SqlType) -> TypedExpr
    ensures { result ≡ spec.variable_of_kind name.now place kind }
{
    if is_long(name) || place >= MAX_VARIABLES || !is_kind(kind) {
        left_out(Some(kind))
    } else {
        TypedExpr::leaf(kind, BoundExpr::Variable(place))
    }
}

/// Whether there is such a type: a text has from 1 to 4,000 units.
pub(crate) fn is_kind(kind: SqlType) -> bool
    ensures { result ≡ node.is_kind kind }
{
    match kind {
        SqlType::NText(size) => 1 <= size && size <= TEXT_LIMIT,
        SqlType::TinyInt => true,
        SqlType::SmallInt => true,
        SqlType::Int => true,
        SqlType::BigInt => true,
        SqlType::Bit => true,
    }
}

impl Progress {
    /// The place of the next inner query.
    fn inner_place(&self) -> usize
        ensures { result ≡ spec.inner_place self.now }
    {
        behind(self.first, self.inner.len())
    }

    /// Adds an inner query.
    fn add_inner(&mut self, select: Selected, single: bool) -> Result<(), BindFault>
        ensures { GivesOn result (Ok (tt, spec.with_inner select single self.old)) self.new }
    {
        let count = self.count.saturating_add(select.count).saturating_add(1);
        self.count = count.min(MAX_INNER + 1);
        self.note_beyond(select.beyond);
        self.note_beyond(select.assigns);
        self.note_beyond(select.query.items.as_slice().is_empty());
        self.inner.push(InnerQuery {
            query: select.query,
            single,
        })?;
        Ok(())
    }

    /// Adds an aggregate, and gives its cell: it stands behind the columns of the class's row.
    pub(crate) fn add_sum(&mut self, from: usize, sum: Sum) -> Result<TypedExpr, BindFault>
        ensures { GivesOn result (Ok (spec.add_sum from sum self.old)) self.new }
    {
        let place = behind(from, self.sums.len());
        let to = sum.to;
        self.sums.push(sum)?;
        Ok(cell_at(place, to))
    }
}

/// An inner query as a value. Error 116 where it has not one item.
pub fn scalar_from(
    alloc: Global,
    select: Selected,
    done: &mut Progress,
) -> Result<TypedExpr, BindFault>
    ensures { GivesOn result (spec.scalar_with select done.old) done.new }
{
    let kind = only_kind(alloc, select.query.items.as_slice());
    let (select, kind) = and_next(select, kind)?;
    let place = done.inner_place();
    done.add_inner(select, true)?;
    Ok(scalar_at(place, kind))
}

/// The value of the inner query of a place.
fn scalar_at(place: usize, kind: SqlType) -> TypedExpr
    ensures { result ≡ spec.placed place kind bound.Scalar }
{
    match u16::try_from(place) {
        Ok(place) => TypedExpr::leaf(kind, BoundExpr::Scalar(place)),
        Err(_) => left_out(Some(kind)),
    }
}

/// EXISTS of an inner query.
pub fn exists_from(
    alloc: Global,
    select: Selected,
    done: &mut Progress,
) -> Result<TypedTest, BindFault>
    ensures { GivesOn result (Ok (spec.exists_from select done.old)) done.new }
{
    let place = done.inner_place();
    done.add_inner(select, false)?;
    exists_at(alloc, place)
}

/// IN over an inner query. Error 116 where it has not one item.
pub fn in_query_from(
    alloc: Global,
    a: TypedExpr,
    select: Selected,
    done: &mut Progress,
) -> Result<TypedTest, BindFault>
    ensures { GivesOn result (spec.in_query_with a select done.old) done.new }
{
    let kind = only_kind(alloc, select.query.items.as_slice());
    let (a, (select, kind)) = and_next(a, and_next(select, kind))?;
    let place = done.inner_place();
    let (a, _) = and_next(a, done.add_inner(select, false))?;
    in_query_at(alloc, a, kind, place)
}

/// IN over the inner query of a place, whose column is of this type.
fn in_query_at(
    alloc: Global,
    a: TypedExpr,
    kind: SqlType,
    place: usize,
) -> Result<TypedTest, BindFault>
    ensures { Gives result (Ok (spec.test_placed place (tests.in_query_test a kind place))) }
{
    match u16::try_from(place) {
        Ok(place) => in_query_test(alloc, a, kind, place),
        Err(_) => {
            drop(a);
            test_left_out(alloc)
        }
    }
}

/// The type of the one item.
fn only_kind(alloc: Global, items: &[Item]) -> Result<SqlType, BindFault>
    ensures { Gives result (spec.only_kind items.now) }
{
    match items {
        [item] => Ok(item.kind),
        [] => Ok(SqlType::Int),
        [_, _, ..] => refused_unnamed(alloc, SEVERAL_ITEMS),
    }
}

/// An aggregate of an operand that is bound. Error 49008 where the operand's type is not allowed.
pub fn sum_of(
    alloc: Global,
    of: Aggregate,
    distinct: bool,
    from: usize,
    operand: TypedExpr,
    done: &mut Progress,
) -> Result<TypedExpr, BindFault>
    ensures { GivesOn result (spec.sum_with of distinct from operand done.old) done.new }
{
    let kind = or_int(operand.facts.kind);
    let (operand, to) = and_next(operand, aggregate_kind(alloc, of, kind))?;
    done.note_beyond(is_deep(operand.facts));
    let sum = Sum {
        kind: sum_kind(of),
        distinct,
        of: Some(operand.expr),
        to,
    };
    done.add_sum(from, sum)
}

/// `COUNT(*)`. Error 102 where no aggregate may stand.
pub fn count_rows(
    alloc: Global,
    at: &Context<'_, '_>,
    done: &mut Progress,
) -> Result<TypedExpr, BindFault>
    ensures { GivesOn result (spec.count_rows at.now done.old) done.new }
{
    match at.sums_from {
        None => misplaced(alloc, Aggregate::Count),
        Some(from) => {
            let sum = Sum {
                kind: SumKind::CountRows,
                distinct: false,
                of: None,
                to: SqlType::Int,
            };
            done.add_sum(from, sum)
        }
    }
}

/// The refusal of an aggregate that is misplaced.
pub fn misplaced(alloc: Global, of: Aggregate) -> Result<TypedExpr, BindFault>
    ensures { Gives result (Err (syntax_error, spec.word_of of)) }
{
    let word = units_of_str(alloc, word_of(of))?;
    Err(BindFault::Number(SYNTAX_ERROR, word))
}

fn word_of(of: Aggregate) -> &'static str
    ensures { utf16_of result.now ≡ spec.word_of of }
{
    match of {
        Aggregate::Count => "COUNT",
        Aggregate::Sum => "SUM",
        Aggregate::Avg => "AVG",
        Aggregate::Min => "MIN",
        Aggregate::Max => "MAX",
    }
}

fn sum_kind(of: Aggregate) -> SumKind
    ensures { result ≡ spec.sum_kind of }
{
    match of {
        Aggregate::Count => SumKind::Count,
        Aggregate::Sum => SumKind::Sum,
        Aggregate::Avg => SumKind::Avg,
        Aggregate::Min => SumKind::Min,
        Aggregate::Max => SumKind::Max,
    }
}

/// The type of what has one; of a lone NULL it is INT.
pub(crate) fn or_int(kind: Option<SqlType>) -> SqlType
    ensures { result ≡ facts.or_int kind }
{
    match kind {
        Some(kind) => kind,
        None => SqlType::Int,
    }
}

/// The type of an aggregate over operands of a type.
fn aggregate_kind(alloc: Global, of: Aggregate, kind: SqlType) -> Result<SqlType, BindFault>
    ensures { Gives result (spec.aggregate_kind of kind) }
{
    match of {
        Aggregate::Count => Ok(SqlType::Int),
        Aggregate::Sum => total_kind(alloc, kind),
        Aggregate::Avg => total_kind(alloc, kind),
        Aggregate::Min => extreme_kind(alloc, kind),
        Aggregate::Max => extreme_kind(alloc, kind),
    }
}

/// The type of a total.
fn total_kind(alloc: Global, kind: SqlType) -> Result<SqlType, BindFault>
    ensures { Gives result (spec.total_kind kind) }
{
    match kind {
        SqlType::TinyInt => Ok(SqlType::Int),
        SqlType::SmallInt => Ok(SqlType::Int),
        SqlType::Int => Ok(SqlType::Int),
        SqlType::BigInt => Ok(SqlType::BigInt),
        SqlType::Bit => refused_unnamed(alloc, OPERAND_NOT_ALLOWED),
        SqlType::NText(_) => refused_unnamed(alloc, OPERAND_NOT_ALLOWED),
    }
}

/// The type of the least or greatest.
fn extreme_kind(alloc: Global, kind: SqlType) -> Result<SqlType, BindFault>
    ensures { Gives result (spec.extreme_kind kind) }
{
    match kind {
        SqlType::Bit => refused_unnamed(alloc, OPERAND_NOT_ALLOWED),
        SqlType::TinyInt => Ok(kind),
        SqlType::SmallInt => Ok(kind),
        SqlType::Int => Ok(kind),
        SqlType::BigInt => Ok(kind),
        SqlType::NText(_) => Ok(kind),
    }
}

/// EXISTS of the inner query of a place.
fn exists_at(alloc: Global, place: usize) -> Result<TypedTest, BindFault>
    ensures { Gives result (Ok (spec.exists_at place)) }
{
    match u16::try_from(place) {
        Ok(place) => Ok(TypedTest {
            test: BoundTest::Exists(place),
            facts: Facts::none().test_above(),
        }),
        Err(_) => test_left_out(alloc),
    }
}

/// A test outside a limit.
pub fn test_left_out(alloc: Global) -> Result<TypedTest, BindFault>
    ensures { Gives result (Ok spec.test_left_out) }
{
    let null = Boxed::new(alloc, BoundExpr::Constant(Value::Null))?;
    Ok(TypedTest {
        test: BoundTest::IsNull(null),
        facts: Facts::none().outside().test_above(),
    })
}
