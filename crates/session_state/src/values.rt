//! What a statement makes of the values of its expressions.

ghost use Rattle.std.specs.Prelude.{◌≡◌, ◌≤ℤ◌, ◌++◌, ◌∷◌, get_or, slice_get, [], pos, Ok, IfOk, IsTrue};
ghost use Rattle.value_types.specs.declared.value.Value.TheVariants.{Null};
ghost use Rattle.value_types.specs.Types.{IsOf};
ghost use Rattle.tsql_tree.specs.declared.statement.Form.{out-Form};
ghost use Rattle.batch_meaning.specs.Selecting.{assigning_to, made_of, raised_by};
ghost use Rattle.batch_meaning.specs.Values.{assigned_at, assigned_onto, assigned_to, cast_to, first_of, first_row, given_names, is_one, kind_or, number_between, places_onto, printed, raiserror_of, rows_assigned, status_of, text_in, throw_of, whole_of};
ghost use Rattle.session_state.specs.Parts.{IsOrMemory, IsWhole, SetsFit};
ghost use Rattle.dml_exec.specs.Asking.{seen};
ghost use Rattle.session_vars.specs.Variables.{FitsAt};

use crate::effect::Effect;
use crate::failures::no_memory;
use crate::numbers::{OUTSIDE_LIMITS, OUTSIDE_PROFILE, WANTING};
use crate::sendable::TokenList;
use batch_meaning::{Failure, Raised};
use convert_rules::{cast, error_of, type_of};
use error_table::RaisedBy;
use session_vars::Vars;
use sqlite_items::{Boxed, Items};
use std::alloc::Global;
use tsql_tree::{Declaration, Form};
use value_types::{Memory, Row, SqlType, Units, Value};

/// The longest text.
const ANY_TEXT: SqlType = SqlType::NText(4_000);

/// The number of what RAISERROR raises, and the least number of THROW.
const RAISERROR_NUMBER: i32 = 50_000;

/// The class of what THROW raises.
const THROW_CLASS: u8 = 16;

// ---- conversions

/// A value as one of a type; a text is cut to it.
fn cast_to(alloc: Global, to: SqlType, value: &Value) -> Result<Value, Failure>
    ensures came { IsOrMemory (cast_to to value.now) result }
    ensures typed { IfOk result (IsOf to) }
{
    match cast(alloc, value, type_of(value), to) {
        Ok(value) => Ok(value),
        Err(fault) => match error_of(fault, type_of(value), to) {
            Some(number) => Err(Failure { number, name: None }),
            None => Err(no_memory()),
        },
    }
}

// ---- assignments

/// The value as the variable at a place takes it.
fn assigned_at(
    alloc: Global,
    vars: &Vars,
    place: u16,
    value: &Value,
) -> Result<(u16, Value), Failure>
    ensures came { IsOrMemory (assigned_at vars.now place value.now) result }
    ensures fits { IfOk result (λ one. FitsAt one.0 one.1 vars.now) }
{
    let value = cast_to(alloc, kind_at(vars, place), value)?;
    Ok((place, value))
}

/// The type of the variable at a place, or INT where there is none.
fn kind_at(vars: &Vars, place: u16) -> SqlType
    ensures { result ≡ kind_or (slice_get vars.now place) }
{
    if place < vars.count() {
        vars.kind(place)
    } else {
        SqlType::Int
    }
}

/// The values as the variables at these places take them, one after another.
fn assigned(
    alloc: Global,
    vars: &Vars,
    places: &[u16],
    values: &[Value],
) -> Result<Vec<(u16, Value)>, Failure>
    ensures came { IsOrMemory (assigned_onto vars.now [] places.now values.now) (seen result) }
    ensures fits { IfOk result (λ sets. SetsFit vars.now sets.items) }
{
    let mut sets = Vec::new(alloc);
    let mut at = 0;
    while at < places.len() && at < values.len() {
        let one = assigned_at(alloc, vars, places[at], &values[at])?;
        if !add(&mut sets, one) {
            return Err(no_memory());
        }
        at += 1;
    }
    Ok(sets)
}

/// Adds what a variable takes. Whether there was memory for it.
fn add(sets: &mut Vec<(u16, Value)>, one: (u16, Value)) -> bool
    ensures { IsTrue result → sets.new.items ≡ sets.old.items ++ one ∷ [] }
{
    sets.push(one).is_ok()
}

/// The same of each row of an answer in turn: what stays is what the last assigns, and why a row can't be assigned.
pub fn rows_assigned(
    alloc: Global,
    vars: &Vars,
    places: &[u16],
    rows: &[Row],
) -> Result<(Vec<(u16, Value)>, Option<Failure>), Memory>
    ensures came { IfOk result (λ came. rows_assigned vars.now places.now [] rows.now ≡ (came.0.items, came.1)) }
    ensures fits { IfOk result (λ came. SetsFit vars.now came.0.items) }
{
    let mut sets = Vec::new(alloc);
    for row in rows {
        match assigned(alloc, vars, places, row.as_slice()) {
            Ok(last) => sets = last,
            Err(failure) if failure.number == WANTING => return Err(Memory),
            Err(failure) => return Ok((sets, Some(failure))),
        }
    }
    Ok((sets, None))
}

/// The places of the variables of these names.
fn places_of(alloc: Global, vars: &Vars, names: &[Units]) -> Result<Items<u16>, Failure>
    ensures { IsOrMemory (places_onto vars.now [] names.now) result }
{
    let mut places = Items::new(alloc);
    for name in names {
        let Some(place) = vars.find(name) else {
            return Err(Failure::plain(OUTSIDE_LIMITS));
        };
        if places.push(place).is_err() {
            return Err(no_memory());
        }
    }
    Ok(places)
}

/// The values as the variables of these names take them, one after another.
pub fn sets_of(
    alloc: Global,
    vars: &Vars,
    names: &[Units],
    values: &[Value],
) -> Result<Vec<(u16, Value)>, Failure>
    ensures came { IsOrMemory (assigned_to vars.now names.now values.now) (seen result) }
    ensures fits { IfOk result (λ sets. SetsFit vars.now sets.items) }
{
    let places = places_of(alloc, vars, names)?;
    assigned(alloc, vars, places.as_slice(), values)
}

/// What is assigned to the variables of these names.
fn assigned_to(
    alloc: Global,
    vars: &Vars,
    names: &[Units],
    values: &[Value],
) -> Result<Effect, Failure>
    ensures came { IsOrMemory (assigning_to vars.now names.now values.now) result }
    ensures fits { IfOk result (λ effect. SetsFit vars.now effect.sets) }
{
    let sets = sets_of(alloc, vars, names, values)?;
    Ok(Effect {
        sets,
        rows: 0,
        tokens: TokenList::none(alloc),
    })
}

/// The variables that a DECLARE gives a value.
fn given_names(alloc: Global, declarations: &[Declaration]) -> Result<Vec<Units>, Memory>
    ensures { IfOk result (λ names. names.items ≡ given_names declarations.now) }
{
    let mut names = Vec::new(alloc);
    for of in declarations {
        add_given(alloc, &mut names, of)?;
    }
    Ok(names)
}

/// Adds the variable of a declaration that gives it a value.
fn add_given(alloc: Global, names: &mut Vec<Units>, of: &Declaration) -> Result<(), Memory>
    ensures { IfOk result (λ _. names.new.items ≡ names.old.items ++ given_names (of.now ∷ [])) }
{
    if of.initial.is_some() {
        names.push(of.name.copy(alloc)?)?;
    }
    Ok(())
}

/// The name of a variable alone.
fn one_name(alloc: Global, name: &Units) -> Result<Vec<Units>, Memory>
    ensures { IfOk result (λ names. names.items ≡ name.now ∷ []) }
{
    Ok(vec![in alloc; name.copy(alloc)?]?)
}

// ---- what is made of values

/// The first row of an answer, or no values.
pub fn first_row(rows: &[Row]) -> &[Value]
    ensures { result.now ≡ first_row rows.now }
{
    match rows {
        [row, ..] => row.as_slice(),
        [] => &[],
    }
}

/// Whether the value of a test is true.
pub fn is_true(values: &[Value]) -> bool
    ensures { result ≡ is_one (first_of values.now) }
{
    matches!(values, [Value::Whole(1), ..])
}

/// What DECLARE and SET make of values.
pub fn made_of(alloc: Global, form: &Form, vars: &Vars, values: &[Value]) -> Result<Effect, Failure>
    ensures came { IsOrMemory (made_of (out-Form form.now) vars.now values.now) result }
    ensures fits { IfOk result (λ effect. SetsFit vars.now effect.sets) }
{
    match form {
        Form::Declare(declarations) => match given_names(alloc, declarations.as_slice()) {
            Ok(names) => assigned_to(alloc, vars, names.as_slice(), values),
            Err(_) => Err(no_memory()),
        },
        Form::SetVariable(name, _) => match one_name(alloc, name) {
            Ok(names) => assigned_to(alloc, vars, names.as_slice(), values),
            Err(_) => Err(no_memory()),
        },
        _ => Err(Failure::plain(OUTSIDE_LIMITS)),
    }
}

/// RETURN: its status as an INT, which is 0 where it has no value, or NULL.
pub fn status_of(alloc: Global, values: &[Value]) -> Result<i32, Failure>
    ensures { IsOrMemory (status_of values.now) result }
{
    let null = Value::Null;
    match cast_to(alloc, SqlType::Int, value_at(values, 0, &null))? {
        Value::Whole(number) => Ok(number as i32),
        _ => Ok(0),
    }
}

/// The value at a place, or this one.
fn value_at<'a>(values: &'a [Value], at: usize, null: &'a Value) -> &'a Value
    ensures { result.now ≡ get_or values.now at null.now }
{
    match values.get(at) {
        Some(value) => value,
        None => null,
    }
}

// ---- messages

/// What PRINT, RAISERROR and THROW make of values.
pub fn raised_by(
    alloc: Global,
    form: &Form,
    procedure: Units,
    line: i32,
    values: &[Value],
) -> Result<Boxed<Raised>, Failure>
    ensures { IsOrMemory (raised_by (out-Form form.now) procedure line values.now) result }
{
    match form {
        Form::Print(_) => printed(alloc, procedure, line, values),
        Form::RaiseError(_, _, _) => raiserror_of(alloc, procedure, line, values),
        Form::Throw(_, _, _) => throw_of(alloc, procedure, line, values),
        _ => Err(Failure::plain(OUTSIDE_LIMITS)),
    }
}

/// PRINT: a message of number and class 0.
fn printed(
    alloc: Global,
    procedure: Units,
    line: i32,
    values: &[Value],
) -> Result<Boxed<Raised>, Failure>
    ensures { IsOrMemory (printed procedure line values.now) result }
{
    let text = text_at(alloc, values, 0)?;
    boxed(
        alloc,
        Raised {
            number: 0,
            class: 0,
            state: 1,
            text,
            procedure,
            line,
            by: RaisedBy::Raiserror,
        },
    )
}

/// RAISERROR: its text, its class and its state.
fn raiserror_of(
    alloc: Global,
    procedure: Units,
    line: i32,
    values: &[Value],
) -> Result<Boxed<Raised>, Failure>
    ensures { IsOrMemory (raiserror_of procedure line values.now) result }
{
    let text = text_at(alloc, values, 0)?;
    let class = number_at(alloc, 0, 18, values, 1)?;
    let state = number_at(alloc, 0, 255, values, 2)?;
    boxed(
        alloc,
        Raised {
            number: RAISERROR_NUMBER,
            class: class as u8,
            state: state as u8,
            text,
            procedure,
            line,
            by: RaisedBy::Raiserror,
        },
    )
}

/// THROW: its number, its text and its state.
fn throw_of(
    alloc: Global,
    procedure: Units,
    line: i32,
    values: &[Value],
) -> Result<Boxed<Raised>, Failure>
    ensures { IsOrMemory (throw_of procedure line values.now) result }
{
    let number = number_at(alloc, 50_000, 2_147_483_647, values, 0)?;
    let text = text_at(alloc, values, 1)?;
    let state = number_at(alloc, 0, 255, values, 2)?;
    boxed(
        alloc,
        Raised {
            number: narrowed(number),
            class: THROW_CLASS,
            state: state as u8,
            text,
            procedure,
            line,
            by: RaisedBy::Throw,
        },
    )
}

/// What is raised, in a box of its own.
fn boxed(alloc: Global, raised: Raised) -> Result<Boxed<Raised>, Failure>
    ensures { IsOrMemory (Ok raised) result }
{
    match Boxed::new(alloc, raised) {
        Ok(raised) => Ok(raised),
        Err(_) => Err(no_memory()),
    }
}

/// A number that is no more than the greatest INT.
fn narrowed(number: i64) -> i32
    requires least { pos 0 ≤ℤ number }
    requires most { number ≤ℤ pos 2147483647 }
    ensures { result ≡ number }
{
    number as i32
}

/// The value at a place as a text; where there is none it is NULL.
fn text_at(alloc: Global, values: &[Value], at: usize) -> Result<Units, Failure>
    ensures { IsOrMemory (text_in (get_or values.now at Null)) result }
{
    let null = Value::Null;
    text_in(alloc, value_at(values, at, &null))
}

/// A value as a text, which is empty where it is NULL.
fn text_in(alloc: Global, value: &Value) -> Result<Units, Failure>
    ensures { IsOrMemory (text_in value.now) result }
{
    match cast_to(alloc, ANY_TEXT, value)? {
        Value::Text(units) => Ok(units),
        _ => Ok(Units::new(alloc)),
    }
}

/// The value at a place as a whole number between these; where there is none it is NULL.
fn number_at(
    alloc: Global,
    least: i64,
    most: i64,
    values: &[Value],
    at: usize,
) -> Result<i64, Failure>
    ensures came { IsOrMemory (number_between least most (get_or values.now at Null)) result }
    ensures within { IfOk result (λ number. (least ≤ℤ number) × (number ≤ℤ most)) }
{
    let null = Value::Null;
    number_between(alloc, least, most, value_at(values, at, &null))
}

/// A value as a whole number between these.
fn number_between(alloc: Global, least: i64, most: i64, value: &Value) -> Result<i64, Failure>
    ensures came { IsOrMemory (number_between least most value.now) result }
    ensures within { IfOk result (λ number. (least ≤ℤ number) × (number ≤ℤ most)) }
{
    match whole_of(alloc, value)? {
        Some(number) if least <= number && number <= most => Ok(number),
        _ => Err(Failure::plain(OUTSIDE_PROFILE)),
    }
}

/// A number as it is, and another value as an INT; what is no number is NULL.
fn whole_of(alloc: Global, value: &Value) -> Result<Option<i64>, Failure>
    ensures { IsWhole (whole_of value.now) result }
{
    match value {
        Value::Whole(number) => Ok(Some(*number)),
        _ => match cast_to(alloc, SqlType::Int, value)? {
            Value::Whole(number) => Ok(Some(number)),
            _ => Ok(None),
        },
    }
}
