//! Calls as drivers spell them: what one is run as, and which statements are prepared behind it.

ghost use Rattle.std.specs.Prelude.{◌≡◌, ◌++◌, All, IfOk, None, Some, is_some, map, option_map, pos};
ghost use Rattle.std.specs.Option.{option_copied};
ghost use Rattle.value_types.specs.declared.sql_type.SqlType.TheVariants.{Int};
ghost use Rattle.value_types.specs.declared.value.Value.TheVariants.{Whole};
ghost use Rattle.rpc_requests.specs.declared.call.DriverProcedure.TheVariants.{Reset};
ghost use Rattle.rpc_requests.specs.Drivers.{front_count};
ghost use Rattle.rpc_requests.specs.Fit.{AreDriverParameters, IsParameter};
ghost use Rattle.batch_meaning.specs.Drivers.{are_too_many, by_handle, executed, executes, finds_kept, handle_in, handle_of, is_above, is_longer, keeps, keeps_both, keeps_texts, kept_under, named_errand, optional_text, prepared_by, prepares, reset_text, served_by, short_value, shortened, source_for, sql_source, system_errand, system_taken, taken, unmatched, unprepared, way_if, with_handle, without_sent};
ghost use Rattle.batch_meaning.specs.declared.errand.Way.TheVariants.{Unknown};
ghost use Rattle.std.specs.Fmt.{signed_decimal};
ghost use Rattle.batch_meaning.specs.Rpc.{text_in};

use crate::calls::{OWN_OF_SQL, naming_text, text_in};
use crate::declarations::source_for;
use batch_meaning::{Errand, PreparedStatements, Way};
use itoa::Buffer;
use rpc_requests::{DriverCall, DriverProcedure, DriverTarget, RpcParameter, RpcParameters};
use std::alloc::Global;
use value_types::{Memory, SqlType, Units, Value};

/// How many parameters of `sp_prepexec` are its own: the handle, the declarations and the statement.
const OWN_OF_PREPARED: u8 = 3;

/// How many parameters of `sp_execute` are its own: the handle.
const OWN_OF_EXECUTE: u8 = 1;

/// How many parameters a call may have.
const MOST_PARAMETERS: usize = 10_000;

/// What a call of a driver is run as; what is kept of prepared statements becomes what is kept behind it.
pub fn take_call(
    alloc: Global,
    prepared: &mut PreparedStatements,
    call: DriverCall,
) -> Result<Errand, Memory>
    requires fits { AreDriverParameters (front_count call.target) call.parameters }
    ensures taken { IfOk result (λ errand. (errand, prepared.new) ≡ taken prepared.old call) }
    ensures fits { IfOk result (λ errand. All IsParameter errand.parameters) }
{
    let DriverCall { target, parameters } = call;
    match target {
        DriverTarget::Named(name) => named_errand(alloc, name, parameters),
        DriverTarget::System(procedure) => {
            take_served(alloc, prepared, parameters.into_vec(), procedure)
        }
    }
}

/// A call of a procedure that was created.
fn named_errand(alloc: Global, name: Units, parameters: RpcParameters) -> Result<Errand, Memory>
    ensures { IfOk result (λ errand. errand ≡ named_errand name parameters) }
{
    let text = naming_text(alloc, &name)?;
    Ok(Errand {
        way: Way::LooksUp(name),
        parameters,
        text: Some(text),
    })
}

/// A call of a procedure of the server. One that is refused for its many parameters keeps and drops nothing.
fn take_served(
    alloc: Global,
    prepared: &mut PreparedStatements,
    parameters: Vec<RpcParameter>,
    procedure: DriverProcedure,
) -> Result<Errand, Memory>
    ensures { IfOk result (λ errand. (errand, prepared.new) ≡ served_by (are_too_many parameters.items) prepared.old parameters.items procedure) }
{
    if are_too_many(parameters.as_slice()) {
        return unmatched(alloc, parameters);
    }
    take_system(alloc, prepared, parameters, procedure)
}

/// Whether these are more parameters than a call may have.
fn are_too_many(parameters: &[RpcParameter]) -> bool
    ensures { result ≡ are_too_many parameters.now }
{
    MOST_PARAMETERS < parameters.len()
}

/// The same of one that is not.
fn take_system(
    alloc: Global,
    prepared: &mut PreparedStatements,
    parameters: Vec<RpcParameter>,
    procedure: DriverProcedure,
) -> Result<Errand, Memory>
    ensures { IfOk result (λ errand. (errand, prepared.new) ≡ system_taken prepared.old parameters.items procedure) }
{
    match procedure {
        DriverProcedure::ExecuteSql => execute_sql(alloc, parameters),
        DriverProcedure::Prepare => prepare(alloc, prepared, parameters, false),
        DriverProcedure::PrepExec => prepare(alloc, prepared, parameters, true),
        DriverProcedure::Execute => execute(alloc, prepared, parameters),
        DriverProcedure::Unprepare => unprepare(alloc, prepared, parameters),
        DriverProcedure::Reset => reset(alloc, prepared, parameters),
    }
}

// ---- sp_executesql

/// A call of `sp_executesql`.
fn execute_sql(alloc: Global, parameters: Vec<RpcParameter>) -> Result<Errand, Memory>
    ensures { IfOk result (λ errand. errand ≡ executes parameters.items (sql_source parameters.items)) }
{
    let source = sql_source(alloc, parameters.as_slice())?;
    executes(alloc, parameters, source)
}

/// What is run, if there is something.
fn executes(
    alloc: Global,
    parameters: Vec<RpcParameter>,
    source: Option<(Way, Units)>,
) -> Result<Errand, Memory>
    ensures { IfOk result (λ errand. errand ≡ executes parameters.items source) }
{
    match source {
        Some((way, text)) => system_errand(alloc, way, Some(text), parameters),
        None => unmatched(alloc, parameters),
    }
}

/// The statement of `sp_executesql`, with its declarations, if there are any.
fn sql_source(alloc: Global, parameters: &[RpcParameter]) -> Result<Option<(Way, Units)>, Memory>
    ensures { IfOk result (λ source. source ≡ sql_source parameters.now) }
{
    match parameters {
        [] => Ok(None),
        [statement] => match text_in(statement) {
            Some(body) => Ok(Some(source_for(alloc, OWN_OF_SQL, &[], body)?)),
            None => Ok(None),
        },
        [statement, declarations, ..] => match (text_in(declarations), text_in(statement)) {
            (Some(declared), Some(body)) => Ok(Some(source_for(
                alloc, OWN_OF_SQL, declared, body,
            )?)),
            _ => Ok(None),
        },
    }
}

// ---- sp_prepare and sp_prepexec

/// Keeps a statement; `sp_prepexec` runs it, too.
fn prepare(
    alloc: Global,
    prepared: &mut PreparedStatements,
    parameters: Vec<RpcParameter>,
    runs: bool,
) -> Result<Errand, Memory>
    ensures { IfOk result (λ errand. (errand, prepared.new) ≡ prepares runs prepared.old parameters.items) }
{
    let handle = prepared.next_handle();
    let source = keep(alloc, prepared, parameters.as_slice())?;
    prepared_by(alloc, runs, handle, parameters, source)
}

/// Keeps the statement and the declarations that parameters give, and says what is run of them.
fn keep(
    alloc: Global,
    prepared: &mut PreparedStatements,
    parameters: &[RpcParameter],
) -> Result<Option<(Way, Units)>, Memory>
    ensures { IfOk result (λ source. (source, prepared.new) ≡ keeps prepared.old parameters.now) }
{
    match parameters {
        [] => Ok(None),
        [_] => Ok(None),
        [_, _] => Ok(None),
        [handle, declarations, statement, ..] => {
            let declared = optional_text(declarations);
            let body = text_in(statement);
            keep_texts(alloc, prepared, handle, declared, body)
        }
    }
}

/// The same of these texts, if they are.
fn keep_texts(
    alloc: Global,
    prepared: &mut PreparedStatements,
    handle: &RpcParameter,
    declarations: Option<&[u16]>,
    statement: Option<&[u16]>,
) -> Result<Option<(Way, Units)>, Memory>
    ensures { IfOk result (λ source. (source, prepared.new) ≡ keeps_texts prepared.old (handle_of handle.now) (option_copied declarations.entry) (option_copied statement.entry)) }
{
    match (declarations, statement) {
        (Some(declared), Some(body)) => keep_both(alloc, prepared, handle, declared, body),
        _ => Ok(None),
    }
}

/// The same of texts, while a handle is left. What is kept under the handle that is sent goes.
fn keep_both(
    alloc: Global,
    prepared: &mut PreparedStatements,
    handle: &RpcParameter,
    declarations: &[u16],
    statement: &[u16],
) -> Result<Option<(Way, Units)>, Memory>
    ensures { IfOk result (λ source. (source, prepared.new) ≡ keeps_both prepared.old (handle_of handle.now) declarations.now statement.now) }
{
    if !prepared.has_handle() {
        return Ok(None);
    }
    let source = source_for(alloc, OWN_OF_PREPARED, declarations, statement)?;
    drop_sent(prepared, handle);
    prepared.keep(alloc, declarations, statement)?;
    Ok(Some(source))
}

/// Keeps what is under the handle that a parameter gives no longer, if it gives one.
fn drop_sent(prepared: &mut PreparedStatements, handle: &RpcParameter)
    ensures { prepared.new ≡ without_sent (handle_of handle.now) prepared.old }
{
    let Some(number) = handle_of(handle) else {
        return;
    };
    prepared.drop_of(number);
}

/// What is run of what was kept under a handle, if something was.
fn prepared_by(
    alloc: Global,
    runs: bool,
    handle: u32,
    parameters: Vec<RpcParameter>,
    source: Option<(Way, Units)>,
) -> Result<Errand, Memory>
    ensures { IfOk result (λ errand. errand ≡ prepared_by runs handle parameters.items source) }
{
    match source {
        Some((way, text)) => {
            let parameters = with_handle(handle, parameters);
            system_errand(alloc, way_if(runs, way), Some(text), parameters)
        }
        None => unmatched(alloc, parameters),
    }
}

/// How what was kept is run, if it is.
fn way_if(runs: bool, way: Way) -> Way
    ensures { result ≡ way_if runs way }
{
    if runs { way } else { Way::Tells }
}

/// The parameters, of which the first tells a handle.
fn with_handle(handle: u32, mut parameters: Vec<RpcParameter>) -> Vec<RpcParameter>
    ensures { result.items ≡ with_handle handle parameters.items }
{
    if parameters.is_empty() {
        return parameters;
    }
    tell(&mut parameters[0], handle);
    parameters
}

/// Makes a parameter one that tells a handle.
fn tell(parameter: &mut RpcParameter, handle: u32)
    ensures { parameter.new ≡ record parameter.old { kind = Int; value = Whole (pos handle) } }
{
    parameter.kind = SqlType::Int;
    parameter.value = Value::Whole(i64::from(handle));
}

// ---- sp_execute, sp_unprepare and sp_reset_connection

/// A call of `sp_execute`.
fn execute(
    alloc: Global,
    prepared: &mut PreparedStatements,
    parameters: Vec<RpcParameter>,
) -> Result<Errand, Memory>
    ensures { IfOk result (λ errand. (errand, prepared.new) ≡ by_handle (executed prepared.old parameters.items) prepared.old parameters.items (handle_in parameters.items)) }
{
    match handle_in(parameters.as_slice()) {
        Some(handle) => execute_under(alloc, prepared, parameters, handle),
        None => unmatched(alloc, parameters),
    }
}

/// The same of this handle. What is run of it becomes what was used last.
fn execute_under(
    alloc: Global,
    prepared: &mut PreparedStatements,
    parameters: Vec<RpcParameter>,
    handle: i64,
) -> Result<Errand, Memory>
    ensures { IfOk result (λ errand. (errand, prepared.new) ≡ finds_kept (executed prepared.old parameters.items handle) prepared.old parameters.items handle (kept_under handle prepared.old)) }
{
    let source = kept_source(alloc, prepared, handle)?;
    match source {
        Some(source) => {
            prepared.use_of(handle);
            executes(alloc, parameters, Some(source))
        }
        None => unknown(alloc, parameters, handle),
    }
}

/// What is run of what is kept under a handle.
fn kept_source(
    alloc: Global,
    prepared: &PreparedStatements,
    handle: i64,
) -> Result<Option<(Way, Units)>, Memory>
    ensures { IfOk result (λ source. source ≡ option_map (λ one. source_for 1 one.declarations one.statement) (kept_under handle prepared.now)) }
{
    match prepared.find(handle) {
        Some(one) => {
            let declarations = one.declarations.as_slice();
            let statement = one.statement.as_slice();
            Ok(Some(source_for(alloc, OWN_OF_EXECUTE, declarations, statement)?))
        }
        None => Ok(None),
    }
}

/// A call of `sp_unprepare`.
fn unprepare(
    alloc: Global,
    prepared: &mut PreparedStatements,
    parameters: Vec<RpcParameter>,
) -> Result<Errand, Memory>
    ensures { IfOk result (λ errand. (errand, prepared.new) ≡ by_handle (unprepared prepared.old parameters.items) prepared.old parameters.items (handle_in parameters.items)) }
{
    match handle_in(parameters.as_slice()) {
        Some(handle) => unprepare_under(alloc, prepared, parameters, handle),
        None => unmatched(alloc, parameters),
    }
}

/// The same of this handle.
fn unprepare_under(
    alloc: Global,
    prepared: &mut PreparedStatements,
    parameters: Vec<RpcParameter>,
    handle: i64,
) -> Result<Errand, Memory>
    ensures { IfOk result (λ errand. (errand, prepared.new) ≡ finds_kept (unprepared prepared.old parameters.items handle) prepared.old parameters.items handle (kept_under handle prepared.old)) }
{
    if is_kept(prepared, handle) {
        prepared.drop_of(handle);
        system_errand(alloc, Way::Tells, None, parameters)
    } else {
        unknown(alloc, parameters, handle)
    }
}

/// Whether something is kept under a handle.
fn is_kept(prepared: &PreparedStatements, handle: i64) -> bool
    ensures { result ≡ is_some (kept_under handle prepared.now) }
{
    prepared.find(handle).is_some()
}

/// A call of `sp_reset_connection`: nothing is open or kept any longer, and options are as at first.
fn reset(
    alloc: Global,
    prepared: &mut PreparedStatements,
    parameters: Vec<RpcParameter>,
) -> Result<Errand, Memory>
    ensures { IfOk result (λ errand. (errand, prepared.new) ≡ system_taken prepared.old parameters.items Reset) }
{
    let text = reset_text(alloc)?;
    prepared.drop_all();
    system_errand(alloc, Way::RunsBatch, Some(text), parameters)
}

/// The text of a batch that does so.
fn reset_text(alloc: Global) -> Result<Units, Memory>
    ensures { IfOk result (λ text. text ≡ reset_text) }
{
    let mut text = Vec::new(alloc);
    add_ascii(
        &mut text,
        "IF @@TRANCOUNT > 0 ROLLBACK; SET XACT_ABORT OFF; SET NOCOUNT OFF; SET IMPLICIT_TRANSACTIONS OFF; ",
    )?;
    add_ascii(
        &mut text,
        "SET TRANSACTION ISOLATION LEVEL READ COMMITTED; SET LOCK_TIMEOUT -1; SET DEADLOCK_PRIORITY NORMAL",
    )?;
    Ok(Units::from(text))
}

/// Adds the units of an ASCII text.
fn add_ascii(units: &mut Vec<u16>, text: &str) -> Result<(), Memory>
    ensures { IfOk result (λ done. units.new.items ≡ units.old.items ++ text.now) }
{
    for byte in text.as_bytes() {
        units.push(u16::from(*byte))?;
    }
    Ok(())
}

/// The handle that the first parameter gives.
fn handle_in(parameters: &[RpcParameter]) -> Option<i64>
    ensures { result ≡ handle_in parameters.now }
{
    match parameters {
        [] => None,
        [handle, ..] => handle_of(handle),
    }
}

/// The same of that parameter.
fn handle_of(handle: &RpcParameter) -> Option<i64>
    ensures { result ≡ handle_of handle.now }
{
    if handle.missing {
        return None;
    }
    match &handle.value {
        Value::Whole(number) => Some(*number),
        _ => None,
    }
}

// ---- errands

/// The errand of a procedure of the server.
fn system_errand(
    alloc: Global,
    way: Way,
    text: Option<Units>,
    parameters: Vec<RpcParameter>,
) -> Result<Errand, Memory>
    ensures { IfOk result (λ errand. errand ≡ system_errand way text parameters.items) }
{
    let parameters = all_shortened(alloc, parameters)?;
    Ok(Errand {
        way,
        parameters: RpcParameters::from(parameters),
        text,
    })
}

/// The arguments are none that the procedure takes.
fn unmatched(alloc: Global, parameters: Vec<RpcParameter>) -> Result<Errand, Memory>
    ensures { IfOk result (λ errand. errand ≡ unmatched parameters.items) }
{
    system_errand(alloc, Way::Unmatched, None, parameters)
}

/// Nothing is kept under a handle.
fn unknown(alloc: Global, parameters: Vec<RpcParameter>, handle: i64) -> Result<Errand, Memory>
    ensures { IfOk result (λ errand. errand ≡ system_errand (Unknown (signed_decimal handle)) None parameters.items) }
{
    let digits = digits_of(alloc, handle)?;
    system_errand(alloc, Way::Unknown(digits), None, parameters)
}

/// A number in decimal.
fn digits_of(alloc: Global, number: i64) -> Result<Units, Memory>
    ensures { IfOk result (λ units. units ≡ signed_decimal number) }
{
    let mut buffer = Buffer::new();
    Ok(Units::of_ascii(alloc, buffer.format(number).as_bytes())?)
}

/// Each of the parameters, without a text that is longer than its type has it.
fn all_shortened(alloc: Global, parameters: Vec<RpcParameter>) -> Result<Vec<RpcParameter>, Memory>
    ensures { IfOk result (λ all. all.items ≡ map shortened parameters.items) }
{
    Ok(
        parameters
            .into_iter()
            .map(|parameter| shortened(parameter))
            .collect(alloc)?,
    )
}

/// A parameter without a text that is longer than its type has it.
fn shortened(parameter: RpcParameter) -> RpcParameter
    ensures { result ≡ shortened parameter }
{
    let RpcParameter {
        name,
        output,
        missing,
        kind,
        value,
    } = parameter;
    let is_above = is_above(kind, &value);
    RpcParameter {
        name,
        output,
        missing,
        kind,
        value: short_value(is_above, value),
    }
}

/// The value, if it isn't above its type.
fn short_value(is_above: bool, value: Value) -> Value
    ensures { result ≡ short_value is_above value }
{
    if is_above { Value::Null } else { value }
}

/// Whether this is a text of more units than its type has.
fn is_above(kind: SqlType, value: &Value) -> bool
    ensures { result ≡ is_above kind value.now }
{
    match kind {
        SqlType::NText(size) => is_longer(size, value),
        _ => false,
    }
}

/// Whether this is a text of more units.
fn is_longer(size: u16, value: &Value) -> bool
    ensures { result ≡ is_longer size value.now }
{
    match value {
        Value::Text(units) => usize::from(size) < units.len(),
        _ => false,
    }
}

/// The text that a parameter gives, which may be wanting.
fn optional_text(parameter: &RpcParameter) -> Option<&[u16]>
    ensures { option_copied result ≡ optional_text parameter.now }
{
    let none: &[u16] = &[];
    if parameter.missing {
        return Some(none);
    }
    match &parameter.value {
        Value::Text(units) => Some(units.as_slice()),
        Value::Null => Some(none),
        _ => None,
    }
}
