//! What the parameters of a call take, and what is written back.

ghost use Rattle.std.specs.Prelude.{◌≡◌, ◌++◌, IfOk, IsTrue};
ghost use Rattle.convert_rules.specs.Errors.{error_of};
ghost use Rattle.session_vars.specs.Variables.{place_of};
ghost use Rattle.call_rules.specs.Arguments as spec;
ghost use Rattle.call_rules.specs.Found.{lent, refused_by};

use crate::fault::CallFault;
use crate::matching::matched;
use convert_rules::{ConvertFault, cast, error_of, type_of};
use session_vars::Vars;
use std::alloc::Global;
use tsql_tree::{Argument, ArgumentValue, Parameter};
use value_types::{Memory, SqlType, Units, Value};

/// The error of arguments that are not those of the procedure.
const NO_MATCH: i32 = 49012;

/// A parameter that is written back to a variable of the caller.
#[derive(Drop)]
pub struct Output {
    /// The parameter's place.
    pub place: usize,
    /// The variable's name, with its `@`.
    pub variable: Units,
}

/// Whether each variable that an argument names is declared.
pub fn are_declared(arguments: &[Argument], vars: &Vars) -> bool
    ensures { result ≡ spec.are_declared vars.now arguments.now }
{
    arguments
        .iter()
        .all(|argument| is_declared(&argument.value, vars))
}

fn is_declared(value: &ArgumentValue, vars: &Vars) -> bool
    ensures { result ≡ spec.is_declared vars.now value.now }
{
    match value {
        ArgumentValue::Constant(_) => true,
        ArgumentValue::Variable(name) => vars.find(name).is_some(),
    }
}

/// The values that a procedure's parameters take, in their order. An argument with a name is for the
/// parameter of that name, one without for the parameter at its own place. Answers 49012 where a parameter
/// has no argument, or two, an argument is for none, or OUTPUT stands on a constant or for a parameter that
/// is not OUTPUT; and else the number of the first value, in the order of the parameters, that can't be
/// converted. A text that is too long is cut.
///
/// Transact-SQL reference, "EXECUTE".
pub fn match_arguments(
    alloc: Global,
    parameters: &[Parameter],
    arguments: &[Argument],
    vars: &Vars,
) -> Result<Vec<Value>, CallFault>
    requires { IsTrue (spec.are_declared vars.now arguments.now) }
    ensures { spec.GivesItems result (spec.argument_values vars.now parameters.now arguments.now) }
{
    match matched(alloc, parameters, arguments)? {
        Some(found) => values_taken(alloc, parameters, &found, vars),
        None => Err(CallFault::Number(NO_MATCH)),
    }
}

/// The values of arguments as parameters take them.
fn values_taken(
    alloc: Global,
    parameters: &[Parameter],
    arguments: &[&Argument],
    vars: &Vars,
) -> Result<Vec<Value>, CallFault>
    ensures { spec.GivesItems result (spec.values_taken vars.now parameters.now (lent arguments.now)) }
{
    let mut values = Vec::with_capacity(alloc, parameters.len())?;
    let mut rest = parameters;
    for argument in arguments {
        let [parameter, others @ ..] = rest else {
            return Ok(values);
        };
        values.push(taken_by(alloc, parameter.kind, &argument.value, vars)?)?;
        rest = others;
    }
    Ok(values)
}

/// The value of an argument as a parameter of this type takes it.
fn taken_by(
    alloc: Global,
    kind: SqlType,
    value: &ArgumentValue,
    vars: &Vars,
) -> Result<Value, CallFault>
    ensures { spec.Gives result (spec.taken_by kind (spec.value_of vars.now value.now)) }
{
    match value {
        ArgumentValue::Constant(constant) => converted(alloc, kind, constant),
        ArgumentValue::Variable(name) => taken_from(alloc, kind, name, vars),
    }
}

/// The value of the variable of this name as a parameter of this type takes it.
fn taken_from(alloc: Global, kind: SqlType, name: &Units, vars: &Vars) -> Result<Value, CallFault>
    ensures { spec.Gives result (spec.taken_by kind (spec.value_in (spec.variable_at vars.now (place_of name.now vars.now)))) }
{
    match vars.find(name) {
        Some(place) => converted(alloc, kind, vars.get(place)),
        None => Ok(Value::Null),
    }
}

/// A value as one of this type.
fn converted(alloc: Global, kind: SqlType, value: &Value) -> Result<Value, CallFault>
    ensures { spec.Gives result (spec.taken_by kind value.now) }
{
    let from = type_of(value);
    match cast(alloc, value, from, kind) {
        Ok(value) => Ok(value),
        Err(fault) => Err(refused(fault, from, kind)),
    }
}

/// What refuses a conversion.
fn refused(fault: ConvertFault, from: SqlType, to: SqlType) -> CallFault
    ensures { result ≡ refused_by (error_of fault from to) }
{
    match error_of(fault, from, to) {
        Some(number) => CallFault::Number(number),
        None => CallFault::Memory,
    }
}

/// The parameters that are written back to variables of the caller, in their order: those for which an
/// argument has OUTPUT. None where the arguments are not those of the procedure.
///
/// Transact-SQL reference, "EXECUTE", OUTPUT.
pub fn outputs_of(
    alloc: Global,
    parameters: &[Parameter],
    arguments: &[Argument],
) -> Result<Vec<Output>, Memory>
    ensures { IfOk result (λ outputs. outputs.items ≡ spec.outputs_of parameters.now arguments.now) }
{
    match matched(alloc, parameters, arguments)? {
        Some(found) => written_back(alloc, &found),
        None => Ok(Vec::new(alloc)),
    }
}

/// The parameters that these arguments have written back.
fn written_back(alloc: Global, arguments: &[&Argument]) -> Result<Vec<Output>, Memory>
    ensures { IfOk result (λ outputs. outputs.items ≡ spec.written_back 0 (lent arguments.now)) }
{
    let mut outputs = Vec::new(alloc);
    for (place, argument) in arguments.iter().enumerate() {
        if argument.output {
            add_output(alloc, &mut outputs, place, &argument.value)?;
        }
    }
    Ok(outputs)
}

/// Adds the variable to which the parameter at a place is written back.
fn add_output(
    alloc: Global,
    outputs: &mut Vec<Output>,
    place: usize,
    value: &ArgumentValue,
) -> Result<(), Memory>
    ensures { IfOk result (λ _. outputs.new.items ≡ outputs.old.items ++ spec.written_to place value.now) }
{
    if let ArgumentValue::Variable(name) = value {
        outputs.push(Output {
            place,
            variable: name.copy(alloc)?,
        })?;
    }
    Ok(())
}
