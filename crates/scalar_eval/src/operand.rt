//! A value that stands somewhere, or was made.

ghost use Rattle.std.specs.Prelude.{◌≡◌, MatchOption, IfOk};
ghost use Rattle.scalar_eval.specs.Operands.{operand_value};
ghost use Rattle.value_types.specs.declared.value.Value.TheVariants.{Null};

use std::alloc::Global;
use value_types::{Memory, Value};

/// A value that an expression gives: lent by the tree or by what it reads, or made.
#[derive(Drop)]
pub(crate) enum Operand<'a> {
    /// It stands elsewhere.
    Lent(&'a Value),
    /// It was made.
    Made(Value),
}

/// What is lent, or NULL where nothing is there.
pub(crate) fn lent_or_null(value: Option<&Value>) -> Operand<'_>
    ensures { let of = operand_value result in
        MatchOption value.entry (of ≡ Null) (λ value. of ≡ value.now) }
{
    match value {
        Some(value) => Operand::Lent(value),
        None => Operand::Made(Value::Null),
    }
}

impl Operand<'_> {
    /// The value.
    pub(crate) fn get(&self) -> &Value
        ensures { result.now ≡ operand_value self.now }
    {
        match self {
            Operand::Lent(value) => value,
            Operand::Made(value) => value,
        }
    }

    /// The value, owned. It is copied where it is lent.
    pub(crate) fn into_value(self, alloc: Global) -> Result<Value, Memory>
        ensures { IfOk result (λ value. value ≡ operand_value self.entry) }
    {
        match self {
            Operand::Lent(value) => value.copy(alloc),
            Operand::Made(value) => Ok(value),
        }
    }
}
