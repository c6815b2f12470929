//! Columns, and functions by their names.

ghost use Rattle.std.specs.Prelude.{◌≡◌};
ghost use Rattle.tsql_grammar.specs.declared.rule.Rule.TheVariants as r;
ghost use Rattle.expr_reader.specs.Nests.{Nests};
ghost use Rattle.expr_reader.specs.Parts.{cast_from, length_from, count_from, system_from, aggregate_from};
ghost use Rattle.lexeme_reader.specs.Reading.{read, applied, Gives};

use crate::nested::{Found, Nested};
use crate::reader::Reader;
use lexeme_reader::{Lexemes, ReadFault, sql_type};
use sqlite_items::Boxed;
use std::alloc::Global;
use tsql_grammar::{Class, Function, Kind, Reserved};
use tsql_lexer::Sign;
use tsql_tree::{Aggregate, Expr, SystemWord};
use value_types::{Units, beside};

impl<F: Fn(Global, &mut Lexemes<'_>, usize, Nested) -> Result<Found, ReadFault>> Reader<F> {
    /// A column or a function.
    #[tactic(auto, using(crate::proofs::Equations::named_primary_is, crate::proofs::Equations::named_function_is))]
    pub(crate) fn named_primary(&self, lexemes: &mut Lexemes<'_>) -> Result<Expr, ReadFault>
        requires { Nests self.now.depth (F.pre self.now.nested) (F.post self.now.nested) }
        ensures { Gives (read r.NamedPrimary lexemes.old) result lexemes.new }
    {
        if let Some(name) = lexemes.take_units(self.alloc, Class::PlainName)? {
            return after_name(self.alloc, lexemes, name);
        }
        let Some(Kind::Function(function)) = lexemes.peek() else {
            return Err(ReadFault::NoRoom);
        };
        let name = lexemes.want_units(self.alloc, Class::One(Kind::Function(function)))?;
        self.after_function(lexemes, function, name)
    }

    /// What follows the name of a function, or of a column of its name.
    #[tactic(auto, using(crate::proofs::Equations::after_function_on))]
    pub(crate) fn after_function(
        &self,
        lexemes: &mut Lexemes<'_>,
        function: Function,
        name: Units,
    ) -> Result<Expr, ReadFault>
        requires { Nests self.now.depth (F.pre self.now.nested) (F.post self.now.nested) }
        ensures { Gives (applied name (read (r.AfterFunction function) lexemes.old)) result lexemes.new }
    {
        if lexemes.sees_any(&[Class::One(Kind::Sign(Sign::Open))]) {
            return self.function_arguments(lexemes, function);
        }
        after_name(self.alloc, lexemes, name)
    }

    /// The arguments of a function, with their parentheses.
    #[tactic(auto, using(crate::proofs::Equations::arguments_is))]
    pub fn function_arguments(
        &self,
        lexemes: &mut Lexemes<'_>,
        function: Function,
    ) -> Result<Expr, ReadFault>
        requires { Nests self.now.depth (F.pre self.now.nested) (F.post self.now.nested) }
        ensures { Gives (read (r.FunctionArguments function) lexemes.old) result lexemes.new }
    {
        match function {
            Function::Cast => self.cast(lexemes),
            Function::IsNull => self.is_null(lexemes),
            Function::Len => self.len(lexemes),
            Function::Count => self.count(lexemes),
            Function::Sum => self.aggregate(lexemes, Aggregate::Sum),
            Function::Avg => self.aggregate(lexemes, Aggregate::Avg),
            Function::Min => self.aggregate(lexemes, Aggregate::Min),
            Function::Max => self.aggregate(lexemes, Aggregate::Max),
            Function::XactState => system(lexemes, SystemWord::XactState),
            Function::ErrorNumber => system(lexemes, SystemWord::ErrorNumber),
            Function::ErrorSeverity => system(lexemes, SystemWord::ErrorSeverity),
            Function::ErrorState => system(lexemes, SystemWord::ErrorState),
            Function::ErrorLine => system(lexemes, SystemWord::ErrorLine),
            Function::ErrorMessage => system(lexemes, SystemWord::ErrorMessage),
            Function::ErrorProcedure => system(lexemes, SystemWord::ErrorProcedure),
            Function::SchemaName => system(lexemes, SystemWord::SchemaName),
            Function::DatabaseName => system(lexemes, SystemWord::DatabaseName),
            Function::UserName => system(lexemes, SystemWord::UserName),
        }
    }

    /// A CAST behind that word.
    pub(crate) fn cast(&self, lexemes: &mut Lexemes<'_>) -> Result<Expr, ReadFault>
        requires { Nests self.now.depth (F.pre self.now.nested) (F.post self.now.nested) }
        ensures { Gives (cast_from lexemes.old) result lexemes.new }
    {
        lexemes.want_sign(Sign::Open)?;
        let operand = self.nested_expr(lexemes)?;
        lexemes.want_word(Reserved::As)?;
        let kind = sql_type(lexemes)?;
        lexemes.want_sign(Sign::Close)?;
        Ok(Expr::Cast(operand, kind))
    }

    /// A LEN behind that word.
    pub(crate) fn len(&self, lexemes: &mut Lexemes<'_>) -> Result<Expr, ReadFault>
        requires { Nests self.now.depth (F.pre self.now.nested) (F.post self.now.nested) }
        ensures { Gives (length_from lexemes.old) result lexemes.new }
    {
        lexemes.want_sign(Sign::Open)?;
        let operand = self.nested_expr(lexemes)?;
        lexemes.want_sign(Sign::Close)?;
        Ok(Expr::Length(operand))
    }

    /// A COUNT behind that word.
    pub(crate) fn count(&self, lexemes: &mut Lexemes<'_>) -> Result<Expr, ReadFault>
        requires { Nests self.now.depth (F.pre self.now.nested) (F.post self.now.nested) }
        ensures { Gives (count_from lexemes.old) result lexemes.new }
    {
        lexemes.want_sign(Sign::Open)?;
        let counted = self.count_arguments(lexemes)?;
        let (counted, ()) = beside(counted, lexemes.want_sign(Sign::Close))?;
        Ok(counted)
    }

    /// What follows the parenthesis of COUNT.
    #[tactic(auto, using(crate::proofs::Equations::count_arguments_is))]
    pub(crate) fn count_arguments(&self, lexemes: &mut Lexemes<'_>) -> Result<Expr, ReadFault>
        requires { Nests self.now.depth (F.pre self.now.nested) (F.post self.now.nested) }
        ensures { Gives (read r.CountArguments lexemes.old) result lexemes.new }
    {
        if lexemes.accept_sign(Sign::Star) {
            return Ok(Expr::CountRows);
        }
        let distinct = distinct(lexemes)?;
        let operand = self.nested_expr(lexemes)?;
        Ok(Expr::Aggregate(Aggregate::Count, distinct, operand))
    }

    /// Another aggregate behind its word.
    pub(crate) fn aggregate(
        &self,
        lexemes: &mut Lexemes<'_>,
        of: Aggregate,
    ) -> Result<Expr, ReadFault>
        requires { Nests self.now.depth (F.pre self.now.nested) (F.post self.now.nested) }
        ensures { Gives (aggregate_from of lexemes.old) result lexemes.new }
    {
        lexemes.want_sign(Sign::Open)?;
        let distinct = distinct(lexemes)?;
        let operand = self.nested_expr(lexemes)?;
        lexemes.want_sign(Sign::Close)?;
        Ok(Expr::Aggregate(of, distinct, operand))
    }
}

/// DISTINCT, or nothing.
#[tactic(auto, using(crate::proofs::Equations::distinct_is))]
pub fn distinct(lexemes: &mut Lexemes<'_>) -> Result<bool, ReadFault>
    ensures { Gives (read r.Distinct lexemes.old) result lexemes.new }
{
    if lexemes.accept_word(Reserved::Distinct) {
        return Ok(true);
    }
    Ok(false)
}

/// What follows the first name of a column.
#[tactic(auto, using(crate::proofs::Equations::after_name_on))]
fn after_name(alloc: Global, lexemes: &mut Lexemes<'_>, name: Units) -> Result<Expr, ReadFault>
    ensures { Gives (applied name (read r.AfterName lexemes.old)) result lexemes.new }
{
    if !lexemes.accept_sign(Sign::Dot) {
        return Ok(Expr::Column(None, name));
    }
    let column = lexemes.want_units(alloc, Class::Name)?;
    Ok(Expr::Column(Some(Boxed::new(alloc, name)?), column))
}

/// A function without arguments, behind its word.
fn system(lexemes: &mut Lexemes<'_>, word: SystemWord) -> Result<Expr, ReadFault>
    ensures { Gives (system_from word lexemes.old) result lexemes.new }
{
    lexemes.want_sign(Sign::Open)?;
    lexemes.want_sign(Sign::Close)?;
    Ok(Expr::System(word))
}
