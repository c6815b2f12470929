//! What an expression is, where a clause or a sign goes by that.

ghost use Rattle.std.specs.Prelude.{◌≡◌, option_map};
ghost use Rattle.clause_binder.specs.Bind as spec;

use crate::binder::Binder;
use clause_binder::Shape;
use tsql_tree::Expr;
use value_types::Units;

impl Binder<'_, '_> {
    /// What an expression is.
    pub fn shape(&self, of: &Expr) -> Shape
        ensures { result ≡ (spec.expr_of self.now.definitions.now self.now.vars.now of.now).shape }
    {
        match of {
            Expr::Number(number) => Shape::Number(*number),
            Expr::Null => Shape::Null,
            Expr::Column(None, _) => Shape::Name,
            Expr::Column(Some(_), _) => Shape::Node,
            Expr::Text(_) => Shape::Node,
            Expr::Variable(_) => Shape::Node,
            Expr::System(_) => Shape::Node,
            Expr::Parens(_) => Shape::Node,
            Expr::Query(_) => Shape::Node,
            Expr::Case(_, _) => Shape::Node,
            Expr::Cast(_, _) => Shape::Node,
            Expr::IsNull(_, _) => Shape::Node,
            Expr::NullIf(_, _) => Shape::Node,
            Expr::Coalesce(_) => Shape::Node,
            Expr::Length(_) => Shape::Node,
            Expr::CountRows => Shape::Node,
            Expr::Aggregate(_, _, _) => Shape::Node,
            Expr::Signed(_, _) => Shape::Node,
            Expr::Product(_, _) => Shape::Node,
            Expr::Sum(_, _) => Shape::Node,
        }
    }

    /// The name of the column that an expression is, parentheses apart.
    pub fn called<'a>(&self, of: &'a Expr) -> Option<&'a Units>
        ensures { option_map (λ name. name.now) result ≡ (spec.expr_of self.now.definitions.now self.now.vars.now of.now).called }
    {
        match of {
            Expr::Column(_, name) => Some(name),
            Expr::Parens(a) => self.called(a.get()),
            Expr::Number(_) => None,
            Expr::Null => None,
            Expr::Text(_) => None,
            Expr::Variable(_) => None,
            Expr::System(_) => None,
            Expr::Query(_) => None,
            Expr::Case(_, _) => None,
            Expr::Cast(_, _) => None,
            Expr::IsNull(_, _) => None,
            Expr::NullIf(_, _) => None,
            Expr::Coalesce(_) => None,
            Expr::Length(_) => None,
            Expr::CountRows => None,
            Expr::Aggregate(_, _, _) => None,
            Expr::Signed(_, _) => None,
            Expr::Product(_, _) => None,
            Expr::Sum(_, _) => None,
        }
    }
}
