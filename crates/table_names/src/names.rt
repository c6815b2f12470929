//! The tables that a tree names.

ghost use Rattle.std.specs.Prelude.{◌≡◌, [], ◌∷◌, map, option_map, OnOk};
ghost use Rattle.table_names.specs.Contents as spec;

use sqlite_items::Boxed;
use std::alloc::Global;
use std::collections::BTreeSet;
use std::marker::Model;
use tsql_tree::{Arm, Expr, FromClause, Item, Join, Select, Test};
use value_types::{Memory, Units};

/// Names of tables, each once, in the order in which they were noted first. After an `Err` those of a
/// part of what was to be noted may be among them.
#[derive(Drop)]
pub struct TableNames {
    alloc: Global,
    names: Vec<Units>,
    seen: BTreeSet<Units>,
}

impl Model for TableNames {
    ghost use Rattle.std.specs.Prelude.{ℕ, List};
    ghost use Rattle.table_names.specs.Seen.{AreSeen};

    ghost Value = { List (List ℕ) };

    ghost view = { λ of. of.names.items };

    ghost invariant = { λ of. AreSeen of.seen of.names.items };
}

impl TableNames {
    /// No names.
    pub fn new(alloc: Global) -> TableNames
        ensures { result ≡ [] }
    {
        TableNames {
            alloc,
            names: Vec::new(alloc),
            seen: BTreeSet::new(alloc),
        }
    }

    /// The names.
    pub fn into_names(self) -> Vec<Units>
        ensures { result.items ≡ self }
    {
        self.names
    }

    /// Notes a name.
    pub fn note(&mut self, name: &Units) -> Result<(), Memory>
        ensures { OnOk result (self.new ≡ spec.distinct_onto self.old (name.now ∷ [])) }
    {
        if self.seen.contains(name) {
            return Ok(());
        }
        let copy = name.copy(self.alloc)?;
        let key = name.copy(self.alloc)?;
        self.names.reserve(1)?;
        self.seen.insert(key)?;
        self.names.push(copy)?;
        Ok(())
    }

    /// Notes the tables that an expression names.
    #[cycle(names)]
    pub fn note_expr(&mut self, of: &Expr) -> Result<(), Memory>
        ensures { OnOk result (self.new ≡ spec.distinct_onto self.old (spec.in_expr of.now)) }
    {
        match of {
            Expr::Number(_) => Ok(()),
            Expr::Text(_) => Ok(()),
            Expr::Null => Ok(()),
            Expr::Variable(_) => Ok(()),
            Expr::System(_) => Ok(()),
            Expr::Column(_, _) => Ok(()),
            Expr::CountRows => Ok(()),
            Expr::Parens(a) => self.note_expr(a.get()),
            Expr::Cast(a, _) => self.note_expr(a.get()),
            Expr::Length(a) => self.note_expr(a.get()),
            Expr::Aggregate(_, _, a) => self.note_expr(a.get()),
            Expr::Signed(_, a) => self.note_expr(a.get()),
            Expr::Query(select) => self.note_select(select.get()),
            Expr::Case(arms, other) => {
                self.note_arms(arms.as_slice())?;
                match other {
                    Some(other) => self.note_expr(other.get()),
                    None => Ok(()),
                }
            }
            Expr::IsNull(a, b) => {
                self.note_expr(a.get())?;
                self.note_expr(b.get())
            }
            Expr::NullIf(a, b) => {
                self.note_expr(a.get())?;
                self.note_expr(b.get())
            }
            Expr::Coalesce(items) => self.note_exprs(items.as_slice()),
            Expr::Product(first, factors) => {
                let factors = factors.as_slice();
                self.note_expr(first.get())?;
                for factor in factors {
                    self.note_expr(&factor.operand)?;
                }
                Ok(())
            }
            Expr::Sum(first, terms) => {
                let terms = terms.as_slice();
                self.note_expr(first.get())?;
                for term in terms {
                    self.note_expr(&term.operand)?;
                }
                Ok(())
            }
        }
    }

    /// Notes the tables that a test names.
    #[cycle(names)]
    pub fn note_test(&mut self, of: &Test) -> Result<(), Memory>
        ensures { OnOk result (self.new ≡ spec.distinct_onto self.old (spec.in_test of.now)) }
    {
        match of {
            Test::Parens(a) => self.note_test(a.get()),
            Test::Not(_, a) => self.note_test(a.get()),
            Test::Exists(select) => self.note_select(select.get()),
            Test::Compare(a, _, b) => {
                self.note_expr(a.get())?;
                self.note_expr(b.get())
            }
            Test::IsNull(a, _) => self.note_expr(a.get()),
            Test::Between(a, _, low, high) => {
                self.note_expr(a.get())?;
                self.note_expr(low.get())?;
                self.note_expr(high.get())
            }
            Test::InQuery(a, _, select) => {
                self.note_expr(a.get())?;
                self.note_select(select.get())
            }
            Test::InList(a, _, items) => {
                self.note_expr(a.get())?;
                self.note_exprs(items.as_slice())
            }
            Test::And(first, rest) => {
                let rest = rest.as_slice();
                self.note_test(first.get())?;
                for test in rest {
                    self.note_test(test)?;
                }
                Ok(())
            }
            Test::Or(first, rest) => {
                let rest = rest.as_slice();
                self.note_test(first.get())?;
                for test in rest {
                    self.note_test(test)?;
                }
                Ok(())
            }
        }
    }

    /// Notes the tables that a select names.
    #[cycle(names)]
    pub fn note_select(&mut self, of: &Select) -> Result<(), Memory>
        ensures { OnOk result (self.new ≡ spec.distinct_onto self.old (spec.in_select of.now)) }
    {
        let items = of.items.as_slice();
        for item in items {
            self.note_item(item)?;
        }
        self.note_from(&of.from)?;
        self.note_filter(&of.filter)?;
        self.note_exprs(of.groups.as_slice())?;
        self.note_filter(&of.having)?;
        let order = of.order.as_slice();
        for key in order {
            self.note_expr(&key.expr)?;
        }
        Ok(())
    }

    #[cycle(names)]
    fn note_item(&mut self, of: &Item) -> Result<(), Memory>
        ensures { OnOk result (self.new ≡ spec.distinct_onto self.old (spec.in_item of.now)) }
    {
        match of {
            Item::All => Ok(()),
            Item::AllOf(_) => Ok(()),
            Item::Assign(_, a) => self.note_expr(a),
            Item::Value(a, _) => self.note_expr(a),
        }
    }

    #[cycle(names)]
    fn note_from(&mut self, of: &Option<FromClause>) -> Result<(), Memory>
        ensures { OnOk result (self.new ≡ spec.distinct_onto self.old (spec.maybe (option_map spec.in_from of.now))) }
    {
        match of {
            None => Ok(()),
            Some(from) => {
                self.note(&from.first.name)?;
                let joins = from.joins.as_slice();
                for join in joins {
                    self.note_join(join)?;
                }
                Ok(())
            }
        }
    }

    #[cycle(names)]
    fn note_join(&mut self, of: &Join) -> Result<(), Memory>
        ensures { OnOk result (self.new ≡ spec.distinct_onto self.old (spec.in_join of.now)) }
    {
        match of {
            Join::Comma(of) => self.note(&of.name),
            Join::Cross(of) => self.note(&of.name),
            Join::Inner(of, on) => {
                self.note(&of.name)?;
                self.note_test(on)
            }
            Join::Left(of, on) => {
                self.note(&of.name)?;
                self.note_test(on)
            }
        }
    }

    #[cycle(names)]
    fn note_filter(&mut self, of: &Option<Boxed<Test>>) -> Result<(), Memory>
        ensures { OnOk result (self.new ≡ spec.distinct_onto self.old (spec.maybe (option_map spec.in_test of.now))) }
    {
        match of {
            Some(test) => self.note_test(test.get()),
            None => Ok(()),
        }
    }

    #[cycle(names)]
    fn note_exprs(&mut self, items: &[Expr]) -> Result<(), Memory>
        ensures { OnOk result (self.new ≡ spec.distinct_onto self.old (spec.all_of (map spec.in_expr items.now))) }
    {
        for item in items {
            self.note_expr(item)?;
        }
        Ok(())
    }

    #[cycle(names)]
    fn note_arms(&mut self, arms: &[Arm]) -> Result<(), Memory>
        ensures { OnOk result (self.new ≡ spec.distinct_onto self.old (spec.all_of (map spec.in_arm arms.now))) }
    {
        for arm in arms {
            self.note_test(&arm.test)?;
            self.note_expr(&arm.gives)?;
        }
        Ok(())
    }
}
