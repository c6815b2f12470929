//! Whether rows are of the types of a query's items.

ghost use Rattle.std.specs.Prelude.{◌≡◌};
ghost use Rattle.std.specs.Cmp.Lexicographic.{pointwise};
ghost use Rattle.table_rows.specs.Rows as rows;
ghost use Rattle.statement_exec.specs.Selected.{are_typed};

use bound_tree::Item;
use table_rows::is_value_of;
use value_types::Row;

/// Whether each row has a value for each item, NULL or of the item's type, and no more.
pub(crate) fn are_typed(items: &[Item], rows: &[Row]) -> bool
    ensures { result ≡ are_typed items.now rows.now }
{
    rows.iter().all(|row| is_typed(items, row))
}

/// Whether a row has a value for each item, NULL or of the item's type, and no more.
fn is_typed(items: &[Item], row: &Row) -> bool
    ensures { result ≡ pointwise (λ item value. rows.is_value_of item.kind value) items.now row.now }
{
    let mut rest = row.as_slice();
    for item in items {
        match rest {
            [value, others @ ..] if is_value_of(item.kind, value) => rest = others,
            _ => return false,
        }
    }
    rest.is_empty()
}
