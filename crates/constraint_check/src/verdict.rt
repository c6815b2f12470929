//! What the rows that were read say of a constraint.

ghost use Rattle.std.specs.Prelude.{◌≡◌};
ghost use Rattle.constraint_check.specs.Judged as spec;

use crate::local::CONFLICT;
use crate::{Check, CheckRead};
use bound_tree::Image;
use table_rows::has_values;
use value_types::Row;

/// A duplicate key.
const DUPLICATE: i32 = 2627;

/// The number of the error that the rows that were read give: 2627 where two rows or more agree with what is wanted by
/// a UNIQUE, 547 where none does by the FOREIGN KEY of a row, and 547 where one or more does by a FOREIGN KEY that
/// refers to a row that is gone.
pub fn judge(read: &CheckRead, image: &Image) -> Option<i32>
    ensures { result ≡ spec.judge read.now image.now }
{
    let count = agreeing(read, image.as_slice());
    match read.check {
        Check::Unique => error_where(count >= 2, DUPLICATE),
        Check::Child => error_where(count == 0, CONFLICT),
        Check::Parent => error_where(count >= 1, CONFLICT),
    }
}

/// How many rows have the values that are wanted.
fn agreeing(read: &CheckRead, rows: &[Row]) -> usize
    ensures { result ≡ spec.agreeing read.now rows.now }
{
    rows.iter().filter(|row| agrees(read, row)).count()
}

/// Whether a row has the values that are wanted.
fn agrees(read: &CheckRead, row: &Row) -> bool
    ensures { result ≡ spec.agrees read.now row.now }
{
    has_values(row, read.columns.as_slice(), read.wanted.as_slice())
}

fn error_where(broken: bool, number: i32) -> Option<i32>
    ensures { result ≡ spec.error_where broken number }
{
    if broken { Some(number) } else { None }
}
