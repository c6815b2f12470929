//! Reading types and columns.

ghost use Rattle.std.specs.Prelude.{◌≡◌};
ghost use Rattle.tds_tokens.specs.Reading.{Gives, type_at, text_type_at, column_at, columns_at, times};

use crate::columns::{ColumnInfo, ColumnList};
use crate::fault::ReadFault;
use crate::reading::fields::{after, b_varchar, behind, half_at, u16_at};
use crate::wire::{BITNTYPE, COLLATION, COLUMN_START, INTNTYPE, NVARCHARTYPE};
use std::alloc::Global;
use value_types::SqlType;

/// The columns that a COLMETADATA token describes behind its tag.
#[tactic(auto, unfolding(crate::specs::Reading::columns_at))]
pub(super) fn columns_at(alloc: Global, bytes: &[u8]) -> Result<(ColumnList, &[u8]), ReadFault>
    ensures { Gives (λ x. (x.0, x.1.now)) result (columns_at bytes.now) }
{
    let (count, rest) = u16_at(bytes)?;
    let (columns, rest) = columns_of(alloc, count, rest)?;
    Ok((ColumnList::from(columns), rest))
}

/// So many columns.
fn columns_of(
    alloc: Global,
    count: u16,
    bytes: &[u8],
) -> Result<(Vec<ColumnInfo>, &[u8]), ReadFault>
    ensures { Gives (λ x. (x.0.items, x.1.now)) result (times count column_at bytes.now) }
{
    let mut columns = Vec::new(alloc);
    let mut rest = bytes;
    for _ in 0..count {
        let (column, behind) = column_at(alloc, rest)?;
        columns.push(column)?;
        rest = behind;
    }
    Ok((columns, rest))
}

/// A column: what stands before its type, the type and the name.
#[tactic(auto, unfolding(crate::specs::Reading::column_at))]
fn column_at(alloc: Global, bytes: &[u8]) -> Result<(ColumnInfo, &[u8]), ReadFault>
    ensures { Gives (λ x. (x.0, x.1.now)) result (column_at bytes.now) }
{
    let rest = after(&COLUMN_START, bytes)?;
    let (kind, rest) = type_at(rest)?;
    let (name, rest) = b_varchar(alloc, rest)?;
    Ok((ColumnInfo { kind, name }, rest))
}

/// A type.
#[tactic(auto, unfolding(crate::specs::Reading::type_at))]
pub(super) fn type_at(bytes: &[u8]) -> Result<(SqlType, &[u8]), ReadFault>
    ensures { Gives (λ x. (x.0, x.1.now)) result (type_at bytes.now) }
{
    if let Some(rest) = behind(&[INTNTYPE, 1], bytes) {
        return Ok((SqlType::TinyInt, rest));
    }
    if let Some(rest) = behind(&[INTNTYPE, 2], bytes) {
        return Ok((SqlType::SmallInt, rest));
    }
    if let Some(rest) = behind(&[INTNTYPE, 4], bytes) {
        return Ok((SqlType::Int, rest));
    }
    if let Some(rest) = behind(&[INTNTYPE, 8], bytes) {
        return Ok((SqlType::BigInt, rest));
    }
    if let Some(rest) = behind(&[BITNTYPE, 1], bytes) {
        return Ok((SqlType::Bit, rest));
    }
    text_type_at(bytes)
}

/// The type of texts, with its size.
#[tactic(auto, unfolding(crate::specs::Reading::text_type_at))]
fn text_type_at(bytes: &[u8]) -> Result<(SqlType, &[u8]), ReadFault>
    ensures { Gives (λ x. (x.0, x.1.now)) result (text_type_at bytes.now) }
{
    let rest = after(&[NVARCHARTYPE], bytes)?;
    let (size, rest) = half_at(rest)?;
    let rest = after(&COLLATION, rest)?;
    Ok((SqlType::NText(size), rest))
}
