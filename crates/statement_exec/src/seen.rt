//! What the triggers of a write see.

ghost use Rattle.std.specs.Prelude.{◌≡◌, ◌-◌, [], Ok, Some, IfOk, IfSome, get_or, length, position};
ghost use Rattle.call_rules.specs.Triggers as seen;
ghost use Rattle.table_rows.specs.Rows.{is_shape_of, shape_of};
ghost use Rattle.dml_exec.specs.Planning as planning;
ghost use Rattle.tsql_tree.specs.declared.definition.TableTree.{TableTree as Shape};
ghost use Rattle.tsql_tree.specs.Places as scope;
ghost use Rattle.batch_meaning.specs.Changing.{target_rows};
ghost use Rattle.batch_meaning.specs.Writes.{fired_by, shape_or};
ghost use Rattle.session_state.specs.Parts.{IsOrMemory};

use batch_meaning::Failure;
use bound_tree::{BoundWrite, Image};
use call_rules::trigger_images;
use dml_exec::{has_key, is_shape_of, key_places, table_written};
use session_state::{Fired, no_memory};
use sqlite_items::Items;
use std::alloc::Global;
use step_model::Planned;
use tsql_tree::TableTree;
use value_types::{Memory, Row, TableName};

/// The shape of the table that was written, with the rows that were taken away and put there. A write that is planned
/// has its table among the shapes, with a key.
pub(crate) fn seen_by_triggers(
    alloc: Global,
    shapes: Items<TableTree>,
    images: Items<Image>,
    planned: &[Planned],
    write: &BoundWrite,
) -> Result<Fired, Failure>
    ensures { (first : Shape) → IsOrMemory (Ok (fired_by (shape_or first (shape_of (planning.table_written write.now) shapes)) write.now images planned.now)) result }
{
    let Some(shape) = written_shape(shapes, table_written(write)) else {
        return Err(no_memory());
    };
    match fired_by(alloc, shape, target_rows(write, images.as_slice()), planned) {
        Ok(fired) => Ok(fired),
        Err(_) => Err(no_memory()),
    }
}

/// A shape, with the rows that were taken away from its table and put there.
fn fired_by(
    alloc: Global,
    shape: TableTree,
    rows: &[Row],
    planned: &[Planned],
) -> Result<Fired, Memory>
    ensures { IfOk result (λ fired. fired ≡ record { shape = shape; deleted = seen.deleted (scope.key_places (Some shape)) rows.now planned.now; inserted = seen.inserted planned.now }) }
{
    let (deleted, inserted) = images_seen(alloc, &shape, rows, planned)?;
    Ok(Fired {
        shape,
        deleted,
        inserted,
    })
}

/// The rows that were taken away from a table of this shape and put there.
fn images_seen(
    alloc: Global,
    shape: &TableTree,
    rows: &[Row],
    planned: &[Planned],
) -> Result<(Image, Image), Memory>
    ensures deleted { IfOk result (λ images. images.0 ≡ seen.deleted (scope.key_places (Some shape.now)) rows.now planned.now) }
    ensures inserted { IfOk result (λ images. images.1 ≡ seen.inserted planned.now) }
{
    let key = key_places(alloc, shape)?;
    if !has_key(key.as_slice()) {
        return Err(Memory);
    }
    trigger_images(alloc, key.as_slice(), rows, planned)
}

/// The shape of the table that is written.
fn written_shape(shapes: Items<TableTree>, table: &TableName) -> Option<TableTree>
    ensures { IfSome result (λ shape. shape_of table.now shapes ≡ Some shape) }
{
    let mut shapes = shapes;
    match place_of_shape(shapes.as_slice(), table) {
        Some(place) => Some(shapes.remove(place)),
        None => None,
    }
}

/// The place of the first shape of a table.
fn place_of_shape(shapes: &[TableTree], table: &TableName) -> Option<usize>
    ensures { result ≡ position (is_shape_of table.now) shapes.now }
{
    shapes.iter().position(|shape| is_shape_of(table, shape))
}

/// The rows that a write's target had when it was read; an INSERT reads none of it.
fn target_rows<'i>(write: &BoundWrite, images: &'i [Image]) -> &'i [Row]
    ensures { result.now ≡ target_rows write.now images.now }
{
    match write {
        BoundWrite::Insert { .. } => &[],
        BoundWrite::Update { .. } => last_of(images),
        BoundWrite::Delete { .. } => last_of(images),
    }
}

/// The rows of the last image, if there is one.
fn last_of(images: &[Image]) -> &[Row]
    ensures { result.now ≡ get_or images.now (length images.now - 1) [] }
{
    match images {
        [.., last] => last.as_slice(),
        [] => &[],
    }
}
