//! Rows of `objects`, the table of definitions, as they are written.

ghost use Rattle.std.specs.Prelude.{◌≡◌, IfOk};
ghost use Rattle.table_rows.specs.Definitions as spec;

use std::alloc::Global;
use tsql_tree::{Definition, TableTree};
use value_types::{Key, Memory, Row, Units, Value};

/// The units of the name `objects`.
const OBJECTS: [u16; 7] = [0x6F, 0x62, 0x6A, 0x65, 0x63, 0x74, 0x73];

/// Whether the name is that of the table of definitions.
pub fn is_objects(name: &Units) -> bool
    ensures { result ≡ spec.is_objects name.now }
{
    name.as_slice() == OBJECTS.as_slice()
}

/// The key at which the definition of this name stands.
pub fn object_key(alloc: Global, name: &Units) -> Result<Key, Memory>
    ensures { IfOk result (λ key. key ≡ spec.object_key name.now) }
{
    Ok(Key::new(vec![in alloc; Value::Text(name.copy(alloc)?)]?))
}

/// The row of a definition: its name, and its text.
pub fn row_of(alloc: Global, name: &Units, text: &Units) -> Result<Row, Memory>
    ensures { IfOk result (λ row. row ≡ spec.row_of name.now text.now) }
{
    Ok(Row::from(vec![in alloc;
        Value::Text(name.copy(alloc)?),
        Value::Text(text.copy(alloc)?),
    ]?))
}

/// The tables among definitions, in their order.
pub fn tables_of(alloc: Global, definitions: Vec<Definition>) -> Result<Vec<TableTree>, Memory>
    ensures { IfOk result (λ tables. tables.items ≡ spec.tables_of definitions.items) }
{
    let mut tables = Vec::new(alloc);
    for definition in definitions {
        if let Definition::Table(table) = definition {
            tables.push(table)?;
        }
    }
    Ok(tables)
}
