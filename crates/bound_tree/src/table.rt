//! Rows that are read, and rows that are answered.

ghost use Rattle.std.specs.Prelude.{◌≡◌};

use sqlite_items::Items;
use std::marker::Model;
use value_types::{Row, SqlType, Units};

/// The rows of a table that were read, in the order of their keys.
#[derive(Drop)]
pub struct Image {
    rows: Vec<Row>,
}

impl Model for Image {
    ghost use Rattle.std.specs.Prelude.{List};
    ghost use Rattle.value_types.specs.declared.value.Value.{Value as SqlValue};

    ghost Value = { List (List SqlValue) };

    ghost view = { λ image. image.rows.items };
}

impl From<Vec<Row>> for Image {
    ghost from_gives = { λ rows image. image ≡ rows.items };

    fn from(rows: Vec<Row>) -> Image {
        Image { rows }
    }
}

impl Image {
    /// The rows in order.
    pub fn as_slice(&self) -> &[Row]
        ensures { result.now ≡ self.now }
    {
        self.rows.as_slice()
    }

    /// The rows in order, owned.
    pub fn into_vec(self) -> Vec<Row>
        ensures { result.items ≡ self }
    {
        self.rows
    }
}

/// What a query answers: the names and types of its columns, and its rows.
#[derive(Drop)]
pub struct Table {
    /// The names of the columns; empty where one has none.
    pub names: Items<Units>,
    /// The types of the columns.
    pub kinds: Items<SqlType>,
    /// The rows, each with a value for each column.
    pub rows: Items<Row>,
}
