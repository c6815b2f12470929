//! What a COLMETADATA token says of a result's columns.

ghost use Rattle.std.specs.Prelude.{◌≡◌};

use std::marker::Model;
use value_types::{SqlType, Units};

/// One column of a result.
#[derive(Drop)]
pub struct ColumnInfo {
    /// The type of its values.
    pub kind: SqlType,
    /// Its name, which may be empty.
    pub name: Units,
}

/// The columns of a result, in order.
#[derive(Drop)]
pub struct ColumnList {
    columns: Vec<ColumnInfo>,
}

impl Model for ColumnList {
    ghost use Rattle.std.specs.Prelude.{List};
    ghost use Rattle.tds_tokens.specs.declared.columns.ColumnInfo.{ColumnInfo as Column};

    ghost Value = { List Column };

    ghost view = { λ list. list.columns.items };
}

impl From<Vec<ColumnInfo>> for ColumnList {
    ghost from_gives = { λ columns list. list ≡ columns.items };

    fn from(columns: Vec<ColumnInfo>) -> ColumnList {
        ColumnList { columns }
    }
}

impl ColumnList {
    /// The columns in order.
    pub fn as_slice(&self) -> &[ColumnInfo]
        ensures { result.now ≡ self.now }
    {
        self.columns.as_slice()
    }

    /// The columns in order, owned.
    pub fn into_vec(self) -> Vec<ColumnInfo>
        ensures { result.items ≡ self }
    {
        self.columns
    }
}
