//! What holds of rows that fit, and of definitions as rows.

ghost use Rattle.catalog_rows.specs.Laws.{ImageTyped, OneDefinition, RowTyped, ValueOfType, WrittenRead};

/// The test of a value's type is the relation.
#[tactic(auto, using(crate::proofs::Fitting::value_of_type))]
pub fn law_value_of_type()
    ensures { ValueOfType }
{}

/// A row that fits has exactly a value for each column, of its type.
#[tactic(auto, using(crate::proofs::Fitting::row_typed))]
pub fn law_row_typed()
    ensures { RowTyped }
{}

/// An image whose rows have the columns of a table is one of the types of its columns.
pub fn law_image_typed()
    ensures { ImageTyped }
{}

/// What was written as a definition is read as it.
#[tactic(auto, using(crate::proofs::Defining::written_read))]
pub fn law_written_read()
    ensures { WrittenRead }
{}

/// A row defines one thing for a name.
#[tactic(auto, using(crate::proofs::Defining::one_definition))]
pub fn law_one_definition()
    ensures { OneDefinition }
{}
