//! The table of errors, in rows.

ghost use Rattle.std.specs.Prelude.{◌≡◌, ◌<◌, option_map, map, All, IfSome};
ghost use Rattle.error_table.specs.Text.{IsAscii};
ghost use Rattle.error_table.specs.Table.{row_of, line_of, line_among, error_lines};

use crate::action::{Action, Caught};

/// A row of the table of errors.
#[derive(Clone, Copy)]
pub struct ErrorRow {
    /// The error's number.
    pub number: i32,
    /// Its class ([MS-TDS] 2.2.7.10), which Transact-SQL calls severity.
    pub class: u8,
    /// What it ends outside TRY where XACT_ABORT is OFF.
    pub action: Action,
    /// Which TRY catches it.
    pub caught: Caught,
    /// Its text, with `{name}` or `{near}` as the placeholder of a name or lexeme.
    pub text: &'static str,
}

/// The row of this number; `None` where the table has no such row.
#[tactic(auto, unfolding(crate::specs::Table::row_of))]
pub fn row_of(number: i32) -> Option<ErrorRow>
    ensures row { option_map line_of result ≡ row_of number }
    ensures ascii { IfSome result (λ row. IsAscii row.text.now) }
{
    row_among(errors(), number)
}

/// The first of these rows with this number.
fn row_among(rows: &[ErrorRow], number: i32) -> Option<ErrorRow>
    ensures { option_map line_of result ≡ line_among (map line_of rows.now) number }
{
    for row in rows {
        if row.number == number {
            return Some(*row);
        }
    }
    None
}

/// The rows of the table.
#[tactic(auto, unfolding(crate::specs::Table::error_lines))]
fn errors() -> &'static [ErrorRow]
    ensures { map line_of result.now ≡ error_lines }
{
    &ERRORS
}

/// An array of rows, each given by its number, class, action, caught and text.
macro_rules! rows {
    ($($number:literal $class:literal $action:ident $caught:ident $text:literal,)*) => {
        [$(ErrorRow {
            number: $number,
            class: $class,
            action: Action::$action,
            caught: Caught::$caught,
            text: $text,
        }),*]
    };
}

/// The table, in the order of the numbers.
const ERRORS: [ErrorRow; 58] = rows! {
    102 15 Batch LevelUp "Incorrect syntax near '{near}'.",
    116 16 Batch LevelUp "Only one item is allowed in this subquery.",
    137 15 Batch LevelUp "Must declare the scalar variable \"{name}\".",
    207 16 Batch LevelUp "Invalid column name '{name}'.",
    208 16 Batch LevelUp "Invalid object name '{name}'.",
    209 16 Batch LevelUp "Ambiguous column name '{name}'.",
    213 16 Batch LevelUp "Column name or number of supplied values does not match table definition.",
    217 16 BatchAndTransaction Yes "Maximum nesting level exceeded (limit 32).",
    220 16 Statement Yes "Arithmetic overflow error for a small integer type.",
    244 16 BatchAndTransaction Yes "The number in the text is outside a small integer type.",
    245 16 BatchAndTransaction Yes "Conversion failed when converting text to a number.",
    248 16 BatchAndTransaction Yes "The number in the text is outside the type INT.",
    266 16 Statement Yes "Transaction count after EXECUTE differs from the count before.",
    512 16 Statement Yes "Subquery returned more than 1 value.",
    515 16 Statement Yes "Cannot insert the value NULL into column '{name}'.",
    547 16 Statement Yes "The statement conflicted with the constraint '{name}'.",
    701 17 Statement Yes "There is insufficient memory to run this statement.",
    911 16 Batch Yes "Database '{name}' does not exist.",
    1205 13 BatchAndTransaction Yes "The transaction was chosen as the deadlock victim.",
    1222 16 Statement Yes "Lock request time out period exceeded.",
    2627 14 Statement Yes "Violation of constraint '{name}'. Duplicate key.",
    2714 16 Batch Yes "There is already an object named '{name}'.",
    2812 16 Statement Yes "Could not find stored procedure '{name}'.",
    3609 16 Batch Yes "The transaction ended in the trigger. The batch has been aborted.",
    3616 16 BatchAndTransaction Yes "An error was raised during trigger execution.",
    3701 11 Statement Yes "Cannot drop '{name}', because it does not exist.",
    3726 16 Statement Yes "Cannot drop '{name}', because a foreign key refers to it.",
    3902 16 Statement Yes "COMMIT has no corresponding BEGIN TRANSACTION.",
    3903 16 Statement Yes "ROLLBACK has no corresponding BEGIN TRANSACTION.",
    3930 16 BatchAndTransaction Yes "The transaction cannot be committed and allows no write.",
    3931 16 BatchAndTransaction Yes "The transaction cannot be rolled back to a savepoint.",
    3998 16 BatchAndTransaction No "Uncommittable transaction is detected at the end of the batch.",
    6401 16 Statement Yes "No transaction or savepoint named '{name}' was found.",
    8016 16 Batch No "The remote procedure call is not served at byte {name}.",
    8114 16 BatchAndTransaction Yes "Conversion failed when converting text to BIGINT.",
    8115 16 Statement Yes "Arithmetic overflow error.",
    8120 16 Batch LevelUp "Column '{name}' is neither aggregated nor grouped.",
    8134 16 Statement Yes "Divide by zero error encountered.",
    8179 16 Statement Yes "Could not find prepared statement with handle {name}.",
    16905 16 Statement Yes "The cursor is already open.",
    16915 16 Statement Yes "A cursor with the name '{name}' already exists.",
    16916 16 Statement Yes "A cursor with the name '{name}' does not exist.",
    16917 16 Statement Yes "Cursor is not open.",
    18456 14 Batch No "Login failed.",
    49001 16 BatchAndTransaction No "Statement limit of the batch reached.",
    49002 16 BatchAndTransaction No "Result limit reached.",
    49003 16 Statement Yes "Join limit reached.",
    49004 16 Statement Yes "Option or argument is outside the profile.",
    49005 16 Statement Yes "SAVE TRANSACTION needs an open transaction.",
    49006 16 Statement Yes "Text is too long.",
    49007 16 Batch LevelUp "Definition or statement is outside the limits.",
    49008 16 Batch LevelUp "Operand type is not allowed here.",
    49009 15 Batch LevelUp "Nesting is too deep.",
    49010 16 Batch No "Login message cannot be read.",
    49011 16 Batch No "Unknown database.",
    49012 16 Statement Yes "Arguments do not match the procedure.",
    49013 15 Batch LevelUp "Variable '{name}' is declared twice.",
    49014 16 Batch No "The transaction request is not served at byte {name}.",
};
