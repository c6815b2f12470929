//! The words that the grammar knows, and the kind of a lexeme.

ghost use Rattle.std.specs.Prelude.{◌≡◌, map, min};
ghost use Rattle.value_types.specs.Units.{same_units};
ghost use Rattle.tsql_grammar.specs.WordLetters.{place_of, words_at};
ghost use Rattle.tsql_grammar.specs.Words.{capital, is_date_order, is_language, is_one_of, look_up, name_kind, word_kind, system_kind, kind_of};

use crate::{Function, Kind, Reserved, Word};
use tsql_lexer::Lexeme;
use tsql_tree::FixedOption;
use value_types::Units;

/// What a lexeme is to the grammar, apart from what stands behind it.
pub fn kind_of(lexeme: &Lexeme) -> Kind
    ensures { result ≡ kind_of lexeme.now }
{
    match lexeme {
        Lexeme::Word(word) => word_kind(word),
        Lexeme::Quoted(name) => name_kind(name),
        Lexeme::Variable(_) => Kind::Variable,
        Lexeme::SystemName(name) => system_kind(name),
        Lexeme::Number(_) => Kind::Number,
        Lexeme::Text(_) => Kind::Text,
        Lexeme::Sign(sign) => Kind::Sign(*sign),
    }
}

fn word_kind(word: &Units) -> Kind
    ensures { result ≡ word_kind word.now }
{
    let units = word.as_slice();
    look_up(words_at(place_of(units)), units, name_kind(word))
}

/// The place of the letter that a word begins with, counted from A; what stands before A is at its place.
fn place_of(word: &[u16]) -> u16
    ensures { result ≡ place_of (map capital word.now) }
{
    match word.first() {
        None => 0,
        Some(unit) => capital(*unit).saturating_sub(LETTER_A),
    }
}

/// The words that begin with the letter at a place by their capitals, and their kinds.
fn words_at(place: u16) -> &'static [(&'static [u8], Kind)]
    ensures { map (λ row. (row.0.now, row.1)) result.now ≡ words_at (min place 24) }
{
    match place {
        0 => &OF_A,
        1 => &OF_B,
        2 => &OF_C,
        3 => &OF_D,
        4 => &OF_E,
        5 => &OF_F,
        6 => &OF_G,
        7 => &OF_H,
        8 => &OF_I,
        9 => &OF_J,
        10 => &OF_K,
        11 => &OF_L,
        12 => &OF_M,
        13 => &OF_N,
        14 => &OF_O,
        15 => &OF_P,
        16 => &OF_Q,
        17 => &OF_R,
        18 => &OF_S,
        19 => &OF_T,
        20 => &OF_U,
        21 => &OF_V,
        22 => &OF_W,
        23 => &OF_X,
        _ => &OF_NONE,
    }
}

fn system_kind(name: &Units) -> Kind
    ensures { result ≡ system_kind name.now }
{
    look_up(&SYSTEM_SPELLINGS, name.as_slice(), Kind::OtherSystem)
}

/// A name is `dbo`, with that case, or it is nothing else.
fn name_kind(name: &Units) -> Kind
    ensures { result ≡ name_kind name.now }
{
    match name.as_slice() {
        [0x64, 0x62, 0x6F] => Kind::Dbo,
        _ => Kind::Name,
    }
}

/// Whether the name is an order of day, month and year, whatever its case.
pub fn is_date_order(name: &Units) -> bool
    ensures { result ≡ is_date_order name.now }
{
    is_one_of(&DATE_ORDERS, name.as_slice())
}

/// Whether the name is one of the one language, whatever its case.
pub fn is_language(name: &Units) -> bool
    ensures { result ≡ is_language name.now }
{
    is_one_of(&LANGUAGES, name.as_slice())
}

/// Whether the name has the capitals of one of these words.
fn is_one_of(mut words: &[&[u8]], name: &[u16]) -> bool
    ensures { result ≡ is_one_of (map (λ word. word.now) words.entry.now) name.now }
{
    while let [word, rest @ ..] = words {
        if is_spelling(*word, name) {
            return true;
        }
        words = rest;
    }
    false
}

/// The kind that a table gives to a word, or the one for all others.
fn look_up(mut table: &[(&[u8], Kind)], word: &[u16], other: Kind) -> Kind
    ensures { result ≡ look_up (map (λ row. (row.0.now, row.1)) table.entry.now) (map capital word.now) other }
{
    while let [row, rest @ ..] = table {
        if is_spelling(row.0, word) {
            return row.1;
        }
        table = rest;
    }
    other
}

/// Whether the word has these capitals.
fn is_spelling(mut capitals: &[u8], mut word: &[u16]) -> bool
    ensures { result ≡ same_units capitals.entry.now (map capital word.entry.now) }
{
    while let [letter, letters @ ..] = capitals {
        let [unit, units @ ..] = word else {
            return false;
        };
        if u16::from(*letter) != capital(*unit) {
            return false;
        }
        capitals = letters;
        word = units;
    }
    word.is_empty()
}

/// The capital of a unit, if it is one of the letters a to z.
fn capital(unit: u16) -> u16
    ensures { result ≡ capital unit }
{
    if (0x61..=0x7A).contains(&unit) {
        unit - 0x20
    } else {
        unit
    }
}

/// `A`
const LETTER_A: u16 = 0x41;

/// No words.
const OF_NONE: [(&[u8], Kind); 0] = [];

/// The words that begin with A.
const OF_A: [(&[u8], Kind); 10] = [
    (b"AND", Kind::Reserved(Reserved::And)),
    (b"AS", Kind::Reserved(Reserved::As)),
    (b"ASC", Kind::Reserved(Reserved::Asc)),
    (b"AFTER", Kind::Word(Word::After)),
    (b"AVG", Kind::Function(Function::Avg)),
    (b"ANSI_NULLS", Kind::Fixed(FixedOption::AnsiNulls)),
    (
        b"ANSI_NULL_DFLT_ON",
        Kind::Fixed(FixedOption::AnsiNullDefaultOn),
    ),
    (b"ANSI_PADDING", Kind::Fixed(FixedOption::AnsiPadding)),
    (b"ANSI_WARNINGS", Kind::Fixed(FixedOption::AnsiWarnings)),
    (b"ARITHABORT", Kind::Fixed(FixedOption::ArithAbort)),
];

/// The words that begin with B.
const OF_B: [(&[u8], Kind); 6] = [
    (b"BEGIN", Kind::Reserved(Reserved::Begin)),
    (b"BETWEEN", Kind::Reserved(Reserved::Between)),
    (b"BREAK", Kind::Reserved(Reserved::Break)),
    (b"BY", Kind::Reserved(Reserved::By)),
    (b"BIGINT", Kind::Word(Word::BigInt)),
    (b"BIT", Kind::Word(Word::Bit)),
];

/// The words that begin with C.
const OF_C: [(&[u8], Kind); 16] = [
    (b"CASE", Kind::Reserved(Reserved::Case)),
    (b"CHECK", Kind::Reserved(Reserved::Check)),
    (b"CLOSE", Kind::Reserved(Reserved::Close)),
    (b"COALESCE", Kind::Reserved(Reserved::Coalesce)),
    (b"COMMIT", Kind::Reserved(Reserved::Commit)),
    (b"CONSTRAINT", Kind::Reserved(Reserved::Constraint)),
    (b"CONTINUE", Kind::Reserved(Reserved::Continue)),
    (b"CREATE", Kind::Reserved(Reserved::Create)),
    (b"CROSS", Kind::Reserved(Reserved::Cross)),
    (b"CURSOR", Kind::Reserved(Reserved::Cursor)),
    (b"CATCH", Kind::Word(Word::Catch)),
    (b"COMMITTED", Kind::Word(Word::Committed)),
    (b"CAST", Kind::Function(Function::Cast)),
    (b"COUNT", Kind::Function(Function::Count)),
    (
        b"CONCAT_NULL_YIELDS_NULL",
        Kind::Fixed(FixedOption::ConcatNullYieldsNull),
    ),
    (
        b"CURSOR_CLOSE_ON_COMMIT",
        Kind::Fixed(FixedOption::CursorCloseOnCommit),
    ),
];

/// The words that begin with D.
const OF_D: [(&[u8], Kind); 10] = [
    (b"DEALLOCATE", Kind::Reserved(Reserved::Deallocate)),
    (b"DECLARE", Kind::Reserved(Reserved::Declare)),
    (b"DELETE", Kind::Reserved(Reserved::Delete)),
    (b"DESC", Kind::Reserved(Reserved::Desc)),
    (b"DISTINCT", Kind::Reserved(Reserved::Distinct)),
    (b"DROP", Kind::Reserved(Reserved::Drop)),
    (b"DEADLOCK_PRIORITY", Kind::Word(Word::DeadlockPriority)),
    (b"DATEFIRST", Kind::Word(Word::DateFirst)),
    (b"DATEFORMAT", Kind::Word(Word::DateFormat)),
    (b"DB_NAME", Kind::Function(Function::DatabaseName)),
];

/// The words that begin with E.
const OF_E: [(&[u8], Kind); 12] = [
    (b"ELSE", Kind::Reserved(Reserved::Else)),
    (b"END", Kind::Reserved(Reserved::End)),
    (b"EXEC", Kind::Reserved(Reserved::Execute)),
    (b"EXECUTE", Kind::Reserved(Reserved::Execute)),
    (b"EXISTS", Kind::Reserved(Reserved::Exists)),
    (b"EXCEPT", Kind::Reserved(Reserved::LeftOut)),
    (b"ERROR_NUMBER", Kind::Function(Function::ErrorNumber)),
    (b"ERROR_SEVERITY", Kind::Function(Function::ErrorSeverity)),
    (b"ERROR_STATE", Kind::Function(Function::ErrorState)),
    (b"ERROR_LINE", Kind::Function(Function::ErrorLine)),
    (b"ERROR_MESSAGE", Kind::Function(Function::ErrorMessage)),
    (b"ERROR_PROCEDURE", Kind::Function(Function::ErrorProcedure)),
];

/// The words that begin with F.
const OF_F: [(&[u8], Kind); 6] = [
    (b"FETCH", Kind::Reserved(Reserved::Fetch)),
    (b"FOR", Kind::Reserved(Reserved::For)),
    (b"FOREIGN", Kind::Reserved(Reserved::Foreign)),
    (b"FROM", Kind::Reserved(Reserved::From)),
    (b"FULL", Kind::Reserved(Reserved::LeftOut)),
    (b"FMTONLY", Kind::Fixed(FixedOption::FormatOnly)),
];

/// The words that begin with G.
const OF_G: [(&[u8], Kind); 2] = [
    (b"GROUP", Kind::Reserved(Reserved::Group)),
    (b"GLOBAL", Kind::Word(Word::Global)),
];

/// The words that begin with H.
const OF_H: [(&[u8], Kind); 2] = [
    (b"HAVING", Kind::Reserved(Reserved::Having)),
    (b"HIGH", Kind::Word(Word::High)),
];

/// The words that begin with I.
const OF_I: [(&[u8], Kind); 12] = [
    (b"IF", Kind::Reserved(Reserved::If)),
    (b"IN", Kind::Reserved(Reserved::In)),
    (b"INNER", Kind::Reserved(Reserved::Inner)),
    (b"INSERT", Kind::Reserved(Reserved::Insert)),
    (b"INTO", Kind::Reserved(Reserved::Into)),
    (b"IS", Kind::Reserved(Reserved::Is)),
    (b"INTERSECT", Kind::Reserved(Reserved::LeftOut)),
    (b"INT", Kind::Word(Word::Int)),
    (b"INTEGER", Kind::Word(Word::Int)),
    (
        b"IMPLICIT_TRANSACTIONS",
        Kind::Word(Word::ImplicitTransactions),
    ),
    (b"ISOLATION", Kind::Word(Word::Isolation)),
    (b"ISNULL", Kind::Function(Function::IsNull)),
];

/// The words that begin with J.
const OF_J: [(&[u8], Kind); 1] = [(b"JOIN", Kind::Reserved(Reserved::Join))];

/// The words that begin with K.
const OF_K: [(&[u8], Kind); 1] = [(b"KEY", Kind::Reserved(Reserved::Key))];

/// The words that begin with L.
const OF_L: [(&[u8], Kind); 7] = [
    (b"LEFT", Kind::Reserved(Reserved::Left)),
    (b"LEVEL", Kind::Word(Word::Level)),
    (b"LOCK_TIMEOUT", Kind::Word(Word::LockTimeout)),
    (b"LOW", Kind::Word(Word::Low)),
    (b"LOCAL", Kind::Word(Word::Local)),
    (b"LANGUAGE", Kind::Word(Word::Language)),
    (b"LEN", Kind::Function(Function::Len)),
];

/// The words that begin with M.
const OF_M: [(&[u8], Kind); 2] = [
    (b"MIN", Kind::Function(Function::Min)),
    (b"MAX", Kind::Function(Function::Max)),
];

/// The words that begin with N.
const OF_N: [(&[u8], Kind); 8] = [
    (b"NOT", Kind::Reserved(Reserved::Not)),
    (b"NULL", Kind::Reserved(Reserved::Null)),
    (b"NULLIF", Kind::Reserved(Reserved::NullIf)),
    (b"NVARCHAR", Kind::Word(Word::NVarChar)),
    (b"NOCOUNT", Kind::Word(Word::NoCount)),
    (b"NORMAL", Kind::Word(Word::Normal)),
    (b"NEXT", Kind::Word(Word::Next)),
    (
        b"NUMERIC_ROUNDABORT",
        Kind::Fixed(FixedOption::NumericRoundAbort),
    ),
];

/// The words that begin with O.
const OF_O: [(&[u8], Kind); 8] = [
    (b"ON", Kind::Reserved(Reserved::On)),
    (b"OPEN", Kind::Reserved(Reserved::Open)),
    (b"OR", Kind::Reserved(Reserved::Or)),
    (b"ORDER", Kind::Reserved(Reserved::Order)),
    (b"OUTER", Kind::Reserved(Reserved::Outer)),
    (b"OUT", Kind::Word(Word::Output)),
    (b"OUTPUT", Kind::Word(Word::Output)),
    (b"OFF", Kind::Word(Word::Off)),
];

/// The words that begin with P.
const OF_P: [(&[u8], Kind); 4] = [
    (b"PRIMARY", Kind::Reserved(Reserved::Primary)),
    (b"PRINT", Kind::Reserved(Reserved::Print)),
    (b"PROC", Kind::Reserved(Reserved::Procedure)),
    (b"PROCEDURE", Kind::Reserved(Reserved::Procedure)),
];

/// The words that begin with Q.
const OF_Q: [(&[u8], Kind); 1] = [(
    b"QUOTED_IDENTIFIER",
    Kind::Fixed(FixedOption::QuotedIdentifier),
)];

/// The words that begin with R.
const OF_R: [(&[u8], Kind); 9] = [
    (b"RAISERROR", Kind::Reserved(Reserved::RaiseError)),
    (b"REFERENCES", Kind::Reserved(Reserved::References)),
    (b"RETURN", Kind::Reserved(Reserved::Return)),
    (b"ROLLBACK", Kind::Reserved(Reserved::Rollback)),
    (b"RIGHT", Kind::Reserved(Reserved::LeftOut)),
    (b"READ", Kind::Word(Word::Read)),
    (b"REPEATABLE", Kind::Word(Word::Repeatable)),
    (b"READ_ONLY", Kind::Word(Word::ReadOnly)),
    (b"ROWCOUNT", Kind::Word(Word::RowCount)),
];

/// The words that begin with S.
const OF_S: [(&[u8], Kind); 9] = [
    (b"SAVE", Kind::Reserved(Reserved::Save)),
    (b"SELECT", Kind::Reserved(Reserved::Select)),
    (b"SET", Kind::Reserved(Reserved::Set)),
    (b"SMALLINT", Kind::Word(Word::SmallInt)),
    (b"SNAPSHOT", Kind::Word(Word::Snapshot)),
    (b"SERIALIZABLE", Kind::Word(Word::Serializable)),
    (b"STATIC", Kind::Word(Word::Static)),
    (b"SUM", Kind::Function(Function::Sum)),
    (b"SCHEMA_NAME", Kind::Function(Function::SchemaName)),
];

/// The words that begin with T.
const OF_T: [(&[u8], Kind); 10] = [
    (b"TABLE", Kind::Reserved(Reserved::Table)),
    (b"THEN", Kind::Reserved(Reserved::Then)),
    (b"THROW", Kind::Reserved(Reserved::Throw)),
    (b"TOP", Kind::Reserved(Reserved::Top)),
    (b"TRAN", Kind::Reserved(Reserved::Tran)),
    (b"TRANSACTION", Kind::Reserved(Reserved::Transaction)),
    (b"TRIGGER", Kind::Reserved(Reserved::Trigger)),
    (b"TINYINT", Kind::Word(Word::TinyInt)),
    (b"TRY", Kind::Word(Word::Try)),
    (b"TEXTSIZE", Kind::Word(Word::TextSize)),
];

/// The words that begin with U.
const OF_U: [(&[u8], Kind); 6] = [
    (b"UNIQUE", Kind::Reserved(Reserved::Unique)),
    (b"UPDATE", Kind::Reserved(Reserved::Update)),
    (b"USE", Kind::Reserved(Reserved::Use)),
    (b"UNION", Kind::Reserved(Reserved::LeftOut)),
    (b"UNCOMMITTED", Kind::Word(Word::Uncommitted)),
    (b"USER_NAME", Kind::Function(Function::UserName)),
];

/// The words that begin with V.
const OF_V: [(&[u8], Kind); 1] = [(b"VALUES", Kind::Reserved(Reserved::Values))];

/// The words that begin with W.
const OF_W: [(&[u8], Kind); 3] = [
    (b"WHEN", Kind::Reserved(Reserved::When)),
    (b"WHERE", Kind::Reserved(Reserved::Where)),
    (b"WHILE", Kind::Reserved(Reserved::While)),
];

/// The words that begin with X.
const OF_X: [(&[u8], Kind); 2] = [
    (b"XACT_ABORT", Kind::Word(Word::XactAbort)),
    (b"XACT_STATE", Kind::Function(Function::XactState)),
];

/// The names of the session's values, and of what the server says of itself, by their capitals.
const SYSTEM_SPELLINGS: [(&[u8], Kind); 7] = [
    (b"@@TRANCOUNT", Kind::TranCount),
    (b"@@ERROR", Kind::Error),
    (b"@@ROWCOUNT", Kind::RowCount),
    (b"@@FETCH_STATUS", Kind::FetchStatus),
    (b"@@VERSION", Kind::Version),
    (b"@@SERVERNAME", Kind::ServerName),
    (b"@@MAX_PRECISION", Kind::MaxPrecision),
];

/// The orders of day, month and year by their capitals.
const DATE_ORDERS: [&[u8]; 6] = [b"MDY", b"DMY", b"YMD", b"YDM", b"MYD", b"DYM"];

/// The names of the one language by their capitals.
const LANGUAGES: [&[u8]; 2] = [b"US_ENGLISH", b"ENGLISH"];
