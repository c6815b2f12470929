//! The places of kinds among all kinds, by which two of them are compared.

ghost use Rattle.std.specs.Prelude.{◌≡◌, ◌<◌};
ghost use Rattle.tsql_grammar.specs.Variants.{variant_of};
ghost use Rattle.tsql_grammar.specs.Kinds.{sign_place, option_place, function_place, word_place, reserved_place, kind_place, same_kind};

use crate::{Function, Kind, Reserved, Word};
use tsql_lexer::Sign;
use tsql_tree::FixedOption;

/// Whether two kinds are one. Most are told apart by their variants.
#[inline(always)]
pub fn same_kind(one: Kind, other: Kind) -> bool
    ensures { result ≡ same_kind one other }
{
    variant_of(one) == variant_of(other) && kind_place(one) == kind_place(other)
}

/// The same, without a call.
#[inline(always)]
pub(crate) fn is_kind(one: Kind, other: Kind) -> bool
    ensures { result ≡ same_kind one other }
{
    variant_of(one) == variant_of(other) && place_of(one) == place_of(other)
}

/// The place of the kind's variant among all variants.
#[inline(always)]
fn variant_of(kind: Kind) -> u8
    ensures { result ≡ variant_of kind }
{
    match kind {
        Kind::Number => 0,
        Kind::Text => 1,
        Kind::Variable => 2,
        Kind::Name => 3,
        Kind::Dbo => 4,
        Kind::OtherSystem => 5,
        Kind::TranCount => 6,
        Kind::Error => 7,
        Kind::RowCount => 8,
        Kind::FetchStatus => 9,
        Kind::Version => 10,
        Kind::ServerName => 11,
        Kind::MaxPrecision => 12,
        Kind::BeforeElse => 13,
        Kind::Sign(_) => 14,
        Kind::Fixed(_) => 15,
        Kind::Function(_) => 16,
        Kind::Word(_) => 17,
        Kind::Reserved(_) => 18,
    }
}

/// The place of the kind among all kinds.
#[inline(never)]
fn kind_place(kind: Kind) -> u16
    ensures { result ≡ kind_place kind }
{
    place_of(kind)
}

/// The same, without a call.
#[inline(always)]
fn place_of(kind: Kind) -> u16
    ensures { result ≡ kind_place kind }
{
    match kind {
        Kind::Number => 0,
        Kind::Text => 1,
        Kind::Variable => 2,
        Kind::Name => 3,
        Kind::Dbo => 4,
        Kind::OtherSystem => 5,
        Kind::TranCount => 6,
        Kind::Error => 7,
        Kind::RowCount => 8,
        Kind::FetchStatus => 9,
        Kind::Version => 10,
        Kind::ServerName => 11,
        Kind::MaxPrecision => 12,
        Kind::BeforeElse => 13,
        Kind::Sign(sign) => 14 + sign_place(sign),
        Kind::Fixed(option) => 30 + option_place(option),
        Kind::Function(function) => 40 + function_place(function),
        Kind::Word(word) => 58 + word_place(word),
        Kind::Reserved(word) => 95 + reserved_place(word),
    }
}

/// The place of a sign among all signs.
#[inline(always)]
fn sign_place(sign: Sign) -> u16
    ensures place { result ≡ sign_place sign }
    ensures small { result < 1000 }
{
    match sign {
        Sign::Open => 0,
        Sign::Close => 1,
        Sign::Comma => 2,
        Sign::Dot => 3,
        Sign::Semicolon => 4,
        Sign::Plus => 5,
        Sign::Minus => 6,
        Sign::Star => 7,
        Sign::Slash => 8,
        Sign::Percent => 9,
        Sign::Equal => 10,
        Sign::NotEqual => 11,
        Sign::Less => 12,
        Sign::LessEqual => 13,
        Sign::Greater => 14,
        Sign::GreaterEqual => 15,
    }
}

/// The place of an option among all such options.
#[inline(always)]
fn option_place(option: FixedOption) -> u16
    ensures place { result ≡ option_place option }
    ensures small { result < 1000 }
{
    match option {
        FixedOption::AnsiNulls => 0,
        FixedOption::AnsiNullDefaultOn => 1,
        FixedOption::AnsiPadding => 2,
        FixedOption::AnsiWarnings => 3,
        FixedOption::ArithAbort => 4,
        FixedOption::ConcatNullYieldsNull => 5,
        FixedOption::QuotedIdentifier => 6,
        FixedOption::CursorCloseOnCommit => 7,
        FixedOption::FormatOnly => 8,
        FixedOption::NumericRoundAbort => 9,
    }
}

/// The place of a function among all functions.
#[inline(always)]
fn function_place(function: Function) -> u16
    ensures place { result ≡ function_place function }
    ensures small { result < 1000 }
{
    match function {
        Function::Cast => 0,
        Function::IsNull => 1,
        Function::Len => 2,
        Function::Count => 3,
        Function::Sum => 4,
        Function::Avg => 5,
        Function::Min => 6,
        Function::Max => 7,
        Function::XactState => 8,
        Function::ErrorNumber => 9,
        Function::ErrorSeverity => 10,
        Function::ErrorState => 11,
        Function::ErrorLine => 12,
        Function::ErrorMessage => 13,
        Function::ErrorProcedure => 14,
        Function::SchemaName => 15,
        Function::DatabaseName => 16,
        Function::UserName => 17,
    }
}

/// The place of a word among all words that are not reserved.
#[inline(always)]
fn word_place(word: Word) -> u16
    ensures place { result ≡ word_place word }
    ensures small { result < 1000 }
{
    match word {
        Word::Output => 0,
        Word::TinyInt => 1,
        Word::SmallInt => 2,
        Word::Int => 3,
        Word::BigInt => 4,
        Word::Bit => 5,
        Word::NVarChar => 6,
        Word::After => 7,
        Word::Try => 8,
        Word::Catch => 9,
        Word::XactAbort => 10,
        Word::NoCount => 11,
        Word::ImplicitTransactions => 12,
        Word::Off => 13,
        Word::Isolation => 14,
        Word::Level => 15,
        Word::LockTimeout => 16,
        Word::TextSize => 17,
        Word::DeadlockPriority => 18,
        Word::Low => 19,
        Word::Normal => 20,
        Word::High => 21,
        Word::Read => 22,
        Word::Committed => 23,
        Word::Uncommitted => 24,
        Word::Repeatable => 25,
        Word::Snapshot => 26,
        Word::Serializable => 27,
        Word::Local => 28,
        Word::Global => 29,
        Word::Static => 30,
        Word::ReadOnly => 31,
        Word::Next => 32,
        Word::DateFirst => 33,
        Word::DateFormat => 34,
        Word::Language => 35,
        Word::RowCount => 36,
    }
}

/// The place of a word among all reserved words.
#[inline(always)]
fn reserved_place(word: Reserved) -> u16
    ensures place { result ≡ reserved_place word }
    ensures small { result < 1000 }
{
    match word {
        Reserved::And => 0,
        Reserved::As => 1,
        Reserved::Asc => 2,
        Reserved::Begin => 3,
        Reserved::Between => 4,
        Reserved::Break => 5,
        Reserved::By => 6,
        Reserved::Case => 7,
        Reserved::Check => 8,
        Reserved::Close => 9,
        Reserved::Coalesce => 10,
        Reserved::Commit => 11,
        Reserved::Constraint => 12,
        Reserved::Continue => 13,
        Reserved::Create => 14,
        Reserved::Cross => 15,
        Reserved::Cursor => 16,
        Reserved::Deallocate => 17,
        Reserved::Declare => 18,
        Reserved::Delete => 19,
        Reserved::Desc => 20,
        Reserved::Distinct => 21,
        Reserved::Drop => 22,
        Reserved::Else => 23,
        Reserved::End => 24,
        Reserved::Execute => 25,
        Reserved::Exists => 26,
        Reserved::Fetch => 27,
        Reserved::For => 28,
        Reserved::Foreign => 29,
        Reserved::From => 30,
        Reserved::Group => 31,
        Reserved::Having => 32,
        Reserved::If => 33,
        Reserved::In => 34,
        Reserved::Inner => 35,
        Reserved::Insert => 36,
        Reserved::Into => 37,
        Reserved::Is => 38,
        Reserved::Join => 39,
        Reserved::Key => 40,
        Reserved::Left => 41,
        Reserved::Not => 42,
        Reserved::Null => 43,
        Reserved::NullIf => 44,
        Reserved::On => 45,
        Reserved::Open => 46,
        Reserved::Or => 47,
        Reserved::Order => 48,
        Reserved::Outer => 49,
        Reserved::Primary => 50,
        Reserved::Print => 51,
        Reserved::Procedure => 52,
        Reserved::RaiseError => 53,
        Reserved::References => 54,
        Reserved::Return => 55,
        Reserved::Rollback => 56,
        Reserved::Save => 57,
        Reserved::Select => 58,
        Reserved::Set => 59,
        Reserved::Table => 60,
        Reserved::Then => 61,
        Reserved::Throw => 62,
        Reserved::Top => 63,
        Reserved::Tran => 64,
        Reserved::Transaction => 65,
        Reserved::Trigger => 66,
        Reserved::Unique => 67,
        Reserved::Update => 68,
        Reserved::Use => 69,
        Reserved::Values => 70,
        Reserved::When => 71,
        Reserved::Where => 72,
        Reserved::While => 73,
        Reserved::LeftOut => 74,
    }
}
