//! The lexemes of productions, by name.

use crate::symbol::Symbol;
use tsql_grammar::{Class, Kind, Reserved, Word};
use tsql_lexer::Sign;

pub(crate) const PAREN_OPEN: Symbol = Symbol::Lexeme(Class::One(Kind::Sign(Sign::Open)));

pub(crate) const AS: Symbol = Symbol::Lexeme(Class::One(Kind::Reserved(Reserved::As)));

pub(crate) const PAREN_CLOSE: Symbol = Symbol::Lexeme(Class::One(Kind::Sign(Sign::Close)));

pub(crate) const COMMA: Symbol = Symbol::Lexeme(Class::One(Kind::Sign(Sign::Comma)));

pub(crate) const CREATE: Symbol = Symbol::Lexeme(Class::One(Kind::Reserved(Reserved::Create)));

pub(crate) const SEMICOLON: Symbol = Symbol::Lexeme(Class::Semicolon);

pub(crate) const PROCEDURE: Symbol = Symbol::Lexeme(Class::One(Kind::Reserved(
    Reserved::Procedure,
)));

pub(crate) const TRIGGER: Symbol = Symbol::Lexeme(Class::One(Kind::Reserved(Reserved::Trigger)));

pub(crate) const ON: Symbol = Symbol::Lexeme(Class::One(Kind::Reserved(Reserved::On)));

pub(crate) const AFTER: Symbol = Symbol::Lexeme(Class::One(Kind::Word(Word::After)));

pub(crate) const FOR: Symbol = Symbol::Lexeme(Class::One(Kind::Reserved(Reserved::For)));

pub(crate) const INSERT: Symbol = Symbol::Lexeme(Class::One(Kind::Reserved(Reserved::Insert)));

pub(crate) const UPDATE: Symbol = Symbol::Lexeme(Class::One(Kind::Reserved(Reserved::Update)));

pub(crate) const DELETE: Symbol = Symbol::Lexeme(Class::One(Kind::Reserved(Reserved::Delete)));

pub(crate) const VARIABLE: Symbol = Symbol::Lexeme(Class::One(Kind::Variable));

pub(crate) const OUTPUT: Symbol = Symbol::Lexeme(Class::One(Kind::Word(Word::Output)));

pub(crate) const OTHER_NAME: Symbol = Symbol::Lexeme(Class::OtherName);

pub(crate) const DBO: Symbol = Symbol::Lexeme(Class::One(Kind::Dbo));

pub(crate) const DOT: Symbol = Symbol::Lexeme(Class::One(Kind::Sign(Sign::Dot)));

pub(crate) const NAME: Symbol = Symbol::Lexeme(Class::Name);

pub(crate) const TINY_INT: Symbol = Symbol::Lexeme(Class::One(Kind::Word(Word::TinyInt)));

pub(crate) const SMALL_INT: Symbol = Symbol::Lexeme(Class::One(Kind::Word(Word::SmallInt)));

pub(crate) const INT: Symbol = Symbol::Lexeme(Class::One(Kind::Word(Word::Int)));

pub(crate) const BIG_INT: Symbol = Symbol::Lexeme(Class::One(Kind::Word(Word::BigInt)));

pub(crate) const BIT: Symbol = Symbol::Lexeme(Class::One(Kind::Word(Word::Bit)));

pub(crate) const N_VAR_CHAR: Symbol = Symbol::Lexeme(Class::One(Kind::Word(Word::NVarChar)));

pub(crate) const NUMBER: Symbol = Symbol::Lexeme(Class::One(Kind::Number));

pub(crate) const SELECT: Symbol = Symbol::Lexeme(Class::One(Kind::Reserved(Reserved::Select)));

pub(crate) const SET: Symbol = Symbol::Lexeme(Class::One(Kind::Reserved(Reserved::Set)));

pub(crate) const DROP: Symbol = Symbol::Lexeme(Class::One(Kind::Reserved(Reserved::Drop)));

pub(crate) const IF: Symbol = Symbol::Lexeme(Class::One(Kind::Reserved(Reserved::If)));

pub(crate) const WHILE: Symbol = Symbol::Lexeme(Class::One(Kind::Reserved(Reserved::While)));

pub(crate) const BEGIN: Symbol = Symbol::Lexeme(Class::One(Kind::Reserved(Reserved::Begin)));

pub(crate) const PRINT: Symbol = Symbol::Lexeme(Class::One(Kind::Reserved(Reserved::Print)));

pub(crate) const RAISE_ERROR: Symbol = Symbol::Lexeme(Class::One(Kind::Reserved(
    Reserved::RaiseError,
)));

pub(crate) const RETURN: Symbol = Symbol::Lexeme(Class::One(Kind::Reserved(Reserved::Return)));

pub(crate) const THROW: Symbol = Symbol::Lexeme(Class::One(Kind::Reserved(Reserved::Throw)));

pub(crate) const DECLARE: Symbol = Symbol::Lexeme(Class::One(Kind::Reserved(Reserved::Declare)));

pub(crate) const COMMIT: Symbol = Symbol::Lexeme(Class::One(Kind::Reserved(Reserved::Commit)));

pub(crate) const ROLLBACK: Symbol = Symbol::Lexeme(Class::One(Kind::Reserved(Reserved::Rollback)));

pub(crate) const SAVE: Symbol = Symbol::Lexeme(Class::One(Kind::Reserved(Reserved::Save)));

pub(crate) const OPEN: Symbol = Symbol::Lexeme(Class::One(Kind::Reserved(Reserved::Open)));

pub(crate) const FETCH: Symbol = Symbol::Lexeme(Class::One(Kind::Reserved(Reserved::Fetch)));

pub(crate) const FROM: Symbol = Symbol::Lexeme(Class::One(Kind::Reserved(Reserved::From)));

pub(crate) const INTO: Symbol = Symbol::Lexeme(Class::One(Kind::Reserved(Reserved::Into)));

pub(crate) const CLOSE: Symbol = Symbol::Lexeme(Class::One(Kind::Reserved(Reserved::Close)));

pub(crate) const DEALLOCATE: Symbol = Symbol::Lexeme(Class::One(Kind::Reserved(
    Reserved::Deallocate,
)));

pub(crate) const USE: Symbol = Symbol::Lexeme(Class::One(Kind::Reserved(Reserved::Use)));

pub(crate) const EXECUTE: Symbol = Symbol::Lexeme(Class::One(Kind::Reserved(Reserved::Execute)));

pub(crate) const BREAK: Symbol = Symbol::Lexeme(Class::One(Kind::Reserved(Reserved::Break)));

pub(crate) const CONTINUE: Symbol = Symbol::Lexeme(Class::One(Kind::Reserved(Reserved::Continue)));

pub(crate) const VALUES: Symbol = Symbol::Lexeme(Class::One(Kind::Reserved(Reserved::Values)));

pub(crate) const EQUAL: Symbol = Symbol::Lexeme(Class::One(Kind::Sign(Sign::Equal)));

pub(crate) const TABLE: Symbol = Symbol::Lexeme(Class::One(Kind::Reserved(Reserved::Table)));

pub(crate) const TRY: Symbol = Symbol::Lexeme(Class::One(Kind::Word(Word::Try)));

pub(crate) const END: Symbol = Symbol::Lexeme(Class::One(Kind::Reserved(Reserved::End)));

pub(crate) const CATCH: Symbol = Symbol::Lexeme(Class::One(Kind::Word(Word::Catch)));

pub(crate) const ELSE: Symbol = Symbol::Lexeme(Class::One(Kind::Reserved(Reserved::Else)));

pub(crate) const BEFORE_ELSE: Symbol = Symbol::Lexeme(Class::One(Kind::BeforeElse));

pub(crate) const CONSTRAINT: Symbol = Symbol::Lexeme(Class::One(Kind::Reserved(
    Reserved::Constraint,
)));

pub(crate) const NULL: Symbol = Symbol::Lexeme(Class::One(Kind::Reserved(Reserved::Null)));

pub(crate) const NOT: Symbol = Symbol::Lexeme(Class::One(Kind::Reserved(Reserved::Not)));

pub(crate) const PRIMARY: Symbol = Symbol::Lexeme(Class::One(Kind::Reserved(Reserved::Primary)));

pub(crate) const KEY: Symbol = Symbol::Lexeme(Class::One(Kind::Reserved(Reserved::Key)));

pub(crate) const UNIQUE: Symbol = Symbol::Lexeme(Class::One(Kind::Reserved(Reserved::Unique)));

pub(crate) const CHECK: Symbol = Symbol::Lexeme(Class::One(Kind::Reserved(Reserved::Check)));

pub(crate) const REFERENCES: Symbol = Symbol::Lexeme(Class::One(Kind::Reserved(
    Reserved::References,
)));

pub(crate) const FOREIGN: Symbol = Symbol::Lexeme(Class::One(Kind::Reserved(Reserved::Foreign)));

pub(crate) const CURSOR: Symbol = Symbol::Lexeme(Class::One(Kind::Reserved(Reserved::Cursor)));

pub(crate) const LOCAL: Symbol = Symbol::Lexeme(Class::One(Kind::Word(Word::Local)));

pub(crate) const GLOBAL: Symbol = Symbol::Lexeme(Class::One(Kind::Word(Word::Global)));

pub(crate) const STATIC: Symbol = Symbol::Lexeme(Class::One(Kind::Word(Word::Static)));

pub(crate) const READ_ONLY: Symbol = Symbol::Lexeme(Class::One(Kind::Word(Word::ReadOnly)));

pub(crate) const NEXT: Symbol = Symbol::Lexeme(Class::One(Kind::Word(Word::Next)));

pub(crate) const XACT_ABORT: Symbol = Symbol::Lexeme(Class::One(Kind::Word(Word::XactAbort)));

pub(crate) const NO_COUNT: Symbol = Symbol::Lexeme(Class::One(Kind::Word(Word::NoCount)));

pub(crate) const IMPLICIT_TRANSACTIONS: Symbol = Symbol::Lexeme(Class::One(Kind::Word(
    Word::ImplicitTransactions,
)));

pub(crate) const TRANSACTION: Symbol = Symbol::Lexeme(Class::One(Kind::Reserved(
    Reserved::Transaction,
)));

pub(crate) const ISOLATION: Symbol = Symbol::Lexeme(Class::One(Kind::Word(Word::Isolation)));

pub(crate) const LEVEL: Symbol = Symbol::Lexeme(Class::One(Kind::Word(Word::Level)));

pub(crate) const LOCK_TIMEOUT: Symbol = Symbol::Lexeme(Class::One(Kind::Word(Word::LockTimeout)));

pub(crate) const TEXT_SIZE: Symbol = Symbol::Lexeme(Class::One(Kind::Word(Word::TextSize)));

pub(crate) const DEADLOCK_PRIORITY: Symbol = Symbol::Lexeme(Class::One(Kind::Word(
    Word::DeadlockPriority,
)));

pub(crate) const DATE_FIRST: Symbol = Symbol::Lexeme(Class::One(Kind::Word(Word::DateFirst)));

pub(crate) const ROW_COUNT_WORD: Symbol = Symbol::Lexeme(Class::One(Kind::Word(Word::RowCount)));

pub(crate) const DATE_FORMAT: Symbol = Symbol::Lexeme(Class::One(Kind::Word(Word::DateFormat)));

pub(crate) const LANGUAGE: Symbol = Symbol::Lexeme(Class::One(Kind::Word(Word::Language)));

pub(crate) const OFF: Symbol = Symbol::Lexeme(Class::One(Kind::Word(Word::Off)));

pub(crate) const READ: Symbol = Symbol::Lexeme(Class::One(Kind::Word(Word::Read)));

pub(crate) const REPEATABLE: Symbol = Symbol::Lexeme(Class::One(Kind::Word(Word::Repeatable)));

pub(crate) const SNAPSHOT: Symbol = Symbol::Lexeme(Class::One(Kind::Word(Word::Snapshot)));

pub(crate) const SERIALIZABLE: Symbol = Symbol::Lexeme(Class::One(Kind::Word(Word::Serializable)));

pub(crate) const COMMITTED: Symbol = Symbol::Lexeme(Class::One(Kind::Word(Word::Committed)));

pub(crate) const UNCOMMITTED: Symbol = Symbol::Lexeme(Class::One(Kind::Word(Word::Uncommitted)));

pub(crate) const MINUS: Symbol = Symbol::Lexeme(Class::One(Kind::Sign(Sign::Minus)));

pub(crate) const LOW: Symbol = Symbol::Lexeme(Class::One(Kind::Word(Word::Low)));

pub(crate) const NORMAL: Symbol = Symbol::Lexeme(Class::One(Kind::Word(Word::Normal)));

pub(crate) const HIGH: Symbol = Symbol::Lexeme(Class::One(Kind::Word(Word::High)));

pub(crate) const TRAN: Symbol = Symbol::Lexeme(Class::One(Kind::Reserved(Reserved::Tran)));

pub(crate) const TEXT: Symbol = Symbol::Lexeme(Class::One(Kind::Text));

pub(crate) const DISTINCT: Symbol = Symbol::Lexeme(Class::One(Kind::Reserved(Reserved::Distinct)));

pub(crate) const TOP: Symbol = Symbol::Lexeme(Class::One(Kind::Reserved(Reserved::Top)));

pub(crate) const STAR: Symbol = Symbol::Lexeme(Class::One(Kind::Sign(Sign::Star)));

pub(crate) const PLAIN_NAME: Symbol = Symbol::Lexeme(Class::PlainName);

pub(crate) const JOIN: Symbol = Symbol::Lexeme(Class::One(Kind::Reserved(Reserved::Join)));

pub(crate) const INNER: Symbol = Symbol::Lexeme(Class::One(Kind::Reserved(Reserved::Inner)));

pub(crate) const LEFT: Symbol = Symbol::Lexeme(Class::One(Kind::Reserved(Reserved::Left)));

pub(crate) const CROSS: Symbol = Symbol::Lexeme(Class::One(Kind::Reserved(Reserved::Cross)));

pub(crate) const OUTER: Symbol = Symbol::Lexeme(Class::One(Kind::Reserved(Reserved::Outer)));

pub(crate) const WHERE: Symbol = Symbol::Lexeme(Class::One(Kind::Reserved(Reserved::Where)));

pub(crate) const GROUP: Symbol = Symbol::Lexeme(Class::One(Kind::Reserved(Reserved::Group)));

pub(crate) const BY: Symbol = Symbol::Lexeme(Class::One(Kind::Reserved(Reserved::By)));

pub(crate) const HAVING: Symbol = Symbol::Lexeme(Class::One(Kind::Reserved(Reserved::Having)));

pub(crate) const ORDER: Symbol = Symbol::Lexeme(Class::One(Kind::Reserved(Reserved::Order)));

pub(crate) const ASC: Symbol = Symbol::Lexeme(Class::One(Kind::Reserved(Reserved::Asc)));

pub(crate) const DESC: Symbol = Symbol::Lexeme(Class::One(Kind::Reserved(Reserved::Desc)));

pub(crate) const OR: Symbol = Symbol::Lexeme(Class::One(Kind::Reserved(Reserved::Or)));

pub(crate) const AND: Symbol = Symbol::Lexeme(Class::One(Kind::Reserved(Reserved::And)));

pub(crate) const EXISTS: Symbol = Symbol::Lexeme(Class::One(Kind::Reserved(Reserved::Exists)));

pub(crate) const IS: Symbol = Symbol::Lexeme(Class::One(Kind::Reserved(Reserved::Is)));

pub(crate) const BETWEEN: Symbol = Symbol::Lexeme(Class::One(Kind::Reserved(Reserved::Between)));

pub(crate) const IN: Symbol = Symbol::Lexeme(Class::One(Kind::Reserved(Reserved::In)));

pub(crate) const NOT_EQUAL: Symbol = Symbol::Lexeme(Class::One(Kind::Sign(Sign::NotEqual)));

pub(crate) const LESS: Symbol = Symbol::Lexeme(Class::One(Kind::Sign(Sign::Less)));

pub(crate) const LESS_EQUAL: Symbol = Symbol::Lexeme(Class::One(Kind::Sign(Sign::LessEqual)));

pub(crate) const GREATER: Symbol = Symbol::Lexeme(Class::One(Kind::Sign(Sign::Greater)));

pub(crate) const GREATER_EQUAL: Symbol = Symbol::Lexeme(Class::One(Kind::Sign(Sign::GreaterEqual)));

pub(crate) const PLUS: Symbol = Symbol::Lexeme(Class::One(Kind::Sign(Sign::Plus)));

pub(crate) const SLASH: Symbol = Symbol::Lexeme(Class::One(Kind::Sign(Sign::Slash)));

pub(crate) const PERCENT: Symbol = Symbol::Lexeme(Class::One(Kind::Sign(Sign::Percent)));

pub(crate) const TRAN_COUNT: Symbol = Symbol::Lexeme(Class::One(Kind::TranCount));

pub(crate) const ERROR: Symbol = Symbol::Lexeme(Class::One(Kind::Error));

pub(crate) const ROW_COUNT: Symbol = Symbol::Lexeme(Class::One(Kind::RowCount));

pub(crate) const FETCH_STATUS: Symbol = Symbol::Lexeme(Class::One(Kind::FetchStatus));

pub(crate) const VERSION: Symbol = Symbol::Lexeme(Class::One(Kind::Version));

pub(crate) const SERVER_NAME: Symbol = Symbol::Lexeme(Class::One(Kind::ServerName));

pub(crate) const MAX_PRECISION: Symbol = Symbol::Lexeme(Class::One(Kind::MaxPrecision));

pub(crate) const CASE: Symbol = Symbol::Lexeme(Class::One(Kind::Reserved(Reserved::Case)));

pub(crate) const NULL_IF: Symbol = Symbol::Lexeme(Class::One(Kind::Reserved(Reserved::NullIf)));

pub(crate) const COALESCE: Symbol = Symbol::Lexeme(Class::One(Kind::Reserved(Reserved::Coalesce)));

pub(crate) const WHEN: Symbol = Symbol::Lexeme(Class::One(Kind::Reserved(Reserved::When)));

pub(crate) const THEN: Symbol = Symbol::Lexeme(Class::One(Kind::Reserved(Reserved::Then)));
