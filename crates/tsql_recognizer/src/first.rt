//! What a text of each rule may begin with, and which rules may be empty.

ghost use Rattle.std.specs.Prelude.{◌≡◌};
ghost use Rattle.tsql_grammar.specs.Lookahead.{first_classes, nullable};

use tsql_grammar::{Class, Kind, Reserved, Rule, Word};
use tsql_lexer::Sign;
use tsql_tree::FixedOption;

/// A class: a kind of lexeme in parentheses, or a word, a sign, an option or a function in brackets; else
/// by its name.
macro_rules! class {
    ([Reserved $word:ident]) => {
        Class::One(Kind::Reserved(Reserved::$word))
    };
    ([Word $word:ident]) => {
        Class::One(Kind::Word(Word::$word))
    };
    ([Sign $sign:ident]) => {
        Class::One(Kind::Sign(Sign::$sign))
    };
    ([Fixed $option:ident]) => {
        Class::One(Kind::Fixed(FixedOption::$option))
    };
    (($kind:ident)) => {
        Class::One(Kind::$kind)
    };
    ($class:ident) => {
        Class::$class
    };
}

/// Classes, one behind another.
macro_rules! classes {
    ($($class:tt)*) => {
        [$(class!($class)),*]
    };
}

/// The classes of the lexemes that a text of the rule may begin with.
pub(crate) fn first_classes(rule: Rule) -> &'static [Class]
    ensures { result.now ≡ first_classes rule }
{
    match rule {
        Rule::Batch => &FIRST_BATCH,
        Rule::AfterFirstCreate => &FIRST_AFTER_FIRST_CREATE,
        Rule::Definition => &FIRST_CREATE,
        Rule::AfterCreate => &FIRST_AFTER_FIRST_CREATE,
        Rule::Procedure => &FIRST_PROCEDURE,
        Rule::Trigger => &FIRST_TRIGGER,
        Rule::TriggerTime => &FIRST_TRIGGER_TIME,
        Rule::Event => &FIRST_EVENT,
        Rule::MoreEvents => &FIRST_COMMA,
        Rule::Params => &FIRST_ONE_VARIABLE,
        Rule::Param => &FIRST_ONE_VARIABLE,
        Rule::MoreParams => &FIRST_COMMA,
        Rule::Output => &FIRST_OUTPUT,
        Rule::Object => &FIRST_NAME,
        Rule::AfterDbo => &FIRST_DOT,
        Rule::Type => &FIRST_TYPE,
        Rule::Names => &FIRST_NAME,
        Rule::MoreNames => &FIRST_COMMA,
        Rule::Body(around) if around.in_while => &BODY_IN_WHILE,
        Rule::Body(_) => &FIRST_BATCH,
        Rule::Statement(around) if around.in_while => &STATEMENT_IN_WHILE,
        Rule::Statement(_) => &STATEMENT,
        Rule::OtherStatement(around) if around.in_while => &OTHER_STATEMENT_IN_WHILE,
        Rule::OtherStatement(_) => &OTHER_STATEMENT,
        Rule::Semicolons => &FIRST_SEMICOLON,
        Rule::OptionalSemicolon => &FIRST_SEMICOLON,
        Rule::AfterBegin(around) if around.in_while => &AFTER_BEGIN_IN_WHILE,
        Rule::AfterBegin(_) => &AFTER_BEGIN,
        Rule::Else(_) => &FIRST_ELSE,
        Rule::ThrowArguments(_) => &BEGINS_EXPR,
        Rule::OptionalExpr => &BEGINS_EXPR,
        Rule::Into => &FIRST_INTO,
        Rule::AfterInsertTable => &FIRST_AFTER_INSERT_TABLE,
        Rule::InsertRows => &FIRST_INSERT_ROWS,
        Rule::ValueRow => &FIRST_OPEN,
        Rule::MoreValueRows => &FIRST_COMMA,
        Rule::Assignment => &FIRST_NAME,
        Rule::MoreAssignments => &FIRST_COMMA,
        Rule::DeleteFrom => &FIRST_FROM,
        Rule::DropKind => &FIRST_AFTER_FIRST_CREATE,
        Rule::Table => &FIRST_TABLE,
        Rule::Element => &FIRST_ELEMENT,
        Rule::MoreElements => &FIRST_COMMA,
        Rule::ColumnTraits => &FIRST_COLUMN_TRAITS,
        Rule::ColumnConstraint => &FIRST_COLUMN_CONSTRAINT,
        Rule::ReferencedColumn => &FIRST_OPEN,
        Rule::TableConstraint => &FIRST_TABLE_CONSTRAINT,
        Rule::AfterDeclare => &FIRST_AFTER_DECLARE,
        Rule::Declaration => &FIRST_ONE_VARIABLE,
        Rule::MoreDeclarations => &FIRST_COMMA,
        Rule::OptionalAs => &FIRST_AS,
        Rule::Initial => &FIRST_EQUAL,
        Rule::CursorScope => &FIRST_CURSOR_SCOPE,
        Rule::CursorStatic => &FIRST_STATIC,
        Rule::CursorReadOnly => &FIRST_READ_ONLY,
        Rule::AfterSet => &FIRST_AFTER_SET,
        Rule::OnOff => &FIRST_ON_OFF,
        Rule::Level => &FIRST_LEVEL,
        Rule::AfterRead => &FIRST_AFTER_READ,
        Rule::SignedNumber => &FIRST_SIGNED_NUMBER,
        Rule::Priority => &FIRST_PRIORITY,
        Rule::OptionName => &FIRST_OPTION_NAME,
        Rule::TransactionWord => &FIRST_TRANSACTION_WORD,
        Rule::TransactionEnd => &FIRST_TRANSACTION_WORD,
        Rule::OptionalName => &FIRST_NAME,
        Rule::Next => &FIRST_NEXT,
        Rule::Variables => &FIRST_ONE_VARIABLE,
        Rule::MoreVariables => &FIRST_COMMA,
        Rule::AfterExecute => &FIRST_AFTER_DECLARE,
        Rule::Arguments => &FIRST_ARGUMENTS,
        Rule::MoreArguments => &FIRST_COMMA,
        Rule::Argument => &FIRST_ARGUMENTS,
        Rule::AfterArgumentVariable => &FIRST_AFTER_ARGUMENT_VARIABLE,
        Rule::ArgumentValue => &FIRST_ARGUMENTS,
        Rule::Constant => &FIRST_CONSTANT,
        Rule::Select => &FIRST_SELECT,
        Rule::Distinct => &FIRST_DISTINCT,
        Rule::Top => &FIRST_TOP,
        Rule::TopNumber => &FIRST_TOP_NUMBER,
        Rule::Items => &FIRST_ITEMS,
        Rule::AfterFirstVariable => &FIRST_AFTER_FIRST_VARIABLE,
        Rule::MoreAssigns => &FIRST_COMMA,
        Rule::Item => &FIRST_ITEMS,
        Rule::MoreItems => &FIRST_COMMA,
        Rule::NamedItem => &FIRST_NAME,
        Rule::AfterItemName => &FIRST_AFTER_ITEM_NAME,
        Rule::AfterItemDot => &FIRST_AFTER_ITEM_DOT,
        Rule::AfterItemFunction(_) => &AFTER_OPERAND,
        Rule::OtherItem => &FIRST_OTHER_ITEM,
        Rule::AfterItemOperand => &FIRST_AFTER_ITEM_OPERAND,
        Rule::Alias => &FIRST_ALIAS,
        Rule::From => &FIRST_FROM,
        Rule::TableRef => &FIRST_NAME,
        Rule::Joins => &JOINS_TABLES,
        Rule::Outer => &FIRST_OUTER,
        Rule::Where => &FIRST_WHERE,
        Rule::GroupBy => &FIRST_GROUP,
        Rule::Having => &FIRST_HAVING,
        Rule::OrderBy => &FIRST_ORDER,
        Rule::OrderItem => &BEGINS_EXPR,
        Rule::MoreOrderItems => &FIRST_COMMA,
        Rule::Direction => &FIRST_DIRECTION,
        Rule::Test => &FIRST_TEST,
        Rule::MoreOrs => &FIRST_OR,
        Rule::AndTest => &FIRST_TEST,
        Rule::MoreAnds => &FIRST_AND,
        Rule::NotTest => &FIRST_TEST,
        Rule::MoreNots => &FIRST_NOT,
        Rule::Basic => &FIRST_BASIC,
        Rule::Opened(_) => &FIRST_OPENED,
        Rule::Operand(0) => &FIRST_OPERAND,
        Rule::Operand(_) => &FIRST_OPERAND_WITHIN,
        Rule::Compared(0) => &FIRST_COMPARED,
        Rule::Compared(_) => &FIRST_COMPARED_WITHIN,
        Rule::Tested(0) => &[],
        Rule::Tested(_) => &FIRST_TESTED,
        Rule::Comparison => &FIRST_COMPARED,
        Rule::CompareSign => &COMPARES,
        Rule::OptionalNot => &FIRST_NOT,
        Rule::Membership => &FIRST_MEMBERSHIP,
        Rule::InList => &FIRST_IN_LIST,
        Rule::Expr => &BEGINS_EXPR,
        Rule::MoreTerms => &ADDS,
        Rule::AddSign => &ADDS,
        Rule::Product => &BEGINS_EXPR,
        Rule::MoreFactors => &MULTIPLIES,
        Rule::MultiplySign => &MULTIPLIES,
        Rule::Unary => &BEGINS_EXPR,
        Rule::MoreSigns => &ADDS,
        Rule::Primary => &FIRST_PRIMARY,
        Rule::SimplePrimary => &BEGINS_SIMPLE,
        Rule::OtherPrimary => &BEGINS_OTHER,
        Rule::Enclosed => &FIRST_IN_LIST,
        Rule::NamedPrimary => &FIRST_NAME,
        Rule::AfterName => &FIRST_DOT,
        Rule::AfterFunction(_) => &FIRST_AFTER_FUNCTION,
        Rule::FunctionArguments(_) => &FIRST_OPEN,
        Rule::CountArguments => &FIRST_COUNT_ARGUMENTS,
        Rule::Arm => &FIRST_WHEN,
        Rule::MoreArms => &FIRST_WHEN,
        Rule::CaseElse => &FIRST_ELSE_WORD,
        Rule::Exprs => &BEGINS_EXPR,
        Rule::MoreExprs => &FIRST_COMMA,
    }
}

/// Whether the empty text is of the rule.
pub(crate) fn nullable(rule: Rule) -> bool
    ensures { result ≡ nullable rule }
{
    match rule {
        Rule::ThrowArguments(around) => around.in_catch,
        Rule::Batch => true,
        Rule::MoreEvents => true,
        Rule::Params => true,
        Rule::MoreParams => true,
        Rule::Output => true,
        Rule::AfterDbo => true,
        Rule::MoreNames => true,
        Rule::Body(_) => true,
        Rule::Semicolons => true,
        Rule::OptionalSemicolon => true,
        Rule::Else(_) => true,
        Rule::OptionalExpr => true,
        Rule::Into => true,
        Rule::MoreValueRows => true,
        Rule::MoreAssignments => true,
        Rule::DeleteFrom => true,
        Rule::MoreElements => true,
        Rule::ColumnTraits => true,
        Rule::ReferencedColumn => true,
        Rule::MoreDeclarations => true,
        Rule::OptionalAs => true,
        Rule::Initial => true,
        Rule::CursorScope => true,
        Rule::CursorStatic => true,
        Rule::CursorReadOnly => true,
        Rule::TransactionEnd => true,
        Rule::OptionalName => true,
        Rule::Next => true,
        Rule::MoreVariables => true,
        Rule::Arguments => true,
        Rule::MoreArguments => true,
        Rule::AfterArgumentVariable => true,
        Rule::Distinct => true,
        Rule::Top => true,
        Rule::AfterFirstVariable => true,
        Rule::MoreAssigns => true,
        Rule::MoreItems => true,
        Rule::AfterItemName => true,
        Rule::AfterItemFunction(_) => true,
        Rule::AfterItemOperand => true,
        Rule::Alias => true,
        Rule::From => true,
        Rule::Joins => true,
        Rule::Outer => true,
        Rule::Where => true,
        Rule::GroupBy => true,
        Rule::Having => true,
        Rule::OrderBy => true,
        Rule::MoreOrderItems => true,
        Rule::Direction => true,
        Rule::MoreOrs => true,
        Rule::MoreAnds => true,
        Rule::MoreNots => true,
        Rule::Tested(0) => true,
        Rule::OptionalNot => true,
        Rule::MoreTerms => true,
        Rule::MoreFactors => true,
        Rule::MoreSigns => true,
        Rule::AfterName => true,
        Rule::AfterFunction(_) => true,
        Rule::MoreArms => true,
        Rule::CaseElse => true,
        Rule::MoreExprs => true,
        _ => false,
    }
}

const BEGINS_EXPR: [Class; 18] = classes! {
    [Sign Open] [Sign Plus] [Sign Minus] Name (Variable) (Number) (Text) (TranCount) (Error)
    (RowCount) (FetchStatus) (Version) (ServerName) (MaxPrecision) [Reserved Case]
    [Reserved Coalesce] [Reserved Null] [Reserved NullIf]
};

const COMPARES: [Class; 6] = classes! {
    [Sign Equal] [Sign NotEqual] [Sign Less] [Sign LessEqual] [Sign Greater] [Sign GreaterEqual]
};

const MULTIPLIES: [Class; 3] = classes! { [Sign Star] [Sign Slash] [Sign Percent] };

const ADDS: [Class; 2] = classes! { [Sign Plus] [Sign Minus] };

const BEGINS_OTHER: [Class; 13] = classes! {
    (Number) (Text) (TranCount) (Error) (RowCount) (FetchStatus) (Version) (ServerName)
    (MaxPrecision) [Reserved Case] [Reserved Coalesce] [Reserved Null] [Reserved NullIf]
};

const BEGINS_SIMPLE: [Class; 15] = classes! {
    Name (Variable) (Number) (Text) (TranCount) (Error) (RowCount) (FetchStatus) (Version)
    (ServerName) (MaxPrecision) [Reserved Case] [Reserved Coalesce] [Reserved Null]
    [Reserved NullIf]
};

const JOINS_TABLES: [Class; 5] = classes! {
    [Sign Comma] [Reserved Join] [Reserved Inner] [Reserved Left] [Reserved Cross]
};

const AFTER_OPERAND: [Class; 9] = classes! {
    Name [Reserved As] [Sign Open] [Sign Dot] [Sign Plus] [Sign Minus] [Sign Star] [Sign Slash]
    [Sign Percent]
};

const FIRST_BATCH: [Class; 25] = classes! {
    [Reserved Create] Semicolon [Reserved Begin] [Reserved Close] [Reserved Commit]
    [Reserved Deallocate] [Reserved Declare] [Reserved Delete] [Reserved Drop] [Reserved Execute]
    [Reserved Fetch] [Reserved If] [Reserved Insert] [Reserved Open] [Reserved Print]
    [Reserved RaiseError] [Reserved Return] [Reserved Rollback] [Reserved Save] [Reserved Select]
    [Reserved Set] [Reserved Throw] [Reserved Update] [Reserved Use] [Reserved While]
};

const FIRST_AFTER_FIRST_CREATE: [Class; 3] = classes! {
    [Reserved Procedure] [Reserved Table] [Reserved Trigger]
};

const FIRST_CREATE: [Class; 1] = classes! { [Reserved Create] };

const FIRST_PROCEDURE: [Class; 1] = classes! { [Reserved Procedure] };

const FIRST_TRIGGER: [Class; 1] = classes! { [Reserved Trigger] };

const FIRST_TRIGGER_TIME: [Class; 2] = classes! { [Word After] [Reserved For] };

const FIRST_EVENT: [Class; 3] = classes! { [Reserved Delete] [Reserved Insert] [Reserved Update] };

const FIRST_COMMA: [Class; 1] = classes! { [Sign Comma] };

const FIRST_ONE_VARIABLE: [Class; 1] = classes! { (Variable) };

const FIRST_OUTPUT: [Class; 1] = classes! { [Word Output] };

const FIRST_NAME: [Class; 1] = classes! { Name };

const FIRST_DOT: [Class; 1] = classes! { [Sign Dot] };

const FIRST_TYPE: [Class; 6] = classes! {
    [Word TinyInt] [Word SmallInt] [Word Int] [Word BigInt] [Word Bit] [Word NVarChar]
};

const BODY_IN_WHILE: [Class; 27] = classes! {
    [Reserved Create] Semicolon [Reserved Begin] [Reserved Close] [Reserved Commit]
    [Reserved Deallocate] [Reserved Declare] [Reserved Delete] [Reserved Drop] [Reserved Execute]
    [Reserved Fetch] [Reserved If] [Reserved Insert] [Reserved Open] [Reserved Print]
    [Reserved RaiseError] [Reserved Return] [Reserved Rollback] [Reserved Save] [Reserved Select]
    [Reserved Set] [Reserved Throw] [Reserved Update] [Reserved Use] [Reserved While]
    [Reserved Break] [Reserved Continue]
};

const STATEMENT_IN_WHILE: [Class; 26] = classes! {
    [Reserved Create] [Reserved Begin] [Reserved Close] [Reserved Commit] [Reserved Deallocate]
    [Reserved Declare] [Reserved Delete] [Reserved Drop] [Reserved Execute] [Reserved Fetch]
    [Reserved If] [Reserved Insert] [Reserved Open] [Reserved Print] [Reserved RaiseError]
    [Reserved Return] [Reserved Rollback] [Reserved Save] [Reserved Select] [Reserved Set]
    [Reserved Throw] [Reserved Update] [Reserved Use] [Reserved While] [Reserved Break]
    [Reserved Continue]
};

const STATEMENT: [Class; 24] = classes! {
    [Reserved Create] [Reserved Begin] [Reserved Close] [Reserved Commit] [Reserved Deallocate]
    [Reserved Declare] [Reserved Delete] [Reserved Drop] [Reserved Execute] [Reserved Fetch]
    [Reserved If] [Reserved Insert] [Reserved Open] [Reserved Print] [Reserved RaiseError]
    [Reserved Return] [Reserved Rollback] [Reserved Save] [Reserved Select] [Reserved Set]
    [Reserved Throw] [Reserved Update] [Reserved Use] [Reserved While]
};

const OTHER_STATEMENT_IN_WHILE: [Class; 25] = classes! {
    [Reserved Begin] [Reserved Close] [Reserved Commit] [Reserved Deallocate] [Reserved Declare]
    [Reserved Delete] [Reserved Drop] [Reserved Execute] [Reserved Fetch] [Reserved If]
    [Reserved Insert] [Reserved Open] [Reserved Print] [Reserved RaiseError] [Reserved Return]
    [Reserved Rollback] [Reserved Save] [Reserved Select] [Reserved Set] [Reserved Throw]
    [Reserved Update] [Reserved Use] [Reserved While] [Reserved Break] [Reserved Continue]
};

const OTHER_STATEMENT: [Class; 23] = classes! {
    [Reserved Begin] [Reserved Close] [Reserved Commit] [Reserved Deallocate] [Reserved Declare]
    [Reserved Delete] [Reserved Drop] [Reserved Execute] [Reserved Fetch] [Reserved If]
    [Reserved Insert] [Reserved Open] [Reserved Print] [Reserved RaiseError] [Reserved Return]
    [Reserved Rollback] [Reserved Save] [Reserved Select] [Reserved Set] [Reserved Throw]
    [Reserved Update] [Reserved Use] [Reserved While]
};

const FIRST_SEMICOLON: [Class; 1] = classes! { Semicolon };

const AFTER_BEGIN_IN_WHILE: [Class; 30] = classes! {
    [Reserved Tran] [Reserved Transaction] [Word Try] Semicolon [Reserved Create] [Reserved Begin]
    [Reserved Close] [Reserved Commit] [Reserved Deallocate] [Reserved Declare] [Reserved Delete]
    [Reserved Drop] [Reserved Execute] [Reserved Fetch] [Reserved If] [Reserved Insert]
    [Reserved Open] [Reserved Print] [Reserved RaiseError] [Reserved Return] [Reserved Rollback]
    [Reserved Save] [Reserved Select] [Reserved Set] [Reserved Throw] [Reserved Update]
    [Reserved Use] [Reserved While] [Reserved Break] [Reserved Continue]
};

const AFTER_BEGIN: [Class; 28] = classes! {
    [Reserved Tran] [Reserved Transaction] [Word Try] Semicolon [Reserved Create] [Reserved Begin]
    [Reserved Close] [Reserved Commit] [Reserved Deallocate] [Reserved Declare] [Reserved Delete]
    [Reserved Drop] [Reserved Execute] [Reserved Fetch] [Reserved If] [Reserved Insert]
    [Reserved Open] [Reserved Print] [Reserved RaiseError] [Reserved Return] [Reserved Rollback]
    [Reserved Save] [Reserved Select] [Reserved Set] [Reserved Throw] [Reserved Update]
    [Reserved Use] [Reserved While]
};

const FIRST_ELSE: [Class; 2] = classes! { (BeforeElse) [Reserved Else] };

const FIRST_INTO: [Class; 1] = classes! { [Reserved Into] };

const FIRST_AFTER_INSERT_TABLE: [Class; 3] = classes! {
    [Sign Open] [Reserved Select] [Reserved Values]
};

const FIRST_INSERT_ROWS: [Class; 2] = classes! { [Reserved Select] [Reserved Values] };

const FIRST_OPEN: [Class; 1] = classes! { [Sign Open] };

const FIRST_FROM: [Class; 1] = classes! { [Reserved From] };

const FIRST_TABLE: [Class; 1] = classes! { [Reserved Table] };

const FIRST_ELEMENT: [Class; 6] = classes! {
    Name [Reserved Check] [Reserved Constraint] [Reserved Foreign] [Reserved Primary]
    [Reserved Unique]
};

const FIRST_COLUMN_TRAITS: [Class; 7] = classes! {
    [Reserved Check] [Reserved Constraint] [Reserved Not] [Reserved Null] [Reserved Primary]
    [Reserved References] [Reserved Unique]
};

const FIRST_COLUMN_CONSTRAINT: [Class; 4] = classes! {
    [Reserved Check] [Reserved Primary] [Reserved References] [Reserved Unique]
};

const FIRST_TABLE_CONSTRAINT: [Class; 4] = classes! {
    [Reserved Check] [Reserved Foreign] [Reserved Primary] [Reserved Unique]
};

const FIRST_AFTER_DECLARE: [Class; 2] = classes! { Name (Variable) };

const FIRST_AS: [Class; 1] = classes! { [Reserved As] };

const FIRST_EQUAL: [Class; 1] = classes! { [Sign Equal] };

const FIRST_CURSOR_SCOPE: [Class; 2] = classes! { [Word Local] [Word Global] };

const FIRST_STATIC: [Class; 1] = classes! { [Word Static] };

const FIRST_READ_ONLY: [Class; 1] = classes! { [Word ReadOnly] };

const FIRST_AFTER_SET: [Class; 22] = classes! {
    (Variable) [Reserved Transaction] [Word XactAbort] [Word NoCount] [Word ImplicitTransactions]
    [Word LockTimeout] [Word TextSize] [Word DeadlockPriority] [Word DateFirst] [Word RowCount]
    [Word DateFormat] [Word Language] [Fixed AnsiNulls] [Fixed AnsiNullDefaultOn]
    [Fixed AnsiPadding] [Fixed AnsiWarnings] [Fixed ArithAbort] [Fixed ConcatNullYieldsNull]
    [Fixed QuotedIdentifier] [Fixed CursorCloseOnCommit] [Fixed FormatOnly]
    [Fixed NumericRoundAbort]
};

const FIRST_ON_OFF: [Class; 2] = classes! { [Word Off] [Reserved On] };

const FIRST_LEVEL: [Class; 4] = classes! {
    [Word Read] [Word Repeatable] [Word Snapshot] [Word Serializable]
};

const FIRST_AFTER_READ: [Class; 2] = classes! { [Word Committed] [Word Uncommitted] };

const FIRST_SIGNED_NUMBER: [Class; 2] = classes! { (Number) [Sign Minus] };

const FIRST_PRIORITY: [Class; 5] = classes! {
    (Number) [Sign Minus] [Word Low] [Word Normal] [Word High]
};

const FIRST_OPTION_NAME: [Class; 2] = classes! { Name (Text) };

const FIRST_TRANSACTION_WORD: [Class; 2] = classes! { [Reserved Tran] [Reserved Transaction] };

const FIRST_NEXT: [Class; 1] = classes! { [Word Next] };

const FIRST_ARGUMENTS: [Class; 5] = classes! {
    (Number) (Text) (Variable) [Sign Minus] [Reserved Null]
};

const FIRST_AFTER_ARGUMENT_VARIABLE: [Class; 2] = classes! { [Sign Equal] [Word Output] };

const FIRST_CONSTANT: [Class; 4] = classes! { (Number) (Text) [Sign Minus] [Reserved Null] };

const FIRST_SELECT: [Class; 21] = classes! {
    [Sign Star] [Reserved Distinct] [Reserved Top] [Sign Open] [Sign Plus] [Sign Minus] Name
    (Variable) (Number) (Text) (TranCount) (Error) (RowCount) (FetchStatus) (Version) (ServerName)
    (MaxPrecision) [Reserved Case] [Reserved Coalesce] [Reserved Null] [Reserved NullIf]
};

const FIRST_DISTINCT: [Class; 1] = classes! { [Reserved Distinct] };

const FIRST_TOP: [Class; 1] = classes! { [Reserved Top] };

const FIRST_TOP_NUMBER: [Class; 2] = classes! { (Number) [Sign Open] };

const FIRST_ITEMS: [Class; 19] = classes! {
    [Sign Star] [Sign Open] [Sign Plus] [Sign Minus] Name (Variable) (Number) (Text) (TranCount)
    (Error) (RowCount) (FetchStatus) (Version) (ServerName) (MaxPrecision) [Reserved Case]
    [Reserved Coalesce] [Reserved Null] [Reserved NullIf]
};

const FIRST_AFTER_FIRST_VARIABLE: [Class; 9] = classes! {
    Name [Sign Comma] [Sign Equal] [Reserved As] [Sign Star] [Sign Slash] [Sign Percent]
    [Sign Plus] [Sign Minus]
};

const FIRST_AFTER_ITEM_NAME: [Class; 8] = classes! {
    Name [Sign Dot] [Reserved As] [Sign Star] [Sign Slash] [Sign Percent] [Sign Plus] [Sign Minus]
};

const FIRST_AFTER_ITEM_DOT: [Class; 2] = classes! { Name [Sign Star] };

const FIRST_OTHER_ITEM: [Class; 16] = classes! {
    [Sign Open] (Number) (Text) (TranCount) (Error) (RowCount) (FetchStatus) (Version) (ServerName)
    (MaxPrecision) [Reserved Case] [Reserved Coalesce] [Reserved Null] [Reserved NullIf] [Sign Plus]
    [Sign Minus]
};

const FIRST_AFTER_ITEM_OPERAND: [Class; 7] = classes! {
    Name [Reserved As] [Sign Star] [Sign Slash] [Sign Percent] [Sign Plus] [Sign Minus]
};

const FIRST_ALIAS: [Class; 2] = classes! { Name [Reserved As] };

const FIRST_OUTER: [Class; 1] = classes! { [Reserved Outer] };

const FIRST_WHERE: [Class; 1] = classes! { [Reserved Where] };

const FIRST_GROUP: [Class; 1] = classes! { [Reserved Group] };

const FIRST_HAVING: [Class; 1] = classes! { [Reserved Having] };

const FIRST_ORDER: [Class; 1] = classes! { [Reserved Order] };

const FIRST_DIRECTION: [Class; 2] = classes! { [Reserved Asc] [Reserved Desc] };

const FIRST_TEST: [Class; 20] = classes! {
    [Reserved Exists] [Reserved Not] [Sign Open] [Sign Plus] [Sign Minus] Name (Variable) (Number)
    (Text) (TranCount) (Error) (RowCount) (FetchStatus) (Version) (ServerName) (MaxPrecision)
    [Reserved Case] [Reserved Coalesce] [Reserved Null] [Reserved NullIf]
};

const FIRST_OR: [Class; 1] = classes! { [Reserved Or] };

const FIRST_AND: [Class; 1] = classes! { [Reserved And] };

const FIRST_NOT: [Class; 1] = classes! { [Reserved Not] };

const FIRST_BASIC: [Class; 19] = classes! {
    [Reserved Exists] [Sign Open] [Sign Plus] [Sign Minus] Name (Variable) (Number) (Text)
    (TranCount) (Error) (RowCount) (FetchStatus) (Version) (ServerName) (MaxPrecision)
    [Reserved Case] [Reserved Coalesce] [Reserved Null] [Reserved NullIf]
};

const FIRST_OPENED: [Class; 21] = classes! {
    [Reserved Exists] [Reserved Not] [Reserved Select] [Sign Open] [Sign Plus] [Sign Minus] Name
    (Variable) (Number) (Text) (TranCount) (Error) (RowCount) (FetchStatus) (Version) (ServerName)
    (MaxPrecision) [Reserved Case] [Reserved Coalesce] [Reserved Null] [Reserved NullIf]
};

const FIRST_OPERAND: [Class; 15] = classes! {
    [Reserved Between] [Reserved In] [Reserved Is] [Reserved Not] [Sign Equal] [Sign NotEqual]
    [Sign Less] [Sign LessEqual] [Sign Greater] [Sign GreaterEqual] [Sign Star] [Sign Slash]
    [Sign Percent] [Sign Plus] [Sign Minus]
};

const FIRST_OPERAND_WITHIN: [Class; 16] = classes! {
    [Sign Close] [Reserved Between] [Reserved In] [Reserved Is] [Reserved Not] [Sign Equal]
    [Sign NotEqual] [Sign Less] [Sign LessEqual] [Sign Greater] [Sign GreaterEqual] [Sign Star]
    [Sign Slash] [Sign Percent] [Sign Plus] [Sign Minus]
};

const FIRST_COMPARED: [Class; 10] = classes! {
    [Reserved Between] [Reserved In] [Reserved Is] [Reserved Not] [Sign Equal] [Sign NotEqual]
    [Sign Less] [Sign LessEqual] [Sign Greater] [Sign GreaterEqual]
};

const FIRST_COMPARED_WITHIN: [Class; 11] = classes! {
    [Sign Close] [Reserved Between] [Reserved In] [Reserved Is] [Reserved Not] [Sign Equal]
    [Sign NotEqual] [Sign Less] [Sign LessEqual] [Sign Greater] [Sign GreaterEqual]
};

const FIRST_TESTED: [Class; 3] = classes! { [Sign Close] [Reserved And] [Reserved Or] };

const FIRST_MEMBERSHIP: [Class; 2] = classes! { [Reserved Between] [Reserved In] };

const FIRST_IN_LIST: [Class; 19] = classes! {
    [Reserved Select] [Sign Open] [Sign Plus] [Sign Minus] Name (Variable) (Number) (Text)
    (TranCount) (Error) (RowCount) (FetchStatus) (Version) (ServerName) (MaxPrecision)
    [Reserved Case] [Reserved Coalesce] [Reserved Null] [Reserved NullIf]
};

const FIRST_PRIMARY: [Class; 16] = classes! {
    [Sign Open] Name (Variable) (Number) (Text) (TranCount) (Error) (RowCount) (FetchStatus)
    (Version) (ServerName) (MaxPrecision) [Reserved Case] [Reserved Coalesce] [Reserved Null]
    [Reserved NullIf]
};

const FIRST_AFTER_FUNCTION: [Class; 2] = classes! { [Sign Open] [Sign Dot] };

const FIRST_COUNT_ARGUMENTS: [Class; 20] = classes! {
    [Sign Star] [Reserved Distinct] [Sign Open] [Sign Plus] [Sign Minus] Name (Variable) (Number)
    (Text) (TranCount) (Error) (RowCount) (FetchStatus) (Version) (ServerName) (MaxPrecision)
    [Reserved Case] [Reserved Coalesce] [Reserved Null] [Reserved NullIf]
};

const FIRST_WHEN: [Class; 1] = classes! { [Reserved When] };

const FIRST_ELSE_WORD: [Class; 1] = classes! { [Reserved Else] };
