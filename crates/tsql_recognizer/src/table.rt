//! The productions of the rules that have no parameter, by their symbols: the table that
//! `specs/Productions.antt` has, in the same order.

ghost use Rattle.std.specs.Prelude.{◌≡◌, map, true};
ghost use Rattle.tsql_grammar.specs.declared.rule.Rule.TheVariants as r;
ghost use Rattle.tsql_recognizer.specs.Stack.{shown, symbols_of_rule, is_plain};

use crate::lexemes;
use crate::symbol::Symbol;
use tsql_grammar::{Around, Class, Function, Kind, Mark, Rule};
use tsql_tree::FixedOption;

/// A symbol: a rule in parentheses, with its parameter; a mark in braces; an option or a function in
/// brackets; a lexeme by its name.
macro_rules! symbol {
    ((AfterFunction $function:ident)) => {
        Symbol::Rule(Rule::AfterFunction(Function::$function))
    };
    ((AfterItemFunction $function:ident)) => {
        Symbol::Rule(Rule::AfterItemFunction(Function::$function))
    };
    (($rule:ident $parameter:expr)) => {
        Symbol::Rule(Rule::$rule($parameter))
    };
    (($rule:ident)) => {
        Symbol::Rule(Rule::$rule)
    };
    ({$mark:ident}) => {
        Symbol::Mark(Mark::$mark)
    };
    ([Fixed $option:ident]) => {
        Symbol::Lexeme(Class::One(Kind::Fixed(FixedOption::$option)))
    };
    ([Function $function:ident]) => {
        Symbol::Lexeme(Class::One(Kind::Function(Function::$function)))
    };
    ($lexeme:ident) => {
        lexemes::$lexeme
    };
}

/// The productions of a rule, one in each bracket.
macro_rules! productions {
    ($([$($symbol:tt)*])*) => {
        [$(&[$(symbol!($symbol)),*]),*]
    };
}

/// The productions of a rule that has no parameter.
pub(crate) fn productions(rule: Rule) -> &'static [&'static [Symbol]]
    ensures { is_plain rule ≡ true → map shown result.now ≡ symbols_of_rule rule }
{
    match rule {
        Rule::Batch => &OF_BATCH,
        Rule::AfterFirstCreate => &OF_AFTER_FIRST_CREATE,
        Rule::Definition => &OF_DEFINITION,
        Rule::AfterCreate => &OF_AFTER_CREATE,
        Rule::Procedure => &OF_PROCEDURE,
        Rule::Trigger => &OF_TRIGGER,
        Rule::TriggerTime => &OF_TRIGGER_TIME,
        Rule::Event => &OF_EVENT,
        Rule::MoreEvents => &OF_MORE_EVENTS,
        Rule::Params => &OF_PARAMS,
        Rule::Param => &OF_PARAM,
        Rule::MoreParams => &OF_MORE_PARAMS,
        Rule::Output => &OF_OUTPUT,
        Rule::Object => &OF_OBJECT,
        Rule::AfterDbo => &OF_AFTER_DBO,
        Rule::Type => &OF_TYPE,
        Rule::Names => &OF_NAMES,
        Rule::MoreNames => &OF_MORE_NAMES,
        Rule::Semicolons => &OF_SEMICOLONS,
        Rule::OptionalSemicolon => &OF_OPTIONAL_SEMICOLON,
        Rule::OptionalExpr => &OF_OPTIONAL_EXPR,
        Rule::Into => &OF_INTO,
        Rule::AfterInsertTable => &OF_AFTER_INSERT_TABLE,
        Rule::InsertRows => &OF_INSERT_ROWS,
        Rule::ValueRow => &OF_VALUE_ROW,
        Rule::MoreValueRows => &OF_MORE_VALUE_ROWS,
        Rule::Assignment => &OF_ASSIGNMENT,
        Rule::MoreAssignments => &OF_MORE_ASSIGNMENTS,
        Rule::DeleteFrom => &OF_DELETE_FROM,
        Rule::DropKind => &OF_DROP_KIND,
        Rule::Table => &OF_TABLE,
        Rule::Element => &OF_ELEMENT,
        Rule::MoreElements => &OF_MORE_ELEMENTS,
        Rule::ColumnTraits => &OF_COLUMN_TRAITS,
        Rule::ColumnConstraint => &OF_COLUMN_CONSTRAINT,
        Rule::ReferencedColumn => &OF_REFERENCED_COLUMN,
        Rule::TableConstraint => &OF_TABLE_CONSTRAINT,
        Rule::AfterDeclare => &OF_AFTER_DECLARE,
        Rule::Declaration => &OF_DECLARATION,
        Rule::MoreDeclarations => &OF_MORE_DECLARATIONS,
        Rule::OptionalAs => &OF_OPTIONAL_AS,
        Rule::Initial => &OF_INITIAL,
        Rule::CursorScope => &OF_CURSOR_SCOPE,
        Rule::CursorStatic => &OF_CURSOR_STATIC,
        Rule::CursorReadOnly => &OF_CURSOR_READ_ONLY,
        Rule::AfterSet => &OF_AFTER_SET,
        Rule::OnOff => &OF_ON_OFF,
        Rule::Level => &OF_LEVEL,
        Rule::AfterRead => &OF_AFTER_READ,
        Rule::SignedNumber => &OF_SIGNED_NUMBER,
        Rule::Priority => &OF_PRIORITY,
        Rule::OptionName => &OF_OPTION_NAME,
        Rule::TransactionWord => &OF_TRANSACTION_WORD,
        Rule::TransactionEnd => &OF_TRANSACTION_END,
        Rule::OptionalName => &OF_OPTIONAL_NAME,
        Rule::Next => &OF_NEXT,
        Rule::Variables => &OF_VARIABLES,
        Rule::MoreVariables => &OF_MORE_VARIABLES,
        Rule::AfterExecute => &OF_AFTER_EXECUTE,
        Rule::Arguments => &OF_ARGUMENTS,
        Rule::MoreArguments => &OF_MORE_ARGUMENTS,
        Rule::Argument => &OF_ARGUMENT,
        Rule::AfterArgumentVariable => &OF_AFTER_ARGUMENT_VARIABLE,
        Rule::ArgumentValue => &OF_ARGUMENT_VALUE,
        Rule::Constant => &OF_CONSTANT,
        Rule::Select => &OF_SELECT,
        Rule::Distinct => &OF_DISTINCT,
        Rule::Top => &OF_TOP,
        Rule::TopNumber => &OF_TOP_NUMBER,
        Rule::Items => &OF_ITEMS,
        Rule::AfterFirstVariable => &OF_AFTER_FIRST_VARIABLE,
        Rule::MoreAssigns => &OF_MORE_ASSIGNS,
        Rule::Item => &OF_ITEM,
        Rule::MoreItems => &OF_MORE_ITEMS,
        Rule::NamedItem => &OF_NAMED_ITEM,
        Rule::AfterItemName => &OF_AFTER_ITEM_NAME,
        Rule::AfterItemDot => &OF_AFTER_ITEM_DOT,
        Rule::OtherItem => &OF_OTHER_ITEM,
        Rule::AfterItemOperand => &OF_AFTER_ITEM_OPERAND,
        Rule::Alias => &OF_ALIAS,
        Rule::From => &OF_FROM,
        Rule::TableRef => &OF_TABLE_REF,
        Rule::Joins => &OF_JOINS,
        Rule::Outer => &OF_OUTER,
        Rule::Where => &OF_WHERE,
        Rule::GroupBy => &OF_GROUP_BY,
        Rule::Having => &OF_HAVING,
        Rule::OrderBy => &OF_ORDER_BY,
        Rule::OrderItem => &OF_ORDER_ITEM,
        Rule::MoreOrderItems => &OF_MORE_ORDER_ITEMS,
        Rule::Direction => &OF_DIRECTION,
        Rule::Test => &OF_TEST,
        Rule::MoreOrs => &OF_MORE_ORS,
        Rule::AndTest => &OF_AND_TEST,
        Rule::MoreAnds => &OF_MORE_ANDS,
        Rule::NotTest => &OF_NOT_TEST,
        Rule::MoreNots => &OF_MORE_NOTS,
        Rule::Basic => &OF_BASIC,
        Rule::Comparison => &OF_COMPARISON,
        Rule::CompareSign => &OF_COMPARE_SIGN,
        Rule::OptionalNot => &OF_OPTIONAL_NOT,
        Rule::Membership => &OF_MEMBERSHIP,
        Rule::InList => &OF_IN_LIST,
        Rule::Expr => &OF_EXPR,
        Rule::MoreTerms => &OF_MORE_TERMS,
        Rule::AddSign => &OF_ADD_SIGN,
        Rule::Product => &OF_PRODUCT,
        Rule::MoreFactors => &OF_MORE_FACTORS,
        Rule::MultiplySign => &OF_MULTIPLY_SIGN,
        Rule::Unary => &OF_UNARY,
        Rule::MoreSigns => &OF_MORE_SIGNS,
        Rule::Primary => &OF_PRIMARY,
        Rule::SimplePrimary => &OF_SIMPLE_PRIMARY,
        Rule::OtherPrimary => &OF_OTHER_PRIMARY,
        Rule::Enclosed => &OF_ENCLOSED,
        Rule::NamedPrimary => &OF_NAMED_PRIMARY,
        Rule::AfterName => &OF_AFTER_NAME,
        Rule::CountArguments => &OF_COUNT_ARGUMENTS,
        Rule::Arm => &OF_ARM,
        Rule::MoreArms => &OF_MORE_ARMS,
        Rule::CaseElse => &OF_CASE_ELSE,
        Rule::Exprs => &OF_EXPRS,
        Rule::MoreExprs => &OF_MORE_EXPRS,
        _ => &[],
    }
}

/// The arguments of a function, with their parentheses.
pub(crate) fn arguments_of(function: Function) -> &'static [&'static [Symbol]]
    ensures { map shown result.now ≡ symbols_of_rule (r.FunctionArguments function) }
{
    match function {
        Function::Cast => &OF_CAST,
        Function::IsNull => &OF_IS_NULL,
        Function::Len => &OF_LEN,
        Function::Count => &OF_COUNT,
        Function::Sum => &OF_AGGREGATE,
        Function::Avg => &OF_AGGREGATE,
        Function::Min => &OF_AGGREGATE,
        Function::Max => &OF_AGGREGATE,
        Function::XactState => &OF_SYSTEM,
        Function::ErrorNumber => &OF_SYSTEM,
        Function::ErrorSeverity => &OF_SYSTEM,
        Function::ErrorState => &OF_SYSTEM,
        Function::ErrorLine => &OF_SYSTEM,
        Function::ErrorMessage => &OF_SYSTEM,
        Function::ErrorProcedure => &OF_SYSTEM,
        Function::SchemaName => &OF_SYSTEM,
        Function::DatabaseName => &OF_SYSTEM,
        Function::UserName => &OF_SYSTEM,
    }
}

const OF_CAST: [&[Symbol]; 1] = productions! {
    [PAREN_OPEN {Enter} (Expr) AS (Type) PAREN_CLOSE {Leave}]
};

const OF_IS_NULL: [&[Symbol]; 1] = productions! {
    [PAREN_OPEN {Enter} (Expr) COMMA (Expr) PAREN_CLOSE {Leave}]
};

const OF_LEN: [&[Symbol]; 1] = productions! { [PAREN_OPEN {Enter} (Expr) PAREN_CLOSE {Leave}] };

const OF_COUNT: [&[Symbol]; 1] = productions! {
    [PAREN_OPEN {Enter} (CountArguments) PAREN_CLOSE {Leave}]
};

const OF_AGGREGATE: [&[Symbol]; 1] = productions! {
    [PAREN_OPEN {Enter} (Distinct) (Expr) PAREN_CLOSE {Leave}]
};

const OF_SYSTEM: [&[Symbol]; 1] = productions! { [PAREN_OPEN {Enter} PAREN_CLOSE {Leave}] };

const OF_BATCH: [&[Symbol]; 4] = productions! {
    [CREATE (AfterFirstCreate)]
    [SEMICOLON (Body OUTSIDE)]
    [(OtherStatement OUTSIDE) (Body OUTSIDE)]
    []
};

const OF_AFTER_FIRST_CREATE: [&[Symbol]; 3] = productions! {
    [(Procedure)]
    [(Trigger)]
    [(Table) (Body OUTSIDE)]
};

const OF_DEFINITION: [&[Symbol]; 1] = productions! { [CREATE (AfterCreate)] };

const OF_AFTER_CREATE: [&[Symbol]; 3] = productions! { [(Procedure)] [(Trigger)] [(Table)] };

const OF_PROCEDURE: [&[Symbol]; 1] = productions! {
    [PROCEDURE (Object) (Params) AS (Body OUTSIDE)]
};

const OF_TRIGGER: [&[Symbol]; 1] = productions! {
    [TRIGGER (Object) ON (Object) (TriggerTime) (Event) (MoreEvents) AS (Body OUTSIDE)]
};

const OF_TRIGGER_TIME: [&[Symbol]; 2] = productions! { [AFTER] [FOR] };

const OF_EVENT: [&[Symbol]; 3] = productions! { [INSERT] [UPDATE] [DELETE] };

const OF_MORE_EVENTS: [&[Symbol]; 2] = productions! { [COMMA (Event) (MoreEvents)] [] };

const OF_PARAMS: [&[Symbol]; 2] = productions! { [(Param) (MoreParams)] [] };

const OF_PARAM: [&[Symbol]; 1] = productions! { [VARIABLE {Declares} (Type) (Output)] };

const OF_MORE_PARAMS: [&[Symbol]; 2] = productions! { [COMMA (Param) (MoreParams)] [] };

const OF_OUTPUT: [&[Symbol]; 2] = productions! { [OUTPUT] [] };

const OF_OBJECT: [&[Symbol]; 2] = productions! { [OTHER_NAME] [DBO (AfterDbo)] };

const OF_AFTER_DBO: [&[Symbol]; 2] = productions! { [DOT NAME] [] };

const OF_TYPE: [&[Symbol]; 6] = productions! {
    [TINY_INT]
    [SMALL_INT]
    [INT]
    [BIG_INT]
    [BIT]
    [N_VAR_CHAR PAREN_OPEN NUMBER PAREN_CLOSE]
};

const OF_NAMES: [&[Symbol]; 1] = productions! { [NAME (MoreNames)] };

const OF_MORE_NAMES: [&[Symbol]; 2] = productions! { [COMMA NAME (MoreNames)] [] };

const OF_SEMICOLONS: [&[Symbol]; 2] = productions! { [SEMICOLON (Semicolons)] [] };

const OF_OPTIONAL_SEMICOLON: [&[Symbol]; 2] = productions! { [SEMICOLON] [] };

const OF_OPTIONAL_EXPR: [&[Symbol]; 2] = productions! { [(Expr)] [] };

const OF_INTO: [&[Symbol]; 2] = productions! { [INTO] [] };

const OF_AFTER_INSERT_TABLE: [&[Symbol]; 2] = productions! {
    [PAREN_OPEN (Names) PAREN_CLOSE (InsertRows)]
    [(InsertRows)]
};

const OF_INSERT_ROWS: [&[Symbol]; 2] = productions! {
    [VALUES (ValueRow) (MoreValueRows)]
    [SELECT (Select)]
};

const OF_VALUE_ROW: [&[Symbol]; 1] = productions! { [PAREN_OPEN (Exprs) PAREN_CLOSE] };

pub(crate) const OF_MORE_VALUE_ROWS: [&[Symbol]; 2] =
    productions! { [COMMA (ValueRow) (MoreValueRows)] [] };

const OF_ASSIGNMENT: [&[Symbol]; 1] = productions! { [NAME EQUAL (Expr)] };

const OF_MORE_ASSIGNMENTS: [&[Symbol]; 2] = productions! {
    [COMMA (Assignment) (MoreAssignments)]
    []
};

const OF_DELETE_FROM: [&[Symbol]; 2] = productions! { [FROM] [] };

const OF_DROP_KIND: [&[Symbol]; 3] = productions! { [TABLE] [PROCEDURE] [TRIGGER] };

const OF_TABLE: [&[Symbol]; 1] = productions! {
    [TABLE (Object) PAREN_OPEN (Element) (MoreElements) PAREN_CLOSE]
};

const OF_ELEMENT: [&[Symbol]; 3] = productions! {
    [NAME (Type) (ColumnTraits)]
    [CONSTRAINT NAME (TableConstraint)]
    [(TableConstraint)]
};

const OF_MORE_ELEMENTS: [&[Symbol]; 2] = productions! { [COMMA (Element) (MoreElements)] [] };

const OF_COLUMN_TRAITS: [&[Symbol]; 5] = productions! {
    [NULL (ColumnTraits)]
    [NOT NULL (ColumnTraits)]
    [CONSTRAINT NAME (ColumnConstraint) (ColumnTraits)]
    [(ColumnConstraint) (ColumnTraits)]
    []
};

const OF_COLUMN_CONSTRAINT: [&[Symbol]; 4] = productions! {
    [PRIMARY KEY]
    [UNIQUE]
    [CHECK PAREN_OPEN (Test) PAREN_CLOSE]
    [REFERENCES (Object) (ReferencedColumn)]
};

const OF_REFERENCED_COLUMN: [&[Symbol]; 2] = productions! { [PAREN_OPEN NAME PAREN_CLOSE] [] };

const OF_TABLE_CONSTRAINT: [&[Symbol]; 4] = productions! {
    [PRIMARY KEY PAREN_OPEN (Names) PAREN_CLOSE]
    [UNIQUE PAREN_OPEN (Names) PAREN_CLOSE]
    [CHECK PAREN_OPEN (Test) PAREN_CLOSE]
    [FOREIGN KEY PAREN_OPEN (Names) PAREN_CLOSE REFERENCES (Object) PAREN_OPEN (Names) PAREN_CLOSE]
};

const OF_AFTER_DECLARE: [&[Symbol]; 2] = productions! {
    [(Declaration) (MoreDeclarations)]
    [NAME CURSOR (CursorScope) (CursorStatic) (CursorReadOnly) FOR SELECT (Select)]
};

const OF_DECLARATION: [&[Symbol]; 1] = productions! {
    [VARIABLE {Declares} (OptionalAs) (Type) (Initial)]
};

const OF_MORE_DECLARATIONS: [&[Symbol]; 2] = productions! {
    [COMMA (Declaration) (MoreDeclarations)]
    []
};

const OF_OPTIONAL_AS: [&[Symbol]; 2] = productions! { [AS] [] };

const OF_INITIAL: [&[Symbol]; 2] = productions! { [EQUAL (Expr)] [] };

const OF_CURSOR_SCOPE: [&[Symbol]; 3] = productions! { [LOCAL] [GLOBAL] [] };

const OF_CURSOR_STATIC: [&[Symbol]; 2] = productions! { [STATIC] [] };

const OF_CURSOR_READ_ONLY: [&[Symbol]; 2] = productions! { [READ_ONLY] [] };

const OF_AFTER_SET: [&[Symbol]; 22] = productions! {
    [VARIABLE {Uses} EQUAL (Expr)]
    [XACT_ABORT (OnOff)]
    [NO_COUNT (OnOff)]
    [IMPLICIT_TRANSACTIONS (OnOff)]
    [TRANSACTION ISOLATION LEVEL (Level)]
    [LOCK_TIMEOUT (SignedNumber)]
    [TEXT_SIZE (SignedNumber)]
    [DEADLOCK_PRIORITY (Priority)]
    [DATE_FIRST (SignedNumber)]
    [ROW_COUNT_WORD (SignedNumber)]
    [DATE_FORMAT (OptionName)]
    [LANGUAGE (OptionName)]
    [[Fixed AnsiNulls] (OnOff)]
    [[Fixed AnsiNullDefaultOn] (OnOff)]
    [[Fixed AnsiPadding] (OnOff)]
    [[Fixed AnsiWarnings] (OnOff)]
    [[Fixed ArithAbort] (OnOff)]
    [[Fixed ConcatNullYieldsNull] (OnOff)]
    [[Fixed QuotedIdentifier] (OnOff)]
    [[Fixed CursorCloseOnCommit] (OnOff)]
    [[Fixed FormatOnly] (OnOff)]
    [[Fixed NumericRoundAbort] (OnOff)]
};

const OF_ON_OFF: [&[Symbol]; 2] = productions! { [ON] [OFF] };

const OF_LEVEL: [&[Symbol]; 4] = productions! {
    [READ (AfterRead)]
    [REPEATABLE READ]
    [SNAPSHOT]
    [SERIALIZABLE]
};

const OF_AFTER_READ: [&[Symbol]; 2] = productions! { [COMMITTED] [UNCOMMITTED] };

const OF_SIGNED_NUMBER: [&[Symbol]; 2] = productions! { [NUMBER] [MINUS NUMBER] };

const OF_PRIORITY: [&[Symbol]; 4] = productions! { [LOW] [NORMAL] [HIGH] [(SignedNumber)] };

const OF_OPTION_NAME: [&[Symbol]; 2] = productions! { [NAME] [TEXT] };

const OF_TRANSACTION_WORD: [&[Symbol]; 2] = productions! { [TRAN] [TRANSACTION] };

const OF_TRANSACTION_END: [&[Symbol]; 2] = productions! { [(TransactionWord) (OptionalName)] [] };

const OF_OPTIONAL_NAME: [&[Symbol]; 2] = productions! { [NAME] [] };

const OF_NEXT: [&[Symbol]; 2] = productions! { [NEXT] [] };

const OF_VARIABLES: [&[Symbol]; 1] = productions! { [VARIABLE {Uses} (MoreVariables)] };

const OF_MORE_VARIABLES: [&[Symbol]; 2] = productions! {
    [COMMA VARIABLE {Uses} (MoreVariables)]
    []
};

const OF_AFTER_EXECUTE: [&[Symbol]; 2] = productions! {
    [VARIABLE {Uses} EQUAL (Object) (Arguments)]
    [(Object) (Arguments)]
};

const OF_ARGUMENTS: [&[Symbol]; 2] = productions! { [(Argument) (MoreArguments)] [] };

const OF_MORE_ARGUMENTS: [&[Symbol]; 2] = productions! { [COMMA (Argument) (MoreArguments)] [] };

const OF_ARGUMENT: [&[Symbol]; 2] = productions! {
    [VARIABLE (AfterArgumentVariable)]
    [(Constant) (Output)]
};

const OF_AFTER_ARGUMENT_VARIABLE: [&[Symbol]; 2] = productions! {
    [EQUAL (ArgumentValue) (Output)]
    [{Uses} (Output)]
};

const OF_ARGUMENT_VALUE: [&[Symbol]; 2] = productions! { [VARIABLE {Uses}] [(Constant)] };

const OF_CONSTANT: [&[Symbol]; 3] = productions! { [(SignedNumber)] [TEXT] [NULL] };

const OF_SELECT: [&[Symbol]; 1] = productions! {
    [(Distinct) (Top) (Items) (From) (Where) (GroupBy) (Having) (OrderBy)]
};

const OF_DISTINCT: [&[Symbol]; 2] = productions! { [DISTINCT] [] };

const OF_TOP: [&[Symbol]; 2] = productions! { [TOP (TopNumber)] [] };

const OF_TOP_NUMBER: [&[Symbol]; 2] = productions! { [NUMBER] [PAREN_OPEN NUMBER PAREN_CLOSE] };

const OF_ITEMS: [&[Symbol]; 4] = productions! {
    [VARIABLE {Uses} (AfterFirstVariable)]
    [STAR (MoreItems)]
    [(NamedItem) (MoreItems)]
    [(OtherItem) (MoreItems)]
};

const OF_AFTER_FIRST_VARIABLE: [&[Symbol]; 2] = productions! {
    [EQUAL (Expr) (MoreAssigns)]
    [(AfterItemOperand) (MoreItems)]
};

const OF_MORE_ASSIGNS: [&[Symbol]; 2] = productions! {
    [COMMA VARIABLE {Uses} EQUAL (Expr) (MoreAssigns)]
    []
};

const OF_ITEM: [&[Symbol]; 4] = productions! {
    [VARIABLE {Uses} (AfterItemOperand)]
    [STAR]
    [(NamedItem)]
    [(OtherItem)]
};

pub(crate) const OF_MORE_ITEMS: [&[Symbol]; 2] = productions! { [COMMA (Item) (MoreItems)] [] };

const OF_NAMED_ITEM: [&[Symbol]; 19] = productions! {
    [PLAIN_NAME (AfterItemName)]
    [[Function Cast] (AfterItemFunction Cast)]
    [[Function IsNull] (AfterItemFunction IsNull)]
    [[Function Len] (AfterItemFunction Len)]
    [[Function Count] (AfterItemFunction Count)]
    [[Function Sum] (AfterItemFunction Sum)]
    [[Function Avg] (AfterItemFunction Avg)]
    [[Function Min] (AfterItemFunction Min)]
    [[Function Max] (AfterItemFunction Max)]
    [[Function XactState] (AfterItemFunction XactState)]
    [[Function ErrorNumber] (AfterItemFunction ErrorNumber)]
    [[Function ErrorSeverity] (AfterItemFunction ErrorSeverity)]
    [[Function ErrorState] (AfterItemFunction ErrorState)]
    [[Function ErrorLine] (AfterItemFunction ErrorLine)]
    [[Function ErrorMessage] (AfterItemFunction ErrorMessage)]
    [[Function ErrorProcedure] (AfterItemFunction ErrorProcedure)]
    [[Function SchemaName] (AfterItemFunction SchemaName)]
    [[Function DatabaseName] (AfterItemFunction DatabaseName)]
    [[Function UserName] (AfterItemFunction UserName)]
};

const OF_AFTER_ITEM_NAME: [&[Symbol]; 2] = productions! {
    [DOT (AfterItemDot)]
    [(AfterItemOperand)]
};

const OF_AFTER_ITEM_DOT: [&[Symbol]; 2] = productions! { [STAR] [NAME (AfterItemOperand)] };

const OF_OTHER_ITEM: [&[Symbol]; 3] = productions! {
    [(OtherPrimary) (AfterItemOperand)]
    [PAREN_OPEN {Enter} (Enclosed) PAREN_CLOSE {Leave} (AfterItemOperand)]
    [(AddSign) (MoreSigns) (Primary) (AfterItemOperand)]
};

const OF_AFTER_ITEM_OPERAND: [&[Symbol]; 1] = productions! { [(MoreFactors) (MoreTerms) (Alias)] };

const OF_ALIAS: [&[Symbol]; 3] = productions! { [AS NAME] [NAME] [] };

const OF_FROM: [&[Symbol]; 2] = productions! { [FROM (TableRef) (Joins)] [] };

const OF_TABLE_REF: [&[Symbol]; 1] = productions! { [(Object) (Alias)] };

const OF_JOINS: [&[Symbol]; 6] = productions! {
    [COMMA (TableRef) (Joins)]
    [JOIN (TableRef) ON (Test) (Joins)]
    [INNER JOIN (TableRef) ON (Test) (Joins)]
    [LEFT (Outer) JOIN (TableRef) ON (Test) (Joins)]
    [CROSS JOIN (TableRef) (Joins)]
    []
};

const OF_OUTER: [&[Symbol]; 2] = productions! { [OUTER] [] };

const OF_WHERE: [&[Symbol]; 2] = productions! { [WHERE (Test)] [] };

const OF_GROUP_BY: [&[Symbol]; 2] = productions! { [GROUP BY (Exprs)] [] };

const OF_HAVING: [&[Symbol]; 2] = productions! { [HAVING (Test)] [] };

const OF_ORDER_BY: [&[Symbol]; 2] = productions! { [ORDER BY (OrderItem) (MoreOrderItems)] [] };

const OF_ORDER_ITEM: [&[Symbol]; 1] = productions! { [(Expr) (Direction)] };

const OF_MORE_ORDER_ITEMS: [&[Symbol]; 2] = productions! {
    [COMMA (OrderItem) (MoreOrderItems)]
    []
};

const OF_DIRECTION: [&[Symbol]; 3] = productions! { [ASC] [DESC] [] };

pub(crate) const OF_TEST: [&[Symbol]; 1] = productions! { [(AndTest) (MoreOrs)] };

pub(crate) const OF_MORE_ORS: [&[Symbol]; 2] = productions! { [OR (AndTest) (MoreOrs)] [] };

pub(crate) const OF_AND_TEST: [&[Symbol]; 1] = productions! { [(NotTest) (MoreAnds)] };

pub(crate) const OF_MORE_ANDS: [&[Symbol]; 2] = productions! { [AND (NotTest) (MoreAnds)] [] };

pub(crate) const OF_NOT_TEST: [&[Symbol]; 2] = productions! { [NOT (MoreNots) (Basic)] [(Basic)] };

pub(crate) const OF_MORE_NOTS: [&[Symbol]; 2] = productions! { [NOT (MoreNots)] [] };

pub(crate) const OF_BASIC: [&[Symbol]; 4] = productions! {
    [EXISTS {Enter} PAREN_OPEN SELECT (Select) PAREN_CLOSE {Leave}]
    [PAREN_OPEN {Enter} (Opened 0)]
    [(SimplePrimary) (Operand 0)]
    [(AddSign) (MoreSigns) (Primary) (Operand 0)]
};

pub(crate) const OF_COMPARISON: [&[Symbol]; 4] = productions! {
    [(CompareSign) (Expr)]
    [IS (OptionalNot) NULL]
    [NOT (Membership)]
    [(Membership)]
};

pub(crate) const OF_COMPARE_SIGN: [&[Symbol]; 6] = productions! {
    [EQUAL]
    [NOT_EQUAL]
    [LESS]
    [LESS_EQUAL]
    [GREATER]
    [GREATER_EQUAL]
};

pub(crate) const OF_OPTIONAL_NOT: [&[Symbol]; 2] = productions! { [NOT] [] };

pub(crate) const OF_MEMBERSHIP: [&[Symbol]; 2] = productions! {
    [BETWEEN (Expr) AND (Expr)]
    [IN PAREN_OPEN {Enter} (InList) PAREN_CLOSE {Leave}]
};

pub(crate) const OF_IN_LIST: [&[Symbol]; 2] = productions! { [SELECT (Select)] [(Exprs)] };

pub(crate) const OF_EXPR: [&[Symbol]; 1] = productions! { [(Product) (MoreTerms)] };

pub(crate) const OF_MORE_TERMS: [&[Symbol]; 2] =
    productions! { [(AddSign) (Product) (MoreTerms)] [] };

pub(crate) const OF_ADD_SIGN: [&[Symbol]; 2] = productions! { [PLUS] [MINUS] };

pub(crate) const OF_PRODUCT: [&[Symbol]; 1] = productions! { [(Unary) (MoreFactors)] };

pub(crate) const OF_MORE_FACTORS: [&[Symbol]; 2] =
    productions! { [(MultiplySign) (Unary) (MoreFactors)] [] };

pub(crate) const OF_MULTIPLY_SIGN: [&[Symbol]; 3] = productions! { [STAR] [SLASH] [PERCENT] };

pub(crate) const OF_UNARY: [&[Symbol]; 2] =
    productions! { [(AddSign) (MoreSigns) (Primary)] [(Primary)] };

pub(crate) const OF_MORE_SIGNS: [&[Symbol]; 2] = productions! { [(AddSign) (MoreSigns)] [] };

pub(crate) const OF_PRIMARY: [&[Symbol]; 2] = productions! {
    [PAREN_OPEN {Enter} (Enclosed) PAREN_CLOSE {Leave}]
    [(SimplePrimary)]
};

pub(crate) const OF_SIMPLE_PRIMARY: [&[Symbol]; 3] = productions! {
    [VARIABLE {Uses}]
    [(NamedPrimary)]
    [(OtherPrimary)]
};

pub(crate) const OF_OTHER_PRIMARY: [&[Symbol]; 13] = productions! {
    [NUMBER]
    [TEXT]
    [NULL]
    [TRAN_COUNT]
    [ERROR]
    [ROW_COUNT]
    [FETCH_STATUS]
    [VERSION]
    [SERVER_NAME]
    [MAX_PRECISION]
    [CASE {Enter} (Arm) (MoreArms) (CaseElse) END {Leave}]
    [NULL_IF PAREN_OPEN {Enter} (Expr) COMMA (Expr) PAREN_CLOSE {Leave}]
    [COALESCE PAREN_OPEN {Enter} (Exprs) PAREN_CLOSE {Leave}]
};

pub(crate) const OF_ENCLOSED: [&[Symbol]; 2] = productions! { [SELECT (Select)] [(Expr)] };

pub(crate) const OF_NAMED_PRIMARY: [&[Symbol]; 19] = productions! {
    [PLAIN_NAME (AfterName)]
    [[Function Cast] (AfterFunction Cast)]
    [[Function IsNull] (AfterFunction IsNull)]
    [[Function Len] (AfterFunction Len)]
    [[Function Count] (AfterFunction Count)]
    [[Function Sum] (AfterFunction Sum)]
    [[Function Avg] (AfterFunction Avg)]
    [[Function Min] (AfterFunction Min)]
    [[Function Max] (AfterFunction Max)]
    [[Function XactState] (AfterFunction XactState)]
    [[Function ErrorNumber] (AfterFunction ErrorNumber)]
    [[Function ErrorSeverity] (AfterFunction ErrorSeverity)]
    [[Function ErrorState] (AfterFunction ErrorState)]
    [[Function ErrorLine] (AfterFunction ErrorLine)]
    [[Function ErrorMessage] (AfterFunction ErrorMessage)]
    [[Function ErrorProcedure] (AfterFunction ErrorProcedure)]
    [[Function SchemaName] (AfterFunction SchemaName)]
    [[Function DatabaseName] (AfterFunction DatabaseName)]
    [[Function UserName] (AfterFunction UserName)]
};

pub(crate) const OF_AFTER_NAME: [&[Symbol]; 2] = productions! { [DOT NAME] [] };

const OF_COUNT_ARGUMENTS: [&[Symbol]; 2] = productions! { [STAR] [(Distinct) (Expr)] };

pub(crate) const OF_ARM: [&[Symbol]; 1] = productions! { [WHEN (Test) THEN (Expr)] };

pub(crate) const OF_MORE_ARMS: [&[Symbol]; 2] = productions! { [(Arm) (MoreArms)] [] };

pub(crate) const OF_CASE_ELSE: [&[Symbol]; 2] = productions! { [ELSE (Expr)] [] };

pub(crate) const OF_EXPRS: [&[Symbol]; 1] = productions! { [(Expr) (MoreExprs)] };

pub(crate) const OF_MORE_EXPRS: [&[Symbol]; 2] = productions! { [COMMA (Expr) (MoreExprs)] [] };

/// Where neither a WHILE nor a CATCH stands around.
const OUTSIDE: Around = Around {
    in_while: false,
    in_catch: false,
};

/// What an `Expr` comes to before a number, a text, NULL, a name, a variable, a parenthesis and CASE.
pub(crate) const EXPR_BY_OPERAND: [&[Symbol]; 7] = productions! {
    [NUMBER (MoreFactors) (MoreTerms)]
    [TEXT (MoreFactors) (MoreTerms)]
    [NULL (MoreFactors) (MoreTerms)]
    [PLAIN_NAME (AfterName) (MoreFactors) (MoreTerms)]
    [VARIABLE {Uses} (MoreFactors) (MoreTerms)]
    [PAREN_OPEN {Enter} (Enclosed) PAREN_CLOSE {Leave} (MoreFactors) (MoreTerms)]
    [CASE {Enter} (Arm) (MoreArms) (CaseElse) END {Leave} (MoreFactors) (MoreTerms)]
};

/// What a `Product` comes to before a number, a text, NULL, a name, a variable, a parenthesis and CASE.
pub(crate) const PRODUCT_BY_OPERAND: [&[Symbol]; 7] = productions! {
    [NUMBER (MoreFactors)]
    [TEXT (MoreFactors)]
    [NULL (MoreFactors)]
    [PLAIN_NAME (AfterName) (MoreFactors)]
    [VARIABLE {Uses} (MoreFactors)]
    [PAREN_OPEN {Enter} (Enclosed) PAREN_CLOSE {Leave} (MoreFactors)]
    [CASE {Enter} (Arm) (MoreArms) (CaseElse) END {Leave} (MoreFactors)]
};

/// What an `Unary` comes to before a number, a text, NULL, a name, a variable, a parenthesis and CASE.
pub(crate) const UNARY_BY_OPERAND: [&[Symbol]; 7] = productions! {
    [NUMBER]
    [TEXT]
    [NULL]
    [PLAIN_NAME (AfterName)]
    [VARIABLE {Uses}]
    [PAREN_OPEN {Enter} (Enclosed) PAREN_CLOSE {Leave}]
    [CASE {Enter} (Arm) (MoreArms) (CaseElse) END {Leave}]
};

/// What a `Test` comes to before a number, a text, NULL, a name, a variable, a parenthesis and CASE.
pub(crate) const TEST_BY_OPERAND: [&[Symbol]; 7] = productions! {
    [NUMBER (Operand 0) (MoreAnds) (MoreOrs)]
    [TEXT (Operand 0) (MoreAnds) (MoreOrs)]
    [NULL (Operand 0) (MoreAnds) (MoreOrs)]
    [PLAIN_NAME (AfterName) (Operand 0) (MoreAnds) (MoreOrs)]
    [VARIABLE {Uses} (Operand 0) (MoreAnds) (MoreOrs)]
    [PAREN_OPEN {Enter} (Opened 0) (MoreAnds) (MoreOrs)]
    [CASE {Enter} (Arm) (MoreArms) (CaseElse) END {Leave} (Operand 0) (MoreAnds) (MoreOrs)]
};

/// What a `SimplePrimary` comes to before a number, a text, NULL, a name, a variable.
pub(crate) const SIMPLE_PRIMARY_BY_OPERAND: [&[Symbol]; 5] = productions! {
    [NUMBER]
    [TEXT]
    [NULL]
    [PLAIN_NAME (AfterName)]
    [VARIABLE {Uses}]
};

/// What `MoreTerms` comes to before `+` and `-`.
pub(crate) const MORE_TERMS_BY_SIGN: [&[Symbol]; 2] = productions! {
    [PLUS (Product) (MoreTerms)]
    [MINUS (Product) (MoreTerms)]
};

/// What `MoreFactors` comes to before `*`, `/` and `%`.
pub(crate) const MORE_FACTORS_BY_SIGN: [&[Symbol]; 3] = productions! {
    [STAR (Unary) (MoreFactors)]
    [SLASH (Unary) (MoreFactors)]
    [PERCENT (Unary) (MoreFactors)]
};

/// What a `Comparison` comes to before the signs that compare, and before IN.
pub(crate) const COMPARISON_BY_SIGN: [&[Symbol]; 7] = productions! {
    [EQUAL (Expr)]
    [NOT_EQUAL (Expr)]
    [LESS (Expr)]
    [LESS_EQUAL (Expr)]
    [GREATER (Expr)]
    [GREATER_EQUAL (Expr)]
    [IN PAREN_OPEN {Enter} (InList) PAREN_CLOSE {Leave}]
};
