//! Lexemes, and where they stand in their text.

use value_types::Units;

/// A lexeme of a text, and where it stands.
#[derive(Drop)]
pub struct Spanned {
    /// What it is.
    pub lexeme: Lexeme,
    /// How many units stand before it.
    pub start: u32,
    /// How many units stand before what is behind it.
    pub end: u32,
    /// The line at which it begins, counted from 1.
    pub line: u32,
}

/// A lexeme of Transact-SQL.
#[derive(Debug, Drop)]
pub enum Lexeme {
    /// A word, a keyword or a name, as it is spelled.
    Word(Units),
    /// A name in brackets or double quotes, without them and with doubled ones undone.
    Quoted(Units),
    /// The name of a variable with its `@`.
    Variable(Units),
    /// The name of a system value with its `@@`.
    SystemName(Units),
    /// A number.
    Number(i64),
    /// A text in single quotes, without them and with doubled ones undone.
    Text(Units),
    /// A sign.
    Sign(Sign),
}

/// A sign.
#[derive(Clone, Copy, Debug, PartialEq, Eq)]
pub enum Sign {
    /// `(`
    Open,
    /// `)`
    Close,
    /// `,`
    Comma,
    /// `.`
    Dot,
    /// `;`
    Semicolon,
    /// `+`
    Plus,
    /// `-`
    Minus,
    /// `*`
    Star,
    /// `/`
    Slash,
    /// `%`
    Percent,
    /// `=`
    Equal,
    /// `<>` or `!=`
    NotEqual,
    /// `<`
    Less,
    /// `<=`
    LessEqual,
    /// `>`
    Greater,
    /// `>=`
    GreaterEqual,
}
