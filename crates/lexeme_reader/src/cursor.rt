//! A cursor over the lexemes of a text.

ghost use Rattle.std.specs.Prelude.{◌≡◌};
ghost use Rattle.tsql_grammar.specs.Terminals.{terminals, begins_else};
ghost use Rattle.lexeme_reader.specs.Reading.{Takes, Accepts, Wants, TakesUnits, WantsUnits, TakesNumber, WantsNumber, ahead, sees_any};
ghost use Rattle.tsql_grammar.specs.Lookahead.{of_any};
ghost use Rattle.tsql_grammar.specs.declared.kind.Kind.TheVariants as k;
ghost use Rattle.tsql_grammar.specs.declared.rule.Class.TheVariants as c;

use crate::{ReadFault, number_of, units_of};
use std::alloc::Global;
use std::marker::Model;
use tsql_grammar::{Class, Kind, Reserved, admits, kind_of, same_kind};
use tsql_lexer::{Sign, Spanned};
use value_types::Units;

/// The lexemes that are still to be read.
#[derive(Drop)]
pub struct Lexemes<'a> {
    rest: &'a [Spanned],
    /// The kind of the first of them.
    next: Option<Kind>,
}

impl<'a> Model for Lexemes<'a> {
    ghost use Rattle.std.specs.Prelude.{List};
    ghost use Rattle.tsql_grammar.specs.Terminals.{Terminal};

    ghost Value = { List Terminal };

    ghost use Rattle.lexeme_reader.specs.Cursor.{left_of, IsReady};

    ghost view = { left_of };

    ghost invariant = { IsReady };
}

impl<'a> Lexemes<'a> {
    /// All lexemes of a text.
    pub fn new(text: &'a [Spanned]) -> Lexemes<'a>
        ensures { result ≡ terminals text.now }
    {
        Lexemes {
            rest: text,
            next: next_kind(text),
        }
    }

    /// The kind of the lexeme that comes next.
    pub fn peek(&self) -> Option<Kind>
        ensures { result ≡ ahead self.now }
    {
        self.next
    }

    /// Takes the next lexeme, if it is of the class.
    #[inline(always)]
    pub fn take(&mut self, class: Class) -> Option<&'a Spanned>
        ensures { Takes class self.old result self.new }
    {
        let Some(kind) = self.next else {
            return None;
        };
        if !admits(class, kind) {
            return None;
        }
        let [first, rest @ ..] = self.rest else {
            return None;
        };
        self.rest = rest;
        self.next = next_kind(rest);
        Some(first)
    }

    /// Whether the next lexeme is of one of the classes.
    #[inline(always)]
    pub fn sees_any(&self, classes: &[Class]) -> bool
        ensures { result ≡ sees_any classes.now self.now }
    {
        match self.next {
            None => false,
            Some(kind) => of_any(classes, kind),
        }
    }

    /// Takes the next lexeme, if it is of the class, and says whether it was.
    #[inline(always)]
    pub fn accept(&mut self, class: Class) -> bool
        ensures { Accepts class self.old result self.new }
    {
        self.take(class).is_some()
    }

    /// Takes the sign, if it comes next.
    #[inline(always)]
    pub fn accept_sign(&mut self, sign: Sign) -> bool
        ensures { Accepts (c.One (k.Sign sign)) self.old result self.new }
    {
        self.accept(Class::One(Kind::Sign(sign)))
    }

    /// Takes the reserved word, if it comes next.
    #[inline(always)]
    pub fn accept_word(&mut self, word: Reserved) -> bool
        ensures { Accepts (c.One (k.Reserved word)) self.old result self.new }
    {
        self.accept(Class::One(Kind::Reserved(word)))
    }

    /// Takes the next lexeme, which has to be of the class.
    #[inline(always)]
    pub fn want(&mut self, class: Class) -> Result<(), ReadFault>
        ensures { Wants class self.old result self.new }
    {
        if self.accept(class) {
            Ok(())
        } else {
            Err(ReadFault::Refused)
        }
    }

    /// Takes the sign, which has to come next.
    #[inline(always)]
    pub fn want_sign(&mut self, sign: Sign) -> Result<(), ReadFault>
        ensures { Wants (c.One (k.Sign sign)) self.old result self.new }
    {
        self.want(Class::One(Kind::Sign(sign)))
    }

    /// Takes the reserved word, which has to come next.
    #[inline(always)]
    pub fn want_word(&mut self, word: Reserved) -> Result<(), ReadFault>
        ensures { Wants (c.One (k.Reserved word)) self.old result self.new }
    {
        self.want(Class::One(Kind::Reserved(word)))
    }

    /// Takes the next lexeme, if it is of the class, for the units that it holds.
    pub fn take_units(&mut self, alloc: Global, class: Class) -> Result<Option<Units>, ReadFault>
        ensures { TakesUnits class self.old result self.new }
    {
        match self.take(class) {
            None => Ok(None),
            Some(spanned) => Ok(Some(units_of(alloc, &spanned.lexeme)?)),
        }
    }

    /// Takes the next lexeme, which has to be of the class, for the units that it holds.
    pub fn want_units(&mut self, alloc: Global, class: Class) -> Result<Units, ReadFault>
        ensures { WantsUnits class self.old result self.new }
    {
        match self.take(class) {
            None => Err(ReadFault::Refused),
            Some(spanned) => Ok(units_of(alloc, &spanned.lexeme)?),
        }
    }

    /// Takes the number, if one comes next.
    pub fn take_number(&mut self) -> Option<i64>
        ensures { TakesNumber self.old result self.new }
    {
        match self.take(Class::One(Kind::Number)) {
            None => None,
            Some(spanned) => Some(number_of(&spanned.lexeme)),
        }
    }

    /// Takes the number, which has to come next.
    pub fn want_number(&mut self) -> Result<i64, ReadFault>
        ensures { WantsNumber self.old result self.new }
    {
        match self.take(Class::One(Kind::Number)) {
            None => Err(ReadFault::Refused),
            Some(spanned) => Ok(number_of(&spanned.lexeme)),
        }
    }
}

/// Whether the kind is of one of the classes.
#[inline(always)]
fn of_any(classes: &[Class], kind: Kind) -> bool
    ensures { result ≡ of_any classes.now kind }
{
    for class in classes {
        if admits(*class, kind) {
            return true;
        }
    }
    false
}

/// The kind of the first lexeme.
#[inline(never)]
fn next_kind(text: &[Spanned]) -> Option<Kind>
    ensures { result ≡ ahead (terminals text.now) }
{
    let [first, rest @ ..] = text else {
        return None;
    };
    match kind_of(&first.lexeme) {
        Kind::Sign(Sign::Semicolon) if begins_else(rest) => Some(Kind::BeforeElse),
        kind => Some(kind),
    }
}

fn begins_else(text: &[Spanned]) -> bool
    ensures { result ≡ begins_else text.now }
{
    let [first, ..] = text else {
        return false;
    };
    same_kind(kind_of(&first.lexeme), Kind::Reserved(Reserved::Else))
}
