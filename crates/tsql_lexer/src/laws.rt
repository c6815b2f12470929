//! What the reading of texts comes to, in the words of the lexical rules.

ghost use Rattle.std.specs.Prelude.{◌≡◌, ℕ, List, [], ◌++◌, Option};
ghost use Rattle.tsql_lexer.specs.declared.fault.Flaw.{Flaw as TextFlaw};
ghost use Rattle.tsql_lexer.specs.declared.lexeme.Lexeme.{Lexeme as TextLexeme};
ghost use Rattle.tsql_lexer.specs.declared.lexeme.Spanned.{Spanned as SpannedLexeme};
ghost use Rattle.tsql_lexer.specs.Lexemes.{Spells, IsLexeme};
ghost use Rattle.tsql_lexer.specs.Parts.{Lexes};
ghost use Rattle.tsql_lexer.specs.Reading.{lexing_of};

/// A text has the lexemes and the flaw that are read of it, and no others.
pub fn law_lexing()
    ensures read { (text : List ℕ) → Lexes text (lexing_of text).0 (lexing_of text).1 }
    ensures once { (text : List ℕ) (lexemes : List SpannedLexeme) (flaw : Option TextFlaw) → Lexes text lexemes flaw → lexing_of text ≡ (lexemes, flaw) }
{}

/// A lexeme has as many units as it can have: with more of those behind it they spell none.
pub fn law_longest()
    ensures { (units part rest : List ℕ) (lexeme other : TextLexeme) → IsLexeme units (part ++ rest) lexeme → Spells (units ++ part) other → part ≡ [] }
{}
