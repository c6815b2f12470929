//! What the verdicts mean for lexemes as the lexer gives them.

ghost use Rattle.std.specs.Prelude.{◌≡◌, List, false};
ghost use Rattle.tsql_lexer.specs.declared.lexeme.Spanned.{Spanned};
ghost use Rattle.tsql_grammar.specs.declared.rule.Rule.{Rule as GrammarRule};
ghost use Rattle.tsql_grammar.specs.Noted.{Noted};
ghost use Rattle.tsql_grammar.specs.PlainText.{may_end_before_else};
ghost use Rattle.tsql_grammar.specs.Terminals.{terminals};
ghost use Rattle.tsql_recognizer.specs.declared.recognizer.Verdict.{Verdict as OfLexemes};
ghost use Rattle.tsql_recognizer.specs.PlainVerdict.{IsPlainVerdict};
ghost use Rattle.tsql_recognizer.specs.Verdict.{IsVerdict};

/// What is said of lexemes by their kinds, of which a semicolon before ELSE has one of its own, is so of
/// them as they are. A text of the rule must not end where an ELSE could come.
pub fn law_plain_verdict()
    ensures { (a : GrammarRule) (w : List Spanned) (s : Noted) (v : OfLexemes) → may_end_before_else a ≡ false → IsVerdict a (terminals w) s v → IsPlainVerdict a w s v }
{}
