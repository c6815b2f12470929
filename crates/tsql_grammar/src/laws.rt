//! The laws of the grammar, which hold of every text and every rule.

ghost use Rattle.std.specs.Prelude.{◌≡◌, ℕ, List, [], Some, Result, Err, false};
ghost use Rattle.tsql_lexer.specs.declared.lexeme.Spanned.{Spanned};
ghost use Rattle.tsql_tree.specs.declared.definition.Definition.{Definition as DefinitionTree};
ghost use Rattle.tsql_tree.specs.declared.query.Test.{Test};
ghost use Rattle.tsql_tree.specs.declared.statement.Batch.{Batch as BatchTree};
ghost use Rattle.tsql_grammar.specs.declared.fault.ParseFault.{ParseFault as Fault};
ghost use Rattle.tsql_grammar.specs.declared.fault.ParseFault.TheVariants.{Memory as NoMemory};
ghost use Rattle.tsql_grammar.specs.declared.rule.Rule.{Rule as GrammarRule};
ghost use Rattle.tsql_grammar.specs.declared.rule.Rule.TheVariants.{Basic};
ghost use Rattle.tsql_grammar.specs.BasicTest.{IsWritten, basic};
ghost use Rattle.tsql_grammar.specs.Language.{ReadsAs, IsCut, StopsIn, read_rule};
ghost use Rattle.tsql_grammar.specs.Noted.{Noted};
ghost use Rattle.tsql_grammar.specs.Parsed.{BatchOf, DefinitionOf};
ghost use Rattle.tsql_grammar.specs.PlainText.{ReadsPlain, PlainStopsIn, may_end_before_else};
ghost use Rattle.tsql_grammar.specs.Productions.{Tree};
ghost use Rattle.tsql_grammar.specs.Terminals.{Terminal, terminals};

/// No text stands for two trees, nor are two things noted of it.
pub fn law_one_reading()
    ensures { (text : List ℕ) (a : GrammarRule) (w : List Terminal) (x y : Tree a) (s t u : Noted) → ReadsAs text a w x s t → ReadsAs text a w y s u → (x ≡ y) × (t ≡ u) }
{}

/// What reads can be cut into the pieces of its productions.
pub fn law_pieces()
    ensures { (text : List ℕ) (a : GrammarRule) (w : List Terminal) (x : Tree a) (s t : Noted) → ReadsAs text a w x s t → IsCut text a w x s t }
{}

/// Reading by descent gives the tree of each text that reads, and leaves nothing.
pub fn law_descent()
    ensures { (text : List ℕ) (a : GrammarRule) (w : List Terminal) (x : Tree a) (s t : Noted) → ReadsAs text a w x s t → read_rule text a w ≡ Some (x, []) }
{}

/// A test without connectives is what it is written as: the parentheses that the table counts are those
/// of a test or of an expression.
pub fn law_basic()
    ensures reads_as_written { (text : List ℕ) (w : List Terminal) (x : Test) (s t : Noted) → ReadsAs text Basic w x s t → IsWritten text basic w x s t }
    ensures written_reads { (text : List ℕ) (w : List Terminal) (x : Test) (s t : Noted) → IsWritten text basic w x s t → ReadsAs text Basic w x s t }
{}

/// The kind of a semicolon that stands before ELSE changes no reading: the lexemes read by it where they
/// read as they are, with the same tree and the same notes.
pub fn law_plain_reads()
    ensures kinds_read { (text : List ℕ) (a : GrammarRule) (w : List Spanned) (x : Tree a) (s t : Noted) → ReadsAs text a (terminals w) x s t → ReadsPlain text a w x s t }
    ensures plain_reads { (text : List ℕ) (a : GrammarRule) (w : List Spanned) (x : Tree a) (s t : Noted) → ReadsPlain text a w x s t → ReadsAs text a (terminals w) x s t }
{}

/// Nor does it move a place: where the lexemes stop by it, they stop as they are. A text of the rule must
/// not end where an ELSE could come, as one of a batch, a definition, a select, a test or an expression.
pub fn law_plain_stops()
    ensures { (text : List ℕ) (a : GrammarRule) (w : List Spanned) (s : Noted) (at : ℕ) → may_end_before_else a ≡ false → StopsIn text a (terminals w) s at → PlainStopsIn text a w s at }
{}

/// A text has one outcome, but for want of memory.
#[tactic(auto, using(crate::proofs::OneOutcome::one_batch, crate::proofs::OneOutcome::one_definition))]
pub fn law_one_outcome()
    ensures batch { (text : List ℕ) (x y : Result BatchTree Fault) → (x ≡ Err NoMemory → ⊥) → (y ≡ Err NoMemory → ⊥) → BatchOf text x → BatchOf text y → x ≡ y }
    ensures definition { (text : List ℕ) (x y : Result DefinitionTree Fault) → (x ≡ Err NoMemory → ⊥) → (y ≡ Err NoMemory → ⊥) → DefinitionOf text x → DefinitionOf text y → x ≡ y }
{}
