//! Laws of texts that were parsed: what each CREATE TABLE of a batch, or of the body of a procedure or trigger, keeps of the text around
//! it reads, alone, as the definition of that table; and what CREATE PROCEDURE and CREATE TRIGGER keep reads, alone, as such a
//! definition, whose lines count from its own first line.
//!
//! Read `specs/Slices.antt` first, then `specs/Rows.antt`, `specs/Placeless.antt` and `specs/Laws.antt`. The functions do nothing: each one's contract is a law of
//! the lexemes of texts (`tsql_lexer`), of what parsing gives (`tsql_grammar`), of what is bound (`binder`) and of what a text is read as
//! (`batch_meaning`). They ask nothing of their caller; only the definitions that they cite say what they mean. Where a variable is
//! declared a CHECK of the batch may use it, as in `DECLARE @x INT CREATE TABLE t(a INT CHECK(a=@x))`, and the table's text alone may not:
//! such a table is never bound. That the text of a batch is not too long is no part of them.
#![tactic(auto)]

ghost use Rattle.text_laws.specs.Laws.{CreatedStays, CreatedReads, CreatedText, DefinedText, ServedCall, ServedText, SliceLexes};

/// A slice of a text, from where one of its lexemes begins to where one ends, has the lexemes between, and no flaw.
#[tactic(auto, using(crate::proofs::Slices::slice_lexes))]
pub fn law_slice_lexing()
    ensures { SliceLexes }
{}

/// What each CREATE TABLE of a batch keeps of the text, at whatever level it stands, is no longer than the text; alone it reads as its
/// table, and so it defines the table where the text is not too long, unless a variable is declared in the batch and the table names one
/// or holds an inner query.
pub fn law_created_text()
    ensures reads { CreatedReads }
    ensures defines { CreatedText }
{}

/// A CREATE TABLE that is bound names no variable, and holds no inner query.
#[tactic(auto, using(crate::proofs::Leaving::created_stays))]
pub fn law_created_stays()
    ensures { CreatedStays }
{}

/// Of the body of a procedure or trigger that a text defines, the text that a CREATE TABLE keeps defines its table, at whatever level it
/// stands and over whatever definitions and variables it is bound.
pub fn law_defined_text()
    ensures { DefinedText }
{}

/// Of the statements that a text is read as, the text that a CREATE TABLE keeps defines its table, at whatever level it stands and over
/// whatever definitions and variables it is bound; and what CREATE PROCEDURE and CREATE TRIGGER keep defines such a procedure or trigger;
/// if the text is not too long.
#[tactic(auto, using(crate::proofs::Served::served_text))]
pub fn law_served_text()
    ensures { ServedText }
{}

/// So it is of the statements of the procedure or trigger that a text is read as for a call by RPC, if the text is not too long.
#[tactic(auto, using(crate::proofs::Served::served_call))]
pub fn law_served_call()
    ensures { ServedCall }
{}
