//! What is noted of a text while it is read: where the reading stands, how deep the text nests, which
//! variables it declared, and the first thing in it that is wrong.

ghost use Rattle.std.specs.Prelude.{◌≡◌, ◌+◌, ◌<◌, ◌-◌, ◌^◌, [], Some, OnOk};
ghost use Rattle.tsql_grammar.specs.Noted.{see, start, note, note_sound};
ghost use Rattle.tsql_grammar.specs.declared.rule.Mark.TheVariants.{Enter, Leave, Uses, Declares};
ghost use Rattle.tsql_grammar.specs.Terminals.{Terminal, units};
ghost use Rattle.tsql_recognizer.specs.Notes.{seen, HasNames, Goes};

use std::alloc::{AllocError, Global};
use std::collections::BTreeSet;
use tsql_grammar::{Mark, TextFault};

/// How deep a text may nest.
const MAX_DEPTH: u32 = 128;

/// What is noted of a text.
#[derive(Drop)]
pub struct Notes<'a> {
    /// Whether variables are judged.
    judges: bool,
    /// How many lexemes were read.
    pub(crate) place: usize,
    /// What the last of them holds.
    last: &'a [u16],
    /// How much is open.
    depth: u32,
    /// The variables that were declared.
    declared: BTreeSet<&'a [u16]>,
    /// What is wrong, and at which lexeme.
    pub(crate) fault: Option<(TextFault, usize)>,
}

impl<'a> Notes<'a> {
    /// What is noted in the beginning.
    pub(crate) fn new(alloc: Global, judges: bool) -> Notes<'a>
        ensures names { HasNames result.declared [] }
        ensures state { seen result [] ≡ start judges }
        ensures place { result.place ≡ 0 }
    {
        Notes {
            judges,
            place: 0,
            last: &[],
            depth: 0,
            declared: BTreeSet::new(alloc),
            fault: None,
        }
    }

    /// A lexeme was read that holds these units.
    pub(crate) fn see(&mut self, held: &'a [u16])
        requires { self.old.place + 1 < 2 ^ 64 }
        ensures means { Goes (λ s t. (l : Terminal) → units l ≡ held.now → t ≡ see s l) self.old self.new }
        ensures place { self.new.place ≡ self.old.place + 1 }
    {
        self.place += 1;
        self.last = held;
    }

    /// What a mark behind the last lexeme means.
    pub(crate) fn note(&mut self, mark: Mark) -> Result<(), AllocError>
        ensures means { OnOk result (Goes (λ s t. t ≡ note s mark) self.old self.new) }
        ensures place { OnOk result (self.new.place ≡ self.old.place) }
    {
        if self.fault.is_some() {
            return Ok(());
        }
        match mark {
            Mark::Enter => self.enter(),
            Mark::Leave => self.leave(),
            Mark::Uses => self.judge_use(),
            Mark::Declares => self.declare()?,
        }
        Ok(())
    }

    fn enter(&mut self)
        ensures means { Goes (λ s t. t ≡ note_sound s Enter) self.old self.new }
        ensures place { self.new.place ≡ self.old.place }
    {
        if self.depth < MAX_DEPTH {
            self.depth += 1;
        } else {
            self.blame(TextFault::TooDeep);
        }
    }

    fn leave(&mut self)
        ensures means { Goes (λ s t. t ≡ note_sound s Leave) self.old self.new }
        ensures place { self.new.place ≡ self.old.place }
    {
        self.depth = self.depth.saturating_sub(1);
    }

    fn judge_use(&mut self)
        ensures means { Goes (λ s t. t ≡ note_sound s Uses) self.old self.new }
        ensures place { self.new.place ≡ self.old.place }
    {
        if self.judges && !self.declared.contains(self.last) {
            self.blame(TextFault::NotDeclared);
        }
    }

    fn declare(&mut self) -> Result<(), AllocError>
        ensures means { OnOk result (Goes (λ s t. t ≡ note_sound s Declares) self.old self.new) }
        ensures place { OnOk result (self.new.place ≡ self.old.place) }
    {
        if self.judges && self.declared.contains(self.last) {
            self.blame(TextFault::DeclaredTwice);
        } else {
            self.declared.insert(self.last)?;
        }
        Ok(())
    }

    /// The lexeme that was read last is at fault.
    fn blame(&mut self, fault: TextFault)
        ensures { self.new ≡ record self.old { fault = Some (fault, self.old.place - 1) } }
    {
        self.fault = Some((fault, self.place.saturating_sub(1)));
    }
}
