//! What may come of a step, and what came of it.

use crate::conversation::{STEPS, TABLES};
use std::fmt::{self, Display, Formatter, Write};
use std::str::Lines;

/// The error that a statement is refused by, for which memory was wanting.
const NO_MEMORY: &str =
    "ERROR 701 class 17 state 1 line 1: There is insufficient memory to run this statement.";

/// The last token of a batch that was run to its end.
const DONE: &str = "DONE(00,0,0)";

/// What came of the conversation about a step.
#[derive(Clone, Copy, Debug, PartialEq, Eq)]
pub(crate) enum Outcome {
    /// Everything was told, and the tables and the log are as behind the step.
    Whole,
    /// The step was refused for want of memory, and the tables and the log are as before it.
    Refused,
    /// That it was refused so was caught, and the tables and the log are as before it.
    Caught,
    /// The connection ended in the step for want of memory, and the log is as before it or as behind it, and so are the tables.
    Ended,
    /// The step did what it does, and memory was wanting for what came behind it.
    Unseen,
    /// Memory was wanting before the step.
    Before,
    /// Something else.
    Wrong,
}

impl Display for Outcome {
    fn fmt<W: Write>(&self, f: &mut Formatter<W>) -> fmt::Result {
        f.write_str(match self {
            Outcome::Whole => "whole",
            Outcome::Refused => "refused",
            Outcome::Caught => "caught",
            Outcome::Ended => "ended",
            Outcome::Unseen => "unseen",
            Outcome::Before => "before",
            Outcome::Wrong => "wrong",
        })
    }
}

/// What is found behind a connection: the number of commits in the log, if there was memory to ask for it, and the reply to a look
/// at the tables.
#[derive(Clone, Copy)]
pub(crate) struct Left<'a> {
    pub(crate) log: Option<u64>,
    pub(crate) shown: &'a str,
}

/// The tables and the log at some moment.
#[derive(Clone, Copy)]
struct Moment<'a> {
    /// The name of what the tables have.
    tables: &'a str,
    /// How many commits the log has.
    log: u64,
}

/// A step.
#[derive(Clone, Copy)]
pub(crate) struct Step<'a> {
    /// The numbers of those that it comes behind, with points between.
    pub(crate) behind: &'a str,
    pub(crate) text: &'a str,
    after: Moment<'a>,
    refused: &'a str,
    forms: &'a str,
}

/// The step of a number, counted from 1.
pub(crate) fn step_numbered(number: u32) -> Option<Step<'static>> {
    let mut place = 0u32;
    for lines in STEPS.split("---\n") {
        place = place.saturating_add(1);
        if place == number {
            return step_of(lines);
        }
    }
    None
}

/// How many steps there are.
pub(crate) fn step_count() -> u32 {
    let mut count = 0u32;
    for _lines in STEPS.split("---\n") {
        count = count.saturating_add(1);
    }
    count
}

/// The step of some lines.
fn step_of(lines: &str) -> Option<Step<'_>> {
    let (head, rest) = lines.split_once('\n')?;
    let (text, forms) = rest.split_once('\n')?;
    let mut words = head.split(' ');
    Some(Step {
        behind: words.next()?,
        text,
        after: Moment {
            tables: words.next()?,
            log: words.next()?.parse().ok()?,
        },
        refused: words.next()?,
        forms,
    })
}

/// What came of the conversation about a step, by its replies, whether want of memory ended it, and what is found behind it.
pub(crate) fn outcome_of(
    step: &Step<'_>,
    replies: &[String],
    has_ended: bool,
    left: Left<'_>,
) -> Outcome {
    let before = step.before();
    match step.came(before, replies) {
        Outcome::Whole if !has_ended && is_left(step.after, left) => Outcome::Whole,
        Outcome::Whole if !has_ended && may_be_left(step.after, left) => Outcome::Unseen,
        Outcome::Refused if !has_ended && is_left(before, left) => Outcome::Refused,
        Outcome::Caught if !has_ended && is_left(before, left) => Outcome::Caught,
        Outcome::Ended if has_ended && is_left(before, left) => Outcome::Ended,
        Outcome::Ended if has_ended && is_left(step.after, left) => Outcome::Ended,
        Outcome::Unseen if is_left(step.after, left) => Outcome::Unseen,
        Outcome::Before => Outcome::Before,
        _ => Outcome::Wrong,
    }
}

impl Step<'_> {
    /// The tables and the log before it.
    fn before(&self) -> Moment<'static> {
        let mut before = Moment {
            tables: "neither",
            log: 0,
        };
        for word in self.behind.split('.') {
            if let Some(other) = step_numbered(word.parse().unwrap_or(0)) {
                before = other.after;
            }
        }
        before
    }

    /// What came of it, by the replies: to what it comes behind, if there is something, to itself, and to the look at the tables.
    fn came(&self, before: Moment<'_>, replies: &[String]) -> Outcome {
        let behind = if before.tables == "neither" {
            replies
        } else {
            match replies {
                [first, behind @ ..] if is_run(first) => behind,
                _ => return Outcome::Before,
            }
        };
        match behind {
            [] => Outcome::Ended,
            [told] if self.is_form("told", told) => Outcome::Unseen,
            [told, look] if self.is_form("told", told) => {
                if agrees(look, tables_of(self.after.tables), "", "") {
                    Outcome::Whole
                } else if is_unseen(look) {
                    Outcome::Unseen
                } else {
                    Outcome::Wrong
                }
            }
            [told, look] if agrees(look, tables_of(before.tables), "", "") => self.refusal(told),
            _ => Outcome::Wrong,
        }
    }

    /// How a reply says that memory was wanting for it.
    fn refusal(&self, told: &str) -> Outcome {
        if agrees(told, "no memory", self.refused, DONE) || self.is_form("refused", told) {
            Outcome::Refused
        } else if self.is_form("caught", told) {
            Outcome::Caught
        } else {
            Outcome::Wrong
        }
    }

    /// Whether a reply is one of the forms under this mark.
    fn is_form(&self, mark: &str, given: &str) -> bool {
        for form in self.forms.split("=> ") {
            if let Some((word, wanted)) = form.split_once('\n')
                && word == mark
                && agrees(given, wanted, "", "")
            {
                return true;
            }
        }
        false
    }
}

/// Whether the log and the tables are those of a moment, whose open transaction, if there is one, was rolled back.
fn is_left(moment: Moment<'_>, left: Left<'_>) -> bool {
    left.log == Some(moment.log) && agrees(left.shown, committed_tables(moment.log), "", "")
}

/// The same, where memory may have been wanting to look at them.
fn may_be_left(moment: Moment<'_>, left: Left<'_>) -> bool {
    let is_log = match left.log {
        Some(log) => log == moment.log,
        None => true,
    };
    let is_shown = agrees(left.shown, committed_tables(moment.log), "", "");
    is_log && (is_shown || is_unseen(left.shown))
}

/// What the queries show where the log has so many commits.
fn committed_tables(log: u64) -> &'static str {
    tables_of(match log {
        0 => "neither",
        1 => "orders",
        2 => "empty",
        3 => "ordered",
        4 => "filled",
        5 => "four",
        _ => "none",
    })
}

/// Whether a reply tells of no error.
fn is_run(given: &str) -> bool {
    for line in given.lines() {
        if line.starts_with("ERROR") {
            return false;
        }
    }
    true
}

/// Whether memory was wanting for a look.
fn is_unseen(given: &str) -> bool {
    if given.is_empty() {
        return true;
    }
    for line in given.lines() {
        if line == NO_MEMORY {
            return true;
        }
    }
    false
}

/// What the queries show of the tables with this name.
fn tables_of(name: &str) -> &'static str {
    for lines in TABLES.split("---\n") {
        if let Some((word, shown)) = lines.split_once('\n')
            && word == name
        {
            return shown;
        }
    }
    "no such tables"
}

/// Whether a reply has the lines of three parts, one behind another.
fn agrees(given: &str, first: &str, second: &str, third: &str) -> bool {
    let mut given = given.lines();
    begins(&mut given, first)
        && begins(&mut given, second)
        && begins(&mut given, third)
        && given.next().is_none()
}

/// Whether the next lines are these.
fn begins(given: &mut Lines<'_>, wanted: &str) -> bool {
    for line in wanted.lines() {
        match given.next() {
            Some(other) if is_line(other, line) => {}
            _ => return false,
        }
    }
    true
}

/// Whether a line is as it is wanted.
fn is_line(given: &str, wanted: &str) -> bool {
    if wanted == "no memory" {
        given == NO_MEMORY
    } else {
        given == wanted
    }
}
