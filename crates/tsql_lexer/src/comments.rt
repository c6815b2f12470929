//! Comments that nest.

ghost use Rattle.std.specs.Prelude.{◌≡◌};
ghost use Rattle.tsql_lexer.specs.Comments.{comment_size, mark_of};
ghost use Rattle.tsql_lexer.specs.declared.comments.Mark.{Mark as CommentMark};

use crate::signs::{SLASH, STAR};

/// What two units one behind the other are to a comment.
#[derive(Clone, Copy, Debug, PartialEq, Eq)]
pub(crate) enum Mark {
    /// `/*` opens a comment.
    Opener,
    /// `*/` closes one.
    Closer,
    /// They are of no meaning to it together.
    Plain,
}

/// What two units one behind the other are to a comment.
fn mark_of(unit: u16, next: u16) -> Mark
    ensures { result ≡ mark_of unit next }
{
    match (unit, next) {
        (SLASH, STAR) => Mark::Opener,
        (STAR, SLASH) => Mark::Closer,
        _ => Mark::Plain,
    }
}

/// How many units the comment has that a text begins with, if it is closed.
pub(crate) fn comment_size(text: &[u16]) -> Option<usize>
    ensures { result ≡ comment_size text.now }
{
    let mut depth: usize = 0;
    let mut at: usize = 0;
    while at + 1 < text.len() {
        match mark_of(text[at], text[at + 1]) {
            Mark::Opener => {
                depth += 1;
                at += 2;
            }
            Mark::Closer => {
                at += 2;
                if depth <= 1 {
                    return Some(at);
                }
                depth -= 1;
            }
            Mark::Plain => at += 1,
        }
    }
    None
}
