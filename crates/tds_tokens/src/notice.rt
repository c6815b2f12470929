//! What an ERROR or INFO token says.

ghost use Rattle.std.specs.Prelude.{◌≡◌, take};
ghost use Rattle.tds_tokens.specs.Numbers.{text_limit};

use value_types::Units;

/// How many units of a message are sent at most.
pub const TEXT_LIMIT: usize = 2000;

/// An error or a message as its client sees it ([MS-TDS] 2.2.7.10 and 2.2.7.13).
#[derive(Drop)]
pub struct Notice {
    /// The error's number.
    pub number: i32,
    /// The state, which tells places of one error apart.
    pub state: u8,
    /// The class, or severity.
    pub class: u8,
    /// The message.
    pub text: Units,
    /// The procedure in which the error arose, or nothing.
    pub procedure: Units,
    /// The line in the batch or procedure, from 1.
    pub line: i32,
}

impl Notice {
    /// A notice whose text is cut to the 2,000 units that are sent at most. It takes no memory.
    pub fn new(
        number: i32,
        state: u8,
        class: u8,
        mut text: Units,
        procedure: Units,
        line: i32,
    ) -> Notice
        ensures text { result.text ≡ take text_limit text }
        ensures procedure { result.procedure ≡ procedure }
        ensures number { result.number ≡ number }
        ensures state { result.state ≡ state }
        ensures class { result.class ≡ class }
        ensures line { result.line ≡ line }
    {
        text.truncate(TEXT_LIMIT);
        Notice {
            number,
            state,
            class,
            text,
            procedure,
            line,
        }
    }
}
