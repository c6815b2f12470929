//! The numbers in DONE, DONEPROC and DONEINPROC ([MS-TDS] 2.2.7.6 to 2.2.7.8): bits of the status,
//! and kinds of statements.

ghost use Rattle.std.specs.Prelude.{◌≡◌};
ghost use Rattle.tds_tokens.specs.Numbers.{done_final, done_more, done_error, done_count, done_attn, command_none, command_select, command_insert, command_delete, command_update};

/// No bit: the last DONE of a request.
pub const DONE_FINAL: u16 = 0x00;

/// More of the request's answer follows.
pub const DONE_MORE: u16 = 0x01;

/// The statement ended in an error.
pub const DONE_ERROR: u16 = 0x02;

/// The count of rows is valid.
pub const DONE_COUNT: u16 = 0x10;

/// An attention is answered.
pub const DONE_ATTN: u16 = 0x20;

/// Any statement but the others here.
pub const COMMAND_NONE: u16 = 0;

/// SELECT.
pub const COMMAND_SELECT: u16 = 0xC1;

/// INSERT.
pub const COMMAND_INSERT: u16 = 0xC3;

/// DELETE.
pub const COMMAND_DELETE: u16 = 0xC4;

/// UPDATE.
pub const COMMAND_UPDATE: u16 = 0xC5;

/// The constants for the status of a DONE are the numbers of their names.
pub fn law_done_status()
    ensures last { DONE_FINAL ≡ done_final }
    ensures more { DONE_MORE ≡ done_more }
    ensures error { DONE_ERROR ≡ done_error }
    ensures count { DONE_COUNT ≡ done_count }
    ensures attention { DONE_ATTN ≡ done_attn }
{}

/// And those for its command.
pub fn law_done_command()
    ensures none { COMMAND_NONE ≡ command_none }
    ensures select { COMMAND_SELECT ≡ command_select }
    ensures insert { COMMAND_INSERT ≡ command_insert }
    ensures delete { COMMAND_DELETE ≡ command_delete }
    ensures update { COMMAND_UPDATE ≡ command_update }
{}
