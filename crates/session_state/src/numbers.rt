//! The numbers of the errors of statements.

/// The error of a table that is not there.
pub const UNKNOWN_TABLE: u16 = 208;

/// The error where memory was wanting for a statement.
pub const NO_MEMORY: u16 = 701;

/// The same, as the number of a failure.
pub const WANTING: i32 = 701;

/// The error of a database that is not there.
pub const NO_DATABASE: u16 = 911;

/// The error of a session that fell as a deadlock's victim.
pub const DEADLOCK: u16 = 1205;

/// The error where a lock of another session stands in the way of one that does not wait.
pub const LOCK_TIMEOUT: u16 = 1222;

/// The error of a table that is there.
pub const OBJECT_PRESENT: u16 = 2714;

/// The error of a table that is to be dropped and is not there.
pub const NOT_THERE: u16 = 3701;

/// The error of a table that is to be dropped, and to which another refers.
pub const IS_PARENT: u16 = 3726;

/// The error of a ROLLBACK where no transaction is open.
pub const NOTHING_OPEN: u16 = 3903;

/// The error of a statement that a doomed transaction refuses.
pub const DOOMED_WRITE: u16 = 3930;

/// The error of a transaction that is doomed at the end of its batch.
pub const DOOMED_AT_END: u16 = 3998;

/// The error of a cursor that is open already.
pub const CURSOR_OPEN: u16 = 16905;

/// The error of a cursor that is there already.
pub const CURSOR_PRESENT: u16 = 16915;

/// The error of a cursor that is not there.
pub const NO_SUCH_CURSOR: u16 = 16916;

/// The error of a cursor that is not open.
pub const CURSOR_SHUT: u16 = 16917;

/// The error of a batch that would begin too many statements.
pub const STATEMENTS_SPENT: u16 = 49001;

/// The error of a result with too many rows, or of a batch with too many bytes.
pub const RESULT_FULL: u16 = 49002;

/// The error of a range with too many keys.
pub const RANGE_FULL: u16 = 49003;

/// The error of an option or an argument outside the profile.
pub const OUTSIDE_PROFILE: u16 = 49004;

/// The error of a variable beyond those that can stand, of a definition outside the limits, of a cursor's select that
/// assigns, and of what binding does not give of a statement.
pub const OUTSIDE_LIMITS: u16 = 49007;

/// The error of a FETCH into another count of variables than the cursor has columns.
pub const OTHER_COUNT: u16 = 49012;

/// The error of a procedure that is not there.
pub const NO_PROCEDURE: u16 = 2812;

/// The error of a procedure or trigger that would stand too deep in others.
pub const TOO_DEEP: u16 = 217;

/// The error of a procedure that ended with another count of transactions than it began with.
pub const UNEVEN: u16 = 266;

/// The error of a write of which a trigger has ended the transaction.
pub const ENDED_IN_TRIGGER: u16 = 3609;

/// The error of a write of which a trigger has doomed the transaction.
pub const DOOMED_IN_TRIGGER: u16 = 3616;
