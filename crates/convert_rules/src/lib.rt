//! The conversions of values between the types of SQL.
//!
//! `specs/Lib.antt` says in which order to read. The layers above rely on [`convert`] and [`cast`]
//! giving what the table of conversions says, at every value and type, and on [`error_of`] naming the
//! error of a fault, which goes by the value's own kind ([`law_error_of`]): where the type of a value
//! isn't known, [`type_of`] serves. Nothing is asked of the caller. Only a conversion to a text takes
//! memory. Only tests show that want of memory is not answered where there is memory.
//!
//! ```text
//! convert(alloc, &Value::Whole(300), SqlType::Int, SqlType::TinyInt) == Err(ConvertFault::Overflow)
//! error_of(ConvertFault::Overflow, SqlType::Int, SqlType::TinyInt) == Some(220)
//! cast(alloc, &text("abc"), SqlType::NText(3), SqlType::NText(2)) == Ok(text("ab"))
//! ```
#![tactic(auto)]

mod conversion;
mod fault;
mod reading;

pub use conversion::{cast, convert};
pub use fault::{ConvertFault, error_of, law_error_of, type_of};
