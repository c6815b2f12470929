//! The readers of a part of a text.

use query_parser::{parse_expr, parse_select, parse_test};
use std::alloc::Global;
use std::test::Fail;
use tsql_lexer::lexing_of;
use value_types::{Memory, units_of_str};

/// How many units a text never has.
const TOO_MANY: usize = 1 << 31;

/// Where what was read ends, which is let go here; 0 where nothing was.
fn end_of<T: Drop, E: Drop>(read: Result<(T, u32), E>) -> u32 {
    match read {
        Ok((_read, end)) => end,
        Err(_) => 0,
    }
}

/// At which lexemes of a text its expression, its test and its select end, each as the text begins with it, or 0.
fn ends_of(alloc: Global, text: &str) -> Result<(u32, u32, u32), Memory> {
    let units = units_of_str(alloc, text)?;
    if units.len() >= TOO_MANY {
        return Err(Memory);
    }
    let lexing = lexing_of(alloc, &units)?;
    let lexemes = lexing.lexemes.as_slice();
    let expr = end_of(parse_expr(alloc, lexemes, 0));
    let test = end_of(parse_test(alloc, lexemes, 0));
    let select = end_of(parse_select(alloc, lexemes, 0));
    Ok((expr, test, select))
}

/// The longest run that is one: behind it may stand anything, and a run that could go on is none.
#[test]
fn parts_of_texts_are_read(rt: HostRuntime) -> Result<(), Fail> {
    assert!(rt; ends_of(rt.alloc(), "1 + 2 * 3 , 4")? == (5, 0, 0));
    assert!(rt; ends_of(rt.alloc(), "k = 1 OR k = 2 )")? == (1, 7, 0));
    assert!(rt; ends_of(rt.alloc(), "SELECT k FROM t ;")? == (0, 0, 4));
    assert!(rt; ends_of(rt.alloc(), "1 +")? == (0, 0, 0));
    Ok(())
}
