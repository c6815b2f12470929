//! How many keys a range has at most.

use crate::counting::Counting;
use crate::served::reply_to;
use engine_core::SoloPort;
use std::alloc::Global;
use std::test::Fail;
use value_types::Memory;

/// The reply to a selection where the table has keys up to this one.
fn selected(alloc: Global, last: i64) -> Result<String, Memory> {
    let mut port = Counting {
        port: SoloPort::new(alloc, 1),
        last,
        alloc,
    };
    reply_to(
        alloc,
        &mut port,
        "CREATE TABLE t (k INT NOT NULL PRIMARY KEY)",
    )?;
    reply_to(alloc, &mut port, "SELECT k FROM t")
}

#[test]
fn a_range_has_fewer_than_ten_million_keys(rt: HostRuntime) -> Result<(), Fail> {
    let refused = selected(rt.alloc(), 10_000_000)?;
    assert!(rt;
        refused.as_str() == "error 49003, done 3 C1 0, done 0 0 0,",
        "{refused}"
    );
    let granted = selected(rt.alloc(), 9_999_999)?;
    assert!(rt;
        granted.as_str() == "columns, done 11 C1 0, done 0 0 0,",
        "{granted}"
    );
    Ok(())
}
