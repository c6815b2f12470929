//! Copies of replies and of planned writes.

use lock_modes::Pair;
use std::alloc::Global;
use std::test::Fail;
use step_model::{Cycle, Deed, Edge, Place, Planned, Reply, Resource};
use value_types::{Key, Memory, Row, TableName, Units, Value};

fn name(alloc: Global) -> TableName {
    TableName {
        object: Units::new(alloc),
        part: 0,
    }
}

fn key(alloc: Global) -> Result<Key, Memory> {
    Ok(Key::new(vec![in alloc; Value::Null]?))
}

/// The copy of a reply to one who has fallen: it waits for another at a key.
fn copied_fall(alloc: Global) -> Result<Reply, Memory> {
    let edge = Edge {
        waiter: 1,
        asked: Pair::EXCLUSIVE,
        on: Resource {
            table: name(alloc),
            place: Place::At(key(alloc)?),
        },
        holder: 2,
        held: Pair::EXCLUSIVE,
    };
    let cycle = Cycle::from(vec![in alloc; edge]?);
    Reply::Victim { cycle }.copy(alloc)
}

/// The copy of a reply to one in whose way another stands at the end of a table.
fn copied_refusal(alloc: Global) -> Result<Reply, Memory> {
    let on = Resource {
        table: name(alloc),
        place: Place::End,
    };
    Reply::TimedOut {
        holder: 2,
        held: Pair::EXCLUSIVE,
        asked: Pair::EXCLUSIVE,
        on,
    }
    .copy(alloc)
}

/// The copy of a write.
fn copied_write(alloc: Global) -> Result<Planned, Memory> {
    Planned {
        table: name(alloc),
        key: key(alloc)?,
        deed: Deed::Replace(Row::from(vec![in alloc; Value::Null]?)),
    }
    .copy(alloc)
}

#[test]
fn copies_are_made(rt: HostRuntime) {
    assert!(rt; matches!(&copied_fall(rt.alloc()), Ok(Reply::Victim { .. })));
    assert!(rt;
        matches!(
            &copied_refusal(rt.alloc()),
            Ok(Reply::TimedOut { holder: 2, .. })
        )
    );
    assert!(rt; copied_write(rt.alloc()).is_ok());
}
