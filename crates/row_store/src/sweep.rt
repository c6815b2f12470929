//! Walks over the entries at a session's own keys: back to a mark, and both ends of its transaction.

ghost use Rattle.std.specs.Prelude.{◌≡◌, ◌+◌, ◌<◌, ◌^◌, ◌++◌, Some, is_some, length};
ghost use Rattle.std.specs.LinkedList.{linked_list_len};
ghost use Rattle.std.specs.List.{filter_map};
ghost use Rattle.std.specs.Option.{option_and_then, option_to_list};
ghost use Rattle.row_store.specs.Rows.{AreInOrder, at_key};
ghost use Rattle.row_store.specs.Owned.{AreReached, IsReachedBy};
ghost use Rattle.row_store.specs.Parts.{AreParts, rows_of};
ghost use Rattle.row_store.specs.Places.{edit_at};
ghost use Rattle.row_store.specs.Writes.{settled, dropped, settled_left, dropped_left, back_left, is_gone, change_in, pending_at};

use crate::owned::Spot;
use crate::parts::Parts;
use std::alloc::Global;
use std::collections::{BTreeSet, LinkedList};
use step_model::Change;

/// At how many of these keys the session has a state pending.
pub(crate) fn changes_at(parts: &Parts, session: u32, spots: &BTreeSet<Spot>) -> u64
    requires parts { AreParts parts.now }
    requires ordered { AreInOrder (rows_of parts.now) }
    requires reached { IsReachedBy (pending_at session) spots.now.keys (rows_of parts.now) }
    ensures { result ≡ length (filter_map (pending_at session) (rows_of parts.now)) }
{
    let mut count = 0;
    for spot in spots {
        if is_changed_at(parts, session, spot) {
            count += 1;
        }
    }
    count
}

/// Whether the session has a state pending at the key.
fn is_changed_at(parts: &Parts, session: u32, spot: &Spot) -> bool
    requires { AreParts parts.now }
    ensures { result ≡ is_some (option_and_then (pending_at session) (at_key (rows_of parts.now) spot.now.table spot.now.key)) }
{
    match parts.get(&spot.table, &spot.key) {
        Some(stored) => stored.is_changed_by(session),
        None => false,
    }
}

/// Takes the session's states at these keys back to a mark.
pub(crate) fn back_at(parts: &mut Parts, session: u32, mark: u64, spots: &BTreeSet<Spot>)
    requires parts { AreParts parts.old }
    requires ordered { AreInOrder (rows_of parts.old) }
    requires reached { AreReached (back_left session mark) spots.now.keys (rows_of parts.old) }
    ensures parts { AreParts parts.new }
    ensures rows { rows_of parts.new ≡ filter_map (back_left session mark) (rows_of parts.old) }
{
    for spot in spots {
        back_spot(parts, session, mark, spot);
    }
}

/// Takes them back at a key.
fn back_spot(parts: &mut Parts, session: u32, mark: u64, spot: &Spot)
    requires { AreParts parts.old }
    ensures parts { AreParts parts.new }
    ensures rows { rows_of parts.new ≡ edit_at (back_left session mark) spot.now.table spot.now.key (rows_of parts.old) }
{
    match parts.get_mut(&spot.table, &spot.key) {
        Some(stored) => stored.back_to(session, mark),
        None => {}
    }
}

/// Makes the session's states at these keys the committed rows, and gives what they change, in order.
pub(crate) fn settle_at(
    parts: &mut Parts,
    alloc: Global,
    session: u32,
    spots: &BTreeSet<Spot>,
) -> LinkedList<Change>
    requires parts { AreParts parts.old }
    requires ordered { AreInOrder (rows_of parts.old) }
    requires reached { AreReached (settled_left session) spots.now.keys (rows_of parts.old) }
    ensures parts { AreParts parts.new }
    ensures rows { rows_of parts.new ≡ filter_map (settled_left session) (rows_of parts.old) }
    ensures changes { result ≡ filter_map (change_in session) (rows_of parts.old) }
{
    let mut changes = LinkedList::new(alloc);
    for spot in spots {
        settle_spot(parts, session, spot, &mut changes);
    }
    changes
}

/// Settles the entry at a key, which goes if nothing is kept there then.
fn settle_spot(parts: &mut Parts, session: u32, spot: &Spot, changes: &mut LinkedList<Change>)
    requires parts { AreParts parts.old }
    requires room { linked_list_len changes.old + 1 < 2 ^ 63 }
    ensures parts { AreParts parts.new }
    ensures rows { rows_of parts.new ≡ edit_at (settled_left session) spot.now.table spot.now.key (rows_of parts.old) }
    ensures changes { changes.new ≡ changes.old ++ option_to_list (option_and_then (change_in session) (at_key (rows_of parts.old) spot.now.table spot.now.key)) }
{
    if settle_there(parts, session, spot, changes) {
        parts.remove(&spot.table, &spot.key);
    }
}

/// Settles it there; and whether it is to go.
fn settle_there(
    parts: &mut Parts,
    session: u32,
    spot: &Spot,
    changes: &mut LinkedList<Change>,
) -> bool
    requires parts { AreParts parts.old }
    requires room { linked_list_len changes.old + 1 < 2 ^ 63 }
    ensures parts { AreParts parts.new }
    ensures rows { rows_of parts.new ≡ edit_at (λ one. Some (settled session one)) spot.now.table spot.now.key (rows_of parts.old) }
    ensures gone { result ≡ is_gone (settled session) (at_key (rows_of parts.old) spot.now.table spot.now.key) }
    ensures changes { changes.new ≡ changes.old ++ option_to_list (option_and_then (change_in session) (at_key (rows_of parts.old) spot.now.table spot.now.key)) }
{
    match parts.get_mut(&spot.table, &spot.key) {
        Some(stored) => {
            stored.settle(session, changes);
            !stored.is_kept()
        }
        None => false,
    }
}

/// Drops the session's states at these keys.
pub(crate) fn drop_at(parts: &mut Parts, session: u32, spots: &BTreeSet<Spot>)
    requires parts { AreParts parts.old }
    requires ordered { AreInOrder (rows_of parts.old) }
    requires reached { AreReached (dropped_left session) spots.now.keys (rows_of parts.old) }
    ensures parts { AreParts parts.new }
    ensures rows { rows_of parts.new ≡ filter_map (dropped_left session) (rows_of parts.old) }
{
    for spot in spots {
        drop_spot(parts, session, spot);
    }
}

/// Drops them at a key, whose entry goes if nothing is kept there then.
fn drop_spot(parts: &mut Parts, session: u32, spot: &Spot)
    requires { AreParts parts.old }
    ensures parts { AreParts parts.new }
    ensures rows { rows_of parts.new ≡ edit_at (dropped_left session) spot.now.table spot.now.key (rows_of parts.old) }
{
    if drop_there(parts, session, spot) {
        parts.remove(&spot.table, &spot.key);
    }
}

/// Drops them there; and whether the entry is to go.
fn drop_there(parts: &mut Parts, session: u32, spot: &Spot) -> bool
    requires { AreParts parts.old }
    ensures parts { AreParts parts.new }
    ensures rows { rows_of parts.new ≡ edit_at (λ one. Some (dropped session one)) spot.now.table spot.now.key (rows_of parts.old) }
    ensures gone { result ≡ is_gone (dropped session) (at_key (rows_of parts.old) spot.now.table spot.now.key) }
{
    match parts.get_mut(&spot.table, &spot.key) {
        Some(stored) => {
            stored.drop_pending(session);
            !stored.is_kept()
        }
        None => false,
    }
}
