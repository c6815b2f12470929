//! One turn: taken, used and given back.

ghost use Rattle.std.specs.Prelude.{◌≡◌, ◌≢◌, ◌≤◌, [], ◌∷◌, Some, None};
ghost use Rattle.turn_desk.specs.declared.view.View.TheVariants.{LiveSeat};
ghost use Rattle.turn_desk.specs.Acts.{Acts};
ghost use Rattle.turn_desk.specs.Views.{past_of, seat_of};
ghost use Rattle.turn_desk.specs.Moves.{IsDeskTable, IsSame, with_step, HasTurn, Moved};

use crate::machine::Machine;
use crate::machine_box::MachineBox;
use crate::rule::{Count, Leave, News, SharedTable, TableSeat, Try};
use std::marker::Brand;
use std::sync::Wait;
use std::sync::atomic::AtomicU64;
use std::sync::atomic::Ordering::SeqCst;

/// The word that has the number with the turn, or 0.
const TURN: usize = 0;

/// The word that counts the steps.
const COUNT: usize = 1;

/// The slot of the machine.
pub const MACHINE: usize = 0;

/// How often a thread looks whether the turn is free before it sleeps.
const LOOKS: u32 = 200;

/// Takes the turn with what stands in the slot, if it is free. Gives the number that had it, or 0.
fn try_take<M: Machine>(table: &SharedTable<M>, token: &mut TableSeat<M>, number: u32) -> u64
    requires table { (token.old.table_id ≡ table.now.table_id) × IsDeskTable table.now.table_id }
    requires live { token.old.me ≡ (LiveSeat (past_of token.old.me.0) None, []) }
    requires number { (number ≡ (past_of token.old.me.0).number) × (1 ≤ number) }
    ensures same { IsSame token.old token.new × (past_of token.new.me.0 ≡ past_of token.old.me.0) }
    ensures free { result ≡ 0 → HasTurn M.story M.knows M.within token.new.me }
    ensures taken { result ≢ 0 → token.new.me ≡ token.old.me }
{
    table.compare_exchange::<Try<M>>(token, TURN, 0, number as u64)
}

/// Waits for the turn, and takes it. `sleepers` counts the threads that may sleep until it is free.
pub fn take<M: Machine, R: Wait>(
    rt: &R,
    table: &SharedTable<M>,
    sleepers: &AtomicU64,
    token: &mut TableSeat<M>,
    number: u32,
)
    requires table { (token.old.table_id ≡ table.now.table_id) × IsDeskTable table.now.table_id }
    requires live { token.old.me ≡ (LiveSeat (past_of token.old.me.0) None, []) }
    requires number { (number ≡ (past_of token.old.me.0).number) × (1 ≤ number) }
    ensures same { IsSame token.old token.new × (past_of token.new.me.0 ≡ past_of token.old.me.0) }
    ensures turn { HasTurn M.story M.knows M.within token.new.me }
{
    if try_take(table, token, number) == 0 {
        return;
    }
    look_for_free(table);
    // Counted before the next try: who gives the turn back after that try finds it counted.
    sleepers.fetch_add(1, SeqCst);
    for _ in rt.forever() {
        let holder = try_take(table, token, number);
        if holder == 0 {
            sleepers.fetch_sub(1, SeqCst);
            return;
        }
        table.park(rt, TURN, (holder % (1 << 32)) as u32);
    }
    unreachable!()
}

/// Looks for a while whether the turn is free: most turns are shorter than a sleep.
fn look_for_free<M: Machine>(table: &SharedTable<M>)
    requires { IsDeskTable table.now.table_id }
{
    for _ in 0..LOOKS {
        if table.peek(TURN) == 0 {
            return;
        }
    }
}

/// Wakes a thread that sleeps until the turn is free, where one may.
pub fn wake_next<M: Machine>(table: &SharedTable<M>, sleepers: &AtomicU64)
    requires { IsDeskTable table.now.table_id }
{
    if sleepers.load(SeqCst) > 0 {
        table.wake_one(TURN);
    }
}

/// Counts a step that was made with the machine that is out of its slot.
fn count<M: Machine, N: News<M::Call, M::Reply, M>>(
    table: &SharedTable<M>,
    token: &mut TableSeat<M>,
    call: &M::Call,
    reply: &M::Reply,
    after: &MachineBox<M>,
)
    requires table { (token.old.table_id ≡ table.now.table_id) × IsDeskTable table.now.table_id }
    requires news { N.news ≡ Some ((call.now, reply.now), after.now) }
    requires step { Moved M.story M.moved M.ready M.knows M.within token.old.me call.now reply.now after.now }
    ensures same { IsSame token.old token.new }
    ensures counted { token.new.me ≡ (LiveSeat (with_step M.story M.knows M.within (past_of token.old.me.0) call.now reply.now after.now) (Some after.now), token.old.me.1) }
{
    table.fetch_add::<Count<M, N>>(token, COUNT, 1);
}

/// One step with the machine, which is taken out of its slot and put back, and then the turn is
/// given back.
pub fn play<M: Machine>(
    table: &SharedTable<M>,
    token: &mut TableSeat<M>,
    number: u32,
    call: &M::Call,
) -> M::Reply
    requires table { (token.old.table_id ≡ table.now.table_id) × IsDeskTable table.now.table_id }
    requires turn { HasTurn M.story M.knows M.within token.old.me }
    requires number { (number ≡ (past_of token.old.me.0).number) × (1 ≤ number) × (number ≤ 64) }
    requires ready { M.ready (past_of token.old.me.0).number (past_of token.old.me.0).steps call.now }
    ensures same { IsSame token.old token.new × (token.new.me ≡ (LiveSeat (past_of token.new.me.0) None, [])) }
    ensures acts { Acts M.story M.moved M.knows M.within (seat_of token.old.table_id (past_of token.old.me.0)) call.now result (seat_of token.new.table_id (past_of token.new.me.0)) }
{
    let Some(mut machine) = table.exchange(token, MACHINE, None) else {
        unreachable!()
    };
    let reply = machine.step(number, call);
    count::<M, Brand>(table, token, call, &reply, &machine);
    let None = table.exchange(token, MACHINE, Some(machine)) else {
        unreachable!()
    };
    table.store::<Leave<M>>(token, TURN, 0);
    reply
}
