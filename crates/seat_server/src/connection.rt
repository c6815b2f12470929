//! One connection, served by a seat of the desk.

ghost use Rattle.std.specs.Prelude.{◌≡◌, ◌≢◌, Some};
ghost use Rattle.outside_io.specs.Bytes.{Takes};
ghost use Rattle.session_server.specs.Conversation.{Completes, CountsFault};
ghost use Rattle.shared_port.specs.SharedPort.{IsIdle};
ghost use Rattle.seat_server.specs.Served.{FollowStretch, ServedConnection};

use engine_core::Engine;
use outside_io::Line;
use session_server::{End, serve_on_port};
use shared_port::{Bell, Entrance, SharedPort};
use std::alloc::Global;
use std::marker::Brand;
use std::sync::Wait;
use tds_login::Config;
use turn_desk::{Desk, Seat, law_within};

/// Serves one connection by a seat of the desk, beside whatever its other seats do at once, and gives the seat back with
/// the reason why the connection ended ([`End`]).
///
/// One log of commits stands. Every byte written is what the messages mean, where each statement's answers are those of
/// the database at its transaction's place in that log, or at what it fetched; each commit of a transaction stands once in the log;
/// each keeps its database intact; and no transaction is left open.
pub fn serve_connection<L: Line, R: Wait>(
    alloc: Global,
    rt: &R,
    desk: &Desk<Engine>,
    bell: &Bell,
    seat: Seat<Engine>,
    config: &Config,
    line: &mut L,
) -> (Seat<Engine>, End)
    requires desk { seat.desk ≡ desk.now.desk }
    requires idle { IsIdle seat }

    // What was taken, asked, written and committed, and why the connection ended.
    ensures served { ServedConnection config.now (Takes L.left L.given line.old line.new) (L.left line.new)
        (L.written line.old) (L.written line.new) seat result.0 result.1 }

    // When reading and writing have failed.
    ensures reads { CountsFault (L.Source.faults line.old) (L.Source.faults line.new) (result.1 ≡ End.ReadFault) }
    ensures writes { CountsFault (L.Sink.faults line.old) (L.Sink.faults line.new) (result.1 ≡ End.WriteFault) }

    // The line keeps the references that it holds.
    ensures held { L.held line.new ≡ L.held line.old }

    // Where nothing fails, memory is not wanting, and the input is fewer than 2^40 bytes of whole messages
    // that can be read, in their places, with no login that is refused, all of them are answered.
    ensures complete { result.1 ≢ End.ReadFault → result.1 ≢ End.WriteFault → Completes config.now (L.left line.old) result.1 }
{
    serve_seat::<L, R, Brand>(alloc, rt, desk, bell, seat, config, line)
}

/// The same, for the proof of which `E` names the seat.
fn serve_seat<L: Line, R: Wait, E: Entrance>(
    alloc: Global,
    rt: &R,
    desk: &Desk<Engine>,
    bell: &Bell,
    seat: Seat<Engine>,
    config: &Config,
    line: &mut L,
) -> (Seat<Engine>, End)
    requires desk { seat.desk ≡ desk.now.desk }
    requires idle { IsIdle seat }
    requires entry { E.entry ≡ Some seat }
    ensures served { ServedConnection config.now (Takes L.left L.given line.old line.new) (L.left line.new)
        (L.written line.old) (L.written line.new) seat result.0 result.1 }
    ensures reads { CountsFault (L.Source.faults line.old) (L.Source.faults line.new) (result.1 ≡ End.ReadFault) }
    ensures writes { CountsFault (L.Sink.faults line.old) (L.Sink.faults line.new) (result.1 ≡ End.WriteFault) }
    ensures held { L.held line.new ≡ L.held line.old }
    ensures complete { result.1 ≢ End.ReadFault → result.1 ≢ End.WriteFault → Completes config.now (L.left line.old) result.1 }
{
    let number = seat.number();
    let mut port = SharedPort::<R, E>::new(alloc, rt, desk, bell, seat);
    let end = serve_on_port(alloc, number, &mut port, config, line);
    let seat = port.into_seat();
    law_within(&seat);
    (seat, end)
}

/// What a seat has done in connections one behind another, from a moment at which it had no transaction open, is one stretch
/// of its steps. A function with no effect, whose contract is the law.
pub fn law_follow(seat: &Seat<Engine>)
    ensures { FollowStretch seat.now }
{
    law_within(seat);
}
