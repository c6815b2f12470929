//! How a call by RPC is handled.

ghost use Rattle.std.specs.Prelude.{◌≡◌, ◌<◌, ◌^◌, All, length};
ghost use Rattle.session_server.specs.Parts.{IsHandled, IsUnasked};
ghost use Rattle.batch_meaning.specs.Progress.{Ready};
ghost use Rattle.session_server.specs.Talk.{calls, handle_call, handle_driver_call, handle_rpc, is_unserved_call, refuse_call, unserved_by};
ghost use Rattle.session_server.specs.declared.message.ServerState.TheVariants.{LoggedIn};
ghost use Rattle.rpc_requests.specs.Drivers.{driver_call_of};
ghost use Rattle.rpc_requests.specs.Fit.{IsParameter};
ghost use Rattle.rpc_requests.specs.Reading.{rpc_of};
ghost use Rattle.tds_packets.specs.Packets.{IsPacketSize};

use crate::end::End;
use crate::message::{Connected, Handling, tell};
use crate::prepared::PreparedResponse;
use crate::response::unserved_tokens;
use batch_exec::run_call;
use batch_forms::{plain_errand, read_call, take_call};
use batch_meaning::Errand;
use rpc_requests::{RpcFault, RpcKind, read_driver_call, read_rpc};
use session_state::SessionState;
use std::alloc::Global;
use step_model::Port;
use tds_tokens::DoneKind;
use value_types::Memory;

/// The number of the error where a call is not served.
const CALL_UNSERVED: u16 = 8016;

/// That where a text of a call is too long.
const TEXT_TOO_LONG: u16 = 49006;

/// Handles a call with this payload. Where drivers are served it is read as they spell it.
pub(crate) fn handle_call<P: Port>(
    alloc: Global,
    spid: u16,
    session: &mut SessionState,
    port: &mut P,
    connected: &mut Connected,
    payload: &[u8],
) -> Result<Handling, Memory>
    requires ready { Ready session.old (P.past port.old) }
    requires sized { IsPacketSize connected.old.packet_size }
    requires short { length payload.now < 2 ^ 32 }
    ensures handled { IsHandled spid (P.past port.old) (P.past port.new) (handle_call connected.old payload.now) session.old result session.new (LoggedIn connected.new) }
    ensures ready { Ready session.new (P.past port.new) }
{
    if connected.drivers {
        handle_driver_call(alloc, spid, session, port, connected, payload)
    } else {
        handle_rpc(alloc, spid, session, port, connected, payload)
    }
}

/// Handles a call of `sp_executesql`, or of a procedure that was created.
fn handle_rpc<P: Port>(
    alloc: Global,
    spid: u16,
    session: &mut SessionState,
    port: &mut P,
    connected: &Connected,
    payload: &[u8],
) -> Result<Handling, Memory>
    requires ready { Ready session.old (P.past port.old) }
    requires sized { IsPacketSize connected.now.packet_size }
    requires short { length payload.now < 2 ^ 32 }
    ensures handled { IsHandled spid (P.past port.old) (P.past port.new) (handle_rpc connected.now (rpc_of payload.now)) session.old result session.new (LoggedIn connected.now) }
    ensures ready { Ready session.new (P.past port.new) }
{
    match read_rpc(alloc, payload) {
        Ok(call) => {
            let call = plain_errand(alloc, call)?;
            respond_to_call(alloc, spid, session, port, connected, &call)
        }
        Err(RpcFault::Bad { at, kind }) => Ok(Handling::Ends {
            end: End::BadRpc { at, kind },
        }),
        Err(RpcFault::Memory) => Err(Memory),
    }
}

/// Handles a call as a driver spells it, and keeps the statements that are prepared behind it.
fn handle_driver_call<P: Port>(
    alloc: Global,
    spid: u16,
    session: &mut SessionState,
    port: &mut P,
    connected: &mut Connected,
    payload: &[u8],
) -> Result<Handling, Memory>
    requires ready { Ready session.old (P.past port.old) }
    requires sized { IsPacketSize connected.old.packet_size }
    requires short { length payload.now < 2 ^ 32 }
    ensures handled { IsHandled spid (P.past port.old) (P.past port.new) (handle_driver_call connected.old (driver_call_of payload.now)) session.old result session.new (LoggedIn connected.new) }
    ensures ready { Ready session.new (P.past port.new) }
{
    match read_driver_call(alloc, payload) {
        Ok(call) => {
            let call = take_call(alloc, &mut connected.prepared, call)?;
            respond_to_call(alloc, spid, session, port, connected, &call)
        }
        Err(RpcFault::Bad { at, kind }) => refuse_call(alloc, spid, connected, at, kind),
        Err(RpcFault::Memory) => Err(Memory),
    }
}

/// Runs a call, and responds by what it sends.
fn respond_to_call<P: Port>(
    alloc: Global,
    spid: u16,
    session: &mut SessionState,
    port: &mut P,
    connected: &Connected,
    call: &Errand,
) -> Result<Handling, Memory>
    requires ready { Ready session.old (P.past port.old) }
    requires sized { IsPacketSize connected.now.packet_size }
    requires fits { All IsParameter call.now.parameters }
    ensures handled { IsHandled spid (P.past port.old) (P.past port.new) (calls connected.now call.now) session.old result session.new (LoggedIn connected.now) }
    ensures ready { Ready session.new (P.past port.new) }
{
    let read = read_call(alloc, call)?;
    run_call(alloc, session, port, call, read)?;
    let response = PreparedResponse::of_tokens(alloc, connected.channel(spid), session.tokens())?;
    Ok(Handling::Responds {
        response,
        next: Ok(()),
    })
}

/// Handles a call as a driver spells it of which the field at this offset is refused.
fn refuse_call(
    alloc: Global,
    spid: u16,
    connected: &Connected,
    at: u32,
    kind: RpcKind,
) -> Result<Handling, Memory>
    requires sized { IsPacketSize connected.now.packet_size }
    ensures answered { IsUnasked spid (refuse_call connected.now at kind) result (LoggedIn connected.now) }
{
    if is_unserved_call(kind) {
        let tokens = unserved_tokens(alloc, unserved_by(kind), at, DoneKind::Proc)?;
        tell(alloc, spid, connected, &tokens)
    } else {
        Ok(Handling::Ends {
            end: End::BadRpc { at, kind },
        })
    }
}

/// Whether this is a call, of which something is not served.
fn is_unserved_call(kind: RpcKind) -> bool
    ensures { result ≡ is_unserved_call kind }
{
    !matches!(kind, RpcKind::Headers | RpcKind::Cut)
}

/// The number of the error for that.
fn unserved_by(kind: RpcKind) -> u16
    ensures { result ≡ unserved_by kind }
{
    match kind {
        RpcKind::Long => TEXT_TOO_LONG,
        _ => CALL_UNSERVED,
    }
}
