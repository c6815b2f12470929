//! How a transaction manager request is handled.

ghost use Rattle.std.specs.Prelude.{◌≡◌, ◌<◌, ◌^◌, length};
ghost use Rattle.session_server.specs.Parts.{IsHandled, IsUnasked};
ghost use Rattle.batch_meaning.specs.Progress.{Ready};
ghost use Rattle.session_server.specs.Talk.{handle_request, is_unserved_request, refuse_request};
ghost use Rattle.session_server.specs.declared.message.ServerState.TheVariants.{LoggedIn};
ghost use Rattle.transaction_requests.specs.Text.{managed};
ghost use Rattle.tds_packets.specs.Packets.{IsPacketSize};

use crate::batches::respond_to_text;
use crate::end::End;
use crate::message::{Connected, Handling, tell};
use crate::response::unserved_tokens;
use session_state::SessionState;
use std::alloc::Global;
use step_model::Port;
use tds_tokens::DoneKind;
use transaction_requests::{TransactionFault, TransactionKind, transaction_text};
use value_types::Memory;

/// The number of the error where a request is not served.
const REQUEST_UNSERVED: u16 = 49014;

/// Handles a transaction manager request with this payload.
pub(crate) fn handle_request<P: Port>(
    alloc: Global,
    spid: u16,
    session: &mut SessionState,
    port: &mut P,
    connected: &Connected,
    payload: &[u8],
) -> Result<Handling, Memory>
    requires ready { Ready session.old (P.past port.old) }
    requires sized { IsPacketSize connected.now.packet_size }
    requires short { length payload.now < 2 ^ 32 }
    ensures handled { IsHandled spid (P.past port.old) (P.past port.new) (handle_request connected.now (managed payload.now)) session.old result session.new (LoggedIn connected.now) }
    ensures ready { Ready session.new (P.past port.new) }
{
    match transaction_text(alloc, payload) {
        Ok(text) => respond_to_text(alloc, spid, session, port, connected, &text),
        Err(TransactionFault::Bad { at, kind }) => {
            refuse_request(alloc, spid, connected, at, kind)
        }
        Err(TransactionFault::Memory) => Err(Memory),
    }
}

/// Handles a request of which the field at this offset is refused.
fn refuse_request(
    alloc: Global,
    spid: u16,
    connected: &Connected,
    at: u32,
    kind: TransactionKind,
) -> Result<Handling, Memory>
    requires sized { IsPacketSize connected.now.packet_size }
    ensures answered { IsUnasked spid (refuse_request connected.now at kind) result (LoggedIn connected.now) }
{
    if is_unserved_request(kind) {
        let tokens = unserved_tokens(alloc, REQUEST_UNSERVED, at, DoneKind::Done)?;
        tell(alloc, spid, connected, &tokens)
    } else {
        Ok(Handling::Ends {
            end: End::BadTransaction { at, kind },
        })
    }
}

/// Whether this is a request, of which something is not served.
fn is_unserved_request(kind: TransactionKind) -> bool
    ensures { result ≡ is_unserved_request kind }
{
    !matches!(kind, TransactionKind::Headers | TransactionKind::Cut)
}
