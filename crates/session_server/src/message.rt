//! Where a connection stands, and how a message is handled there.

ghost use Rattle.std.specs.Prelude.{◌≡◌, ◌<◌, ◌^◌, ℕ, [], length, Ok};
ghost use Rattle.session_server.specs.Parts.{IsHandled, IsUnasked, IsSized};
ghost use Rattle.batch_meaning.specs.Progress.{Ready};
ghost use Rattle.session_server.specs.Talk.{connected_with, first_state, tells, handle, handle_logged, handle_prelogin, handle_login, handle_verdict, handle_attention, refuse};
ghost use Rattle.session_server.specs.declared.message.ServerState.{ServerState};
ghost use Rattle.session_server.specs.declared.message.ServerState.TheVariants.{Initial, LoginReady, LoggedIn};
ghost use Rattle.tds_login.specs.Login.{login_of};
ghost use Rattle.tds_login.specs.Prelogin.{prelogin_of};
ghost use Rattle.tds_packets.specs.Packets.{IsPacketSize, default_size};
ghost use Rattle.tds_tokens.specs.Fit.{FitTokens};

use crate::batches::handle_batch;
use crate::calls::handle_call;
use crate::end::End;
use crate::prepared::{Channel, PreparedResponse};
use crate::requests::handle_request;
use crate::response::{attention_done, refusal_tokens};
use batch_meaning::PreparedStatements;
use session_state::SessionState;
use std::alloc::Global;
use step_model::Port;
use tds_login::{
    Config, Entry, LoginFault, judge_login, login_reply, prelogin_reply, read_login, read_prelogin,
};
use tds_packets::{
    ATTENTION, DEFAULT_SIZE, LOGIN7, Message, PRELOGIN, RPC, SQL_BATCH, TRANSACTION_MANAGER,
};
use tds_tokens::Token;
use value_types::Memory;

/// The SPID of the response to a PRELOGIN, the same for all sessions ([MS-TDS] 2.2.3.1.4).
const PRELOGIN_SPID: u16 = 51;

/// The number of the error where a LOGIN7 can't be read.
const UNREADABLE_LOGIN: i32 = 49010;

/// A connection that is logged in.
#[derive(Drop)]
pub(crate) struct Connected {
    /// The size of the packets that are sent, in bytes.
    pub(crate) packet_size: u16,
    /// Whether what drivers send is served.
    pub(crate) drivers: bool,
    /// The statements that are prepared.
    pub(crate) prepared: PreparedStatements,
}

impl Connected {
    /// With packets of this many bytes, and no statement prepared.
    fn with(alloc: Global, config: &Config, packet_size: u16) -> Connected
        ensures { result ≡ connected_with config.now packet_size }
    {
        Connected {
            packet_size,
            drivers: config.drivers,
            prepared: PreparedStatements::new(alloc),
        }
    }

    /// How packets are sent there to a session of this SPID.
    pub(crate) fn channel(&self, spid: u16) -> Channel
        ensures { result ≡ record { spid = spid; packet_size = self.now.packet_size } }
    {
        Channel {
            spid,
            packet_size: self.packet_size,
        }
    }
}

/// Where a connection stands, by the server's states in [MS-TDS] 3.3.5.
#[derive(Drop)]
pub(crate) enum ServerState {
    /// Before its first message, a PRELOGIN or a LOGIN7.
    Initial,
    /// Behind a PRELOGIN: a LOGIN7 comes.
    LoginReady,
    /// Logged in: batches, calls, attentions and transaction manager requests come.
    LoggedIn(Connected),
}

impl ServerState {
    /// Where a connection begins.
    pub(crate) fn first(alloc: Global, config: &Config) -> ServerState
        ensures { result ≡ first_state config.now }
    {
        match config.entry {
            Entry::Login => ServerState::Initial,
            Entry::Bare => ServerState::LoggedIn(Connected::with(alloc, config, DEFAULT_SIZE)),
        }
    }
}

/// How a message was handled.
#[derive(Drop)]
pub(crate) enum Handling {
    /// By a response.
    Responds {
        /// The response.
        response: PreparedResponse,
        /// The connection goes on behind it, or its end, where it refuses the login.
        next: Result<(), End>,
    },
    /// By the connection's end alone.
    Ends {
        /// That end.
        end: End,
    },
}

/// Handles a message of a session whose packets have this SPID. Where the connection goes on, the state becomes that behind
/// the message.
pub(crate) fn handle<P: Port>(
    alloc: Global,
    config: &Config,
    spid: u16,
    session: &mut SessionState,
    port: &mut P,
    state: &mut ServerState,
    message: &Message,
) -> Result<Handling, Memory>
    requires ready { Ready session.old (P.past port.old) }
    requires sized { IsSized state.old }
    requires short { length message.now.payload < 2 ^ 32 }
    ensures handled { IsHandled spid (P.past port.old) (P.past port.new) (handle config.now state.old message.now) session.old result session.new state.new }
    ensures ready { Ready session.new (P.past port.new) }
{
    match state {
        ServerState::Initial => handle_first(alloc, config, spid, state, message),
        ServerState::LoginReady => handle_second(alloc, config, spid, state, message),
        ServerState::LoggedIn(connected) => {
            handle_logged(alloc, spid, session, port, connected, message)
        }
    }
}

/// Handles the first message of a connection, a PRELOGIN or a LOGIN7.
fn handle_first(
    alloc: Global,
    config: &Config,
    spid: u16,
    state: &mut ServerState,
    message: &Message,
) -> Result<Handling, Memory>
    ensures { IsUnasked spid (handle config.now Initial message.now) result state.new }
{
    let payload = message.payload.as_slice();
    match message.kind {
        PRELOGIN => handle_prelogin(alloc, state, payload),
        LOGIN7 => handle_login(alloc, config, spid, state, payload),
        _ => Ok(out_of_place(message)),
    }
}

/// Handles the message behind a PRELOGIN, a LOGIN7.
fn handle_second(
    alloc: Global,
    config: &Config,
    spid: u16,
    state: &mut ServerState,
    message: &Message,
) -> Result<Handling, Memory>
    ensures { IsUnasked spid (handle config.now LoginReady message.now) result state.new }
{
    let payload = message.payload.as_slice();
    match message.kind {
        LOGIN7 => handle_login(alloc, config, spid, state, payload),
        _ => Ok(out_of_place(message)),
    }
}

/// Handles a message of a session that is logged in.
fn handle_logged<P: Port>(
    alloc: Global,
    spid: u16,
    session: &mut SessionState,
    port: &mut P,
    connected: &mut Connected,
    message: &Message,
) -> Result<Handling, Memory>
    requires ready { Ready session.old (P.past port.old) }
    requires sized { IsPacketSize connected.old.packet_size }
    requires short { length message.now.payload < 2 ^ 32 }
    ensures handled { IsHandled spid (P.past port.old) (P.past port.new) (handle_logged connected.old message.now) session.old result session.new (LoggedIn connected.new) }
    ensures ready { Ready session.new (P.past port.new) }
{
    let payload = message.payload.as_slice();
    match message.kind {
        SQL_BATCH => handle_batch(alloc, spid, session, port, connected, payload),
        RPC => handle_call(alloc, spid, session, port, connected, payload),
        ATTENTION => handle_attention(alloc, spid, connected),
        TRANSACTION_MANAGER if connected.drivers => {
            handle_request(alloc, spid, session, port, connected, payload)
        }
        _ => Ok(out_of_place(message)),
    }
}

/// The end of a connection by a message that has no place there.
fn out_of_place(message: &Message) -> Handling
    ensures { result ≡ Handling.Ends (End.OutOfPlace message.now.at message.now.kind) }
{
    Handling::Ends {
        end: End::OutOfPlace {
            at: message.at,
            kind: message.kind,
        },
    }
}

// ---- PRELOGIN and LOGIN7

/// Handles a PRELOGIN with this payload.
fn handle_prelogin(
    alloc: Global,
    state: &mut ServerState,
    payload: &[u8],
) -> Result<Handling, Memory>
    ensures answered { (spid : ℕ) → IsUnasked spid (handle_prelogin (prelogin_of payload.now)) result state.new }
{
    match read_prelogin(payload) {
        Ok(_) => {
            let channel = Channel {
                spid: PRELOGIN_SPID,
                packet_size: DEFAULT_SIZE,
            };
            let payload = prelogin_reply(alloc)?;
            *state = ServerState::LoginReady;
            Ok(Handling::Responds {
                response: PreparedResponse { channel, payload },
                next: Ok(()),
            })
        }
        Err(fault) => Ok(Handling::Ends {
            end: End::BadPrelogin { fault },
        }),
    }
}

/// Handles a LOGIN7 with this payload.
fn handle_login(
    alloc: Global,
    config: &Config,
    spid: u16,
    state: &mut ServerState,
    payload: &[u8],
) -> Result<Handling, Memory>
    ensures answered { IsUnasked spid (handle_login config.now (login_of payload.now)) result state.new }
{
    match read_login(alloc, payload) {
        Ok(login) => match judge_login(&login, config) {
            Ok(size) => grant(alloc, config, spid, state, size),
            Err(number) => refuse(alloc, spid, number),
        },
        Err(LoginFault::Memory) => Err(Memory),
        Err(_) => refuse(alloc, spid, UNREADABLE_LOGIN),
    }
}

/// Grants a login, with packets of this many bytes from the next message on.
fn grant(
    alloc: Global,
    config: &Config,
    spid: u16,
    state: &mut ServerState,
    size: u16,
) -> Result<Handling, Memory>
    requires { IsPacketSize size }
    ensures answered { IsUnasked spid (handle_verdict config.now (Ok size)) result state.new }
{
    let tokens = login_reply(alloc, size)?;
    let response = PreparedResponse::of_tokens(alloc, first_channel(spid), &tokens)?;
    *state = ServerState::LoggedIn(Connected::with(alloc, config, size));
    Ok(Handling::Responds {
        response,
        next: Ok(()),
    })
}

/// Refuses a login by the error of this number.
fn refuse(alloc: Global, spid: u16, number: i32) -> Result<Handling, Memory>
    ensures answered { (state : ServerState) → IsUnasked spid (refuse number) result state }
{
    let tokens = refusal_tokens(alloc, number)?;
    let response = PreparedResponse::of_tokens(alloc, first_channel(spid), &tokens)?;
    Ok(Handling::Responds {
        response,
        next: Err(End::LoginRefused { number }),
    })
}

/// How packets are sent before a login is granted.
fn first_channel(spid: u16) -> Channel
    ensures { result ≡ record { spid = spid; packet_size = default_size } }
{
    Channel {
        spid,
        packet_size: DEFAULT_SIZE,
    }
}

// ---- attentions

/// Acknowledges an attention.
fn handle_attention(alloc: Global, spid: u16, connected: &Connected) -> Result<Handling, Memory>
    requires { IsPacketSize connected.now.packet_size }
    ensures answered { IsUnasked spid (handle_attention connected.now) result (LoggedIn connected.now) }
{
    tell(alloc, spid, connected, &[attention_done()])
}

/// Responds by tokens for which nothing is asked.
pub(crate) fn tell(
    alloc: Global,
    spid: u16,
    connected: &Connected,
    tokens: &[Token],
) -> Result<Handling, Memory>
    requires sized { IsPacketSize connected.now.packet_size }
    requires fit { FitTokens [] tokens.now }
    ensures answered { IsUnasked spid (tells connected.now tokens.now) result (LoggedIn connected.now) }
{
    let response = PreparedResponse::of_tokens(alloc, connected.channel(spid), tokens)?;
    Ok(Handling::Responds {
        response,
        next: Ok(()),
    })
}
