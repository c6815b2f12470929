//! Why a client ended.

ghost use Rattle.std.specs.Prelude.{◌≡◌, ◌≢◌};
ghost use Rattle.tds_client.specs.Ends.{end_of_message, end_of_sending, end_of_tokens};
ghost use Rattle.tds_client.specs.declared.end.ClientEnd.TheVariants.{Memory};

use crate::turn::Turn;
use tds_login::PreloginFault;
use tds_packets::{MessageFault, SendFault};
use tds_tokens::TokenFault;
use value_types::Memory as NoMemory;

/// Why a client ended. Its replies are numbered from 1: to the PRELOGIN, to the LOGIN7 and to the batch.
#[derive(Clone, Copy, Debug, PartialEq, Eq)]
pub enum ClientEnd {
    /// The reply to the batch was printed.
    Done,
    /// The server asks for encryption.
    Encrypted {
        /// The value of its ENCRYPTION.
        value: u8,
    },
    /// The login was not granted, and the reply was printed.
    Refused {
        /// The number of its first ERROR, or 0.
        number: i32,
    },
    /// A reply is of a type that no server sends.
    Kind {
        /// The reply's number.
        reply: u8,
        /// The type of its packets.
        kind: u8,
    },
    /// The first reply is no PRELOGIN.
    BadPrelogin {
        /// What is wrong with it.
        fault: PreloginFault,
    },
    /// A reply is no tokens.
    BadReply {
        /// The reply's number.
        reply: u8,
        /// Where in what it carries no token stands, in bytes from 0.
        at: u64,
    },
    /// The source ended in front of a reply.
    NoReply {
        /// The reply's number.
        reply: u8,
    },
    /// The source ended within a reply, after `at` bytes.
    Cut {
        /// How many bytes were read.
        at: u64,
    },
    /// The header of the packet at `at` has a type or a Length that may not stand there.
    BadHeader {
        /// Where the packet begins, in bytes from 0.
        at: u64,
    },
    /// The packet at `at` would take the data of its reply past 1,048,576 bytes.
    TooLong {
        /// Where the packet begins, in bytes from 0.
        at: u64,
    },
    /// A byte was wanted after 2^40 bytes were read.
    Spent,
    /// The source failed.
    ReadFault,
    /// The sink of what is sent failed.
    WriteFault,
    /// The sink of what is printed failed.
    PrintFault,
    /// Memory was wanting.
    Memory,
}

impl From<SendFault> for ClientEnd {
    ghost from_gives = { λ fault end. end ≡ end_of_sending fault };

    fn from(fault: SendFault) -> ClientEnd {
        match fault {
            SendFault::WriteFault => ClientEnd::WriteFault,
            SendFault::Memory => ClientEnd::Memory,
        }
    }
}

impl From<NoMemory> for ClientEnd {
    ghost from_gives = { λ _ end. end ≡ Memory };

    fn from(_memory: NoMemory) -> ClientEnd {
        ClientEnd::Memory
    }
}

/// The end of a client to which no reply came in this turn.
pub(crate) fn end_of_message(turn: Turn, fault: MessageFault) -> ClientEnd
    ensures value { result ≡ end_of_message turn fault }
    ensures reads { result ≡ ClientEnd.ReadFault → fault ≡ MessageFault.ReadFault }
    ensures read { fault ≡ MessageFault.ReadFault → result ≡ ClientEnd.ReadFault }
    ensures no_write_fault { result ≢ ClientEnd.WriteFault }
    ensures no_print_fault { result ≢ ClientEnd.PrintFault }
{
    match fault {
        MessageFault::Closed => ClientEnd::NoReply {
            reply: turn.number(),
        },
        MessageFault::Cut { at } => ClientEnd::Cut { at },
        MessageFault::BadHeader { at } => ClientEnd::BadHeader { at },
        MessageFault::TooLong { at } => ClientEnd::TooLong { at },
        MessageFault::ReadFault => ClientEnd::ReadFault,
        MessageFault::Memory => ClientEnd::Memory,
        MessageFault::Spent => ClientEnd::Spent,
    }
}

/// The end of a client that can't read the reply of this turn as tokens.
pub(crate) fn end_of_tokens(turn: Turn, fault: TokenFault) -> ClientEnd
    ensures value { result ≡ end_of_tokens turn fault }
    ensures no_read_fault { result ≢ ClientEnd.ReadFault }
    ensures no_write_fault { result ≢ ClientEnd.WriteFault }
    ensures no_print_fault { result ≢ ClientEnd.PrintFault }
{
    match fault {
        TokenFault::Bad { at } => ClientEnd::BadReply {
            reply: turn.number(),
            at,
        },
        TokenFault::Memory => ClientEnd::Memory,
    }
}
