//! Why a connection ended.

ghost use Rattle.std.specs.Prelude.{◌≡◌};
ghost use Rattle.session_server.specs.Ends.{end_of_message, end_of_sending};
ghost use Rattle.session_server.specs.declared.end.End.TheVariants.{Memory};

use rpc_requests::RpcKind;
use tds_login::PreloginFault;
use tds_packets::{MessageFault, SendFault};
use transaction_requests::TransactionKind;
use value_types::Memory as NoMemory;

/// What is wrong with the payload of a batch ([MS-TDS] 2.2.5.3).
#[derive(Clone, Copy, Debug, PartialEq, Eq)]
pub enum BatchFault {
    /// There are fewer than the four bytes of the length of ALL_HEADERS.
    HeadersShort,
    /// That length is below 4 or above the payload.
    HeadersTotal,
    /// The text behind the headers has an odd number of bytes.
    OddText,
}

/// Why a connection ended.
#[derive(Clone, Copy, Debug, PartialEq, Eq)]
pub enum End {
    /// The source ended between two messages.
    Closed,
    /// The source ended within a message, after `at` bytes.
    Cut {
        /// How many bytes were read.
        at: u64,
    },
    /// The header of the packet at `at` has a type or a Length that may not stand there.
    BadHeader {
        /// Where the packet begins, in bytes from 0.
        at: u64,
    },
    /// The packet at `at` would take the data of its message past 1,048,576 bytes.
    TooLong {
        /// Where the packet begins, in bytes from 0.
        at: u64,
    },
    /// The message that began at `at` is of a type that is not served there.
    OutOfPlace {
        /// Where the message begins, in bytes from 0.
        at: u64,
        /// The type of its packets.
        kind: u8,
    },
    /// A PRELOGIN can't be read.
    BadPrelogin {
        /// What is wrong with it.
        fault: PreloginFault,
    },
    /// The login was refused, by an ERROR of this number.
    LoginRefused {
        /// 49010 where the message can't be read, 18456 where user or password is another, 49011 where
        /// there is no such database.
        number: i32,
    },
    /// The payload of a batch can't be read.
    BadBatch {
        /// What is wrong with it.
        fault: BatchFault,
    },
    /// The payload of a call can't be read.
    BadRpc {
        /// Where the first field that is refused begins in the payload, in bytes from 0.
        at: u32,
        /// What is wrong with it.
        kind: RpcKind,
    },
    /// The payload of a transaction manager request can't be read.
    BadTransaction {
        /// Where the first field that is refused begins in the payload, in bytes from 0.
        at: u32,
        /// What is wrong with it.
        kind: TransactionKind,
    },
    /// A byte was wanted after 2^40 bytes were read.
    Spent,
    /// The source failed.
    ReadFault,
    /// The sink failed.
    WriteFault,
    /// Memory was wanting.
    Memory,
}

impl From<MessageFault> for End {
    ghost from_gives = { λ fault end. end ≡ end_of_message fault };

    fn from(fault: MessageFault) -> End {
        match fault {
            MessageFault::Closed => End::Closed,
            MessageFault::Cut { at } => End::Cut { at },
            MessageFault::BadHeader { at } => End::BadHeader { at },
            MessageFault::TooLong { at } => End::TooLong { at },
            MessageFault::ReadFault => End::ReadFault,
            MessageFault::Memory => End::Memory,
            MessageFault::Spent => End::Spent,
        }
    }
}

impl From<SendFault> for End {
    ghost from_gives = { λ fault end. end ≡ end_of_sending fault };

    fn from(fault: SendFault) -> End {
        match fault {
            SendFault::WriteFault => End::WriteFault,
            SendFault::Memory => End::Memory,
        }
    }
}

impl From<NoMemory> for End {
    ghost from_gives = { λ _ end. end ≡ Memory };

    fn from(_wanting: NoMemory) -> End {
        End::Memory
    }
}
