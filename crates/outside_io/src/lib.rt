//! What the server reads from and writes to: sources and sinks of bytes, the lines that are both, the doors
//! where connections come in, the halls that doors belong to, and clocks. Each but the clock counts its faults, so that a contract
//! can say which bytes went through and whose fault an end was.
//!
//! `specs/Lib.antt` says in which order to read. The layers above rely on the clauses of the traits alone:
//! which bytes a call moved where they are told, which connections were finished and how many, and that a
//! failure comes only with a risen count. What a std reader, writer or socket gives no clause can name: that
//! [`ReadSource`] and [`WriteSink`] try nothing twice and flush, and that a [`TcpHall`] listens and a
//! [`SystemClock`] goes on, is shown by tests.
#![tactic(auto)]

mod adapters;
mod clock;
mod connection_list;
mod door;
mod hall;
mod hall_counts;
mod joined;
mod lent;
mod line;
mod memory_clock;
mod memory_hall;
mod memory_sink;
mod memory_source;
mod schedule;
mod sink;
mod source;
mod system_clock;
mod tcp;
mod tcp_line;

pub use adapters::{ReadSource, WriteSink};
pub use clock::Clock;
pub use door::Door;
pub use hall::Hall;
pub use joined::Joined;
pub use line::Line;
pub use memory_clock::MemoryClock;
pub use memory_hall::{MemoryDoor, MemoryHall};
pub use memory_sink::MemorySink;
pub use memory_source::MemorySource;
pub use sink::{Sink, SinkFault};
pub use source::{Failed, Source};
pub use system_clock::SystemClock;
pub use tcp::{TcpDoor, TcpHall};
pub use tcp_line::TcpLine;
