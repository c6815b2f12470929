//! Connections served over a port, and their replies as words.

ghost use Rattle.std.specs.Prelude.{◌≡◌, false};

use crate::messages::{batch, words_of};
use outside_io::{Joined, MemorySink, MemorySource};
use session_server::{End, serve_on_port};
use std::alloc::Global;
use step_model::Port;
use tds_login::{Config, Entry};
use tds_tokens::read_tokens;
use value_types::{Memory, Units};

/// The end of a bare connection of session 1 with this input, and what it wrote.
fn serve<P: Port>(alloc: Global, port: &mut P, input: Vec<u8>) -> (End, Vec<u8>)
    requires session { (P.past port.old).session ≡ 1 }
    requires idle { (P.past port.old).standing.is_open ≡ false }
    ensures idle { (P.past port.new).standing.is_open ≡ false }
    ensures session { (P.past port.new).session ≡ 1 }
{
    let config = Config {
        user: Units::new(alloc),
        password: Units::new(alloc),
        entry: Entry::Bare,
        drivers: false,
    };
    let mut line = Joined {
        source: MemorySource::new(input, 4096, Vec::new(alloc)),
        sink: MemorySink::new(alloc, 4096, Vec::new(alloc)),
    };
    let end = serve_on_port(alloc, 1, port, &config, &mut line);
    (end, line.sink.into_bytes())
}

/// The words of the reply to a batch, which is one packet.
pub(crate) fn reply_to<P: Port>(alloc: Global, port: &mut P, text: &str) -> Result<String, Memory>
    requires session { (P.past port.old).session ≡ 1 }
    requires idle { (P.past port.old).standing.is_open ≡ false }
    ensures idle { (P.past port.new).standing.is_open ≡ false }
    ensures session { (P.past port.new).session ≡ 1 }
{
    let input = batch(alloc, text);
    let (end, written) = serve(alloc, port, input.unwrap_or(Vec::new(alloc)));
    if end != End::Closed {
        return Ok(String::new(alloc));
    }
    words_in(alloc, written.get(8..).unwrap_or(&[]))
}

/// The words of the tokens in these bytes, if they are such.
fn words_in(alloc: Global, payload: &[u8]) -> Result<String, Memory> {
    match read_tokens(alloc, payload) {
        Ok(tokens) => words_of(alloc, &tokens),
        Err(_) => Ok(String::new(alloc)),
    }
}
