//! A query: a batch that is asked and printed.

ghost use Rattle.std.specs.Prelude.{◌≡◌, ◌≢◌, ◌≤◌, ◌⊎◌, length, Err, IfErr, OnOk};
ghost use Rattle.std.specs.Io.KnownBytes.{Appends};
ghost use Rattle.outside_io.specs.Bytes.{HasRisen, Takes};
ghost use Rattle.tds_client.specs.Sending.{FitsLogin, text_limit};
ghost use Rattle.tds_client.specs.Query.{Completes, IsUnprinted, QueryRun};
ghost use Rattle.tds_client.specs.Parts.{IsPrinted, end_of_printing, told_end};

use crate::end::ClientEnd;
use crate::login::ClientLogin;
use crate::printing::print_tokens;
use crate::turns::{Told, take_turns};
use crate::writing::write_whole;
use outside_io::{Line, Sink, SinkFault};
use std::alloc::Global;
use value_types::Units;

/// Logs in on a line as this user, with PRELOGIN and LOGIN7, asks the batch of a text, and prints the reply, or that by which
/// the login is refused, when it was read whole ([MS-TDS] 3.2.5). User and password have at most 128 units each, and the text
/// at most 500,000. The answer says why the client ended ([`ClientEnd`]).
pub fn run_query<L: Line, O: Sink>(
    alloc: Global,
    login: &ClientLogin,
    text: &Units,
    line: &mut L,
    out: &mut O,
) -> ClientEnd
    requires login { FitsLogin login.now }
    requires text { length text.now ≤ text_limit }

    // What was taken, sent and printed, and why the client ended.
    ensures query { QueryRun login.now text.now (Takes L.left L.given line.old line.new) (L.left line.new)
        (L.written line.old) (L.written line.new) (O.written out.old) (O.written out.new) result }

    // When reading, sending and printing have failed.
    ensures fails_reading { result ≡ ClientEnd.ReadFault → HasRisen (L.Source.faults line.old) (L.Source.faults line.new) }
    ensures reads { result ≢ ClientEnd.ReadFault → L.Source.faults line.new ≡ L.Source.faults line.old }
    ensures counted_reading { L.Source.faults line.old ≤ L.Source.faults line.new }
    ensures fails_writing { result ≡ ClientEnd.WriteFault → HasRisen (L.Sink.faults line.old) (L.Sink.faults line.new) }
    ensures writes { result ≢ ClientEnd.WriteFault → L.Sink.faults line.new ≡ L.Sink.faults line.old }
    ensures counted_writing { L.Sink.faults line.old ≤ L.Sink.faults line.new }
    ensures fails_printing { result ≡ ClientEnd.PrintFault → HasRisen (O.faults out.old) (O.faults out.new) }
    ensures prints { result ≢ ClientEnd.PrintFault → O.faults out.new ≡ O.faults out.old }
    ensures counted_printing { O.faults out.old ≤ O.faults out.new }

    // Where nothing fails, memory is not wanting, and the input is three replies, by which the client goes on, goes on, and
    // has its answer, that is printed.
    ensures complete { result ≢ ClientEnd.ReadFault → result ≢ ClientEnd.WriteFault → result ≢ ClientEnd.PrintFault
        → Completes (L.left line.old) result }

    // The line keeps the references that it holds.
    ensures held { L.held line.new ≡ L.held line.old }
{
    match take_turns(alloc, login, text, line) {
        Ok(told) => print_told(alloc, &told, out),
        Err(end) => end,
    }
}

/// Prints the tokens of a last reply, and ends by it.
fn print_told<O: Sink>(alloc: Global, told: &Told, out: &mut O) -> ClientEnd
    ensures printed { IsPrinted told.now.tokens.items told.now.refused (O.written out.old) (O.written out.new) result }
    ensures fails { result ≡ ClientEnd.PrintFault → HasRisen (O.faults out.old) (O.faults out.new) }
    ensures still { result ≢ ClientEnd.PrintFault → O.faults out.new ≡ O.faults out.old }
    ensures counted { O.faults out.old ≤ O.faults out.new }
    ensures no_read_fault { result ≢ ClientEnd.ReadFault }
    ensures no_write_fault { result ≢ ClientEnd.WriteFault }
{
    let Ok(printed) = print_tokens(alloc, &told.tokens) else {
        return ClientEnd::Memory;
    };
    match write_printed(out, &printed) {
        Ok(()) => told_end(told.refused),
        Err(unprinted) => unprinted,
    }
}

/// Writes what tokens are printed as.
fn write_printed<O: Sink>(out: &mut O, printed: &[u8]) -> Result<(), ClientEnd>
    ensures written { OnOk result (Appends (O.written out.old) (O.written out.new) printed.now) }
    ensures part { IfErr result (IsUnprinted (O.written out.old) (O.written out.new) printed.now) }
    ensures fails { result ≡ Err ClientEnd.PrintFault → HasRisen (O.faults out.old) (O.faults out.new) }
    ensures still { result ≢ Err ClientEnd.PrintFault → O.faults out.new ≡ O.faults out.old }
    ensures counted { O.faults out.old ≤ O.faults out.new }
{
    match write_whole(out, printed) {
        Ok(()) => Ok(()),
        Err(fault) => Err(end_of_printing(fault)),
    }
}

/// The end of a client that could not print.
fn end_of_printing(fault: SinkFault) -> ClientEnd
    ensures value { result ≡ end_of_printing fault }
    ensures fails { result ≡ ClientEnd.PrintFault → fault ≡ SinkFault.Failed }
    ensures failed { fault ≡ SinkFault.Failed → result ≡ ClientEnd.PrintFault }
    ensures known { (result ≡ ClientEnd.PrintFault) ⊎ (result ≡ ClientEnd.Memory) }
{
    match fault {
        SinkFault::Failed => ClientEnd::PrintFault,
        SinkFault::Memory => ClientEnd::Memory,
    }
}

/// The end of a client whose login is refused by an ERROR of this number, or that has its answer.
fn told_end(refused: Option<i32>) -> ClientEnd
    ensures value { result ≡ told_end refused }
    ensures no_read_fault { result ≢ ClientEnd.ReadFault }
    ensures no_write_fault { result ≢ ClientEnd.WriteFault }
    ensures no_print_fault { result ≢ ClientEnd.PrintFault }
{
    match refused {
        None => ClientEnd::Done,
        Some(number) => ClientEnd::Refused { number },
    }
}
