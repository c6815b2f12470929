//! `tsqld`, a database server in memory that speaks [MS-TDS] 7.4.
//!
//! Read `specs/Program.antt` first. The program's theorem is the contract of
//! [`program::run_program`]: what is asked, written and committed for the bytes that come in, and what
//! each status says.
#![tactic(auto)]

mod program;

use outside_io::{ReadSource, SystemClock, TcpHall, WriteSink};
use seat_server::House;
use std::env::{self, Env};
use std::io;
use std::process::ExitCode;

fn main(rt: HostRuntime) -> ExitCode {
    let words = match words_of(&rt) {
        Ok(words) => words,
        Err(e) if e.kind() == io::ErrorKind::OutOfMemory => return ExitCode::from(
            program::NO_MEMORY,
        ),
        Err(_) => return ExitCode::from(program::NO_COMMAND),
    };
    let Ok(mut house) = House::open(rt.alloc(), program::SEATS) else {
        return ExitCode::from(program::NO_MEMORY);
    };
    let status = program::run_program(
        rt.alloc(),
        &rt,
        words.as_slice(),
        &mut house,
        &mut ReadSource::new(rt.reader()),
        &mut WriteSink::new(io::writer(&rt)),
        &mut TcpHall::new(&rt, rt.alloc()),
        &mut SystemClock::new(&rt),
    );
    house.close();
    ExitCode::from(status)
}

/// The words after the program's name.
fn words_of(rt: &(impl Env + AllocGlobal)) -> io::Result<Vec<String>> {
    let mut words = Vec::new(rt.alloc());
    for word in env::args(rt)?.skip(1) {
        words.push(word)?;
    }
    Ok(words)
}
