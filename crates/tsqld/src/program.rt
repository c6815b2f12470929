//! The program.

ghost use Rattle.std.specs.Prelude.{◌≡◌, ◌≢◌, ◌⊎◌, ◌≤◌, ℕ, Bool, false, List, Option, IfOk, map, string_bytes};
ghost use Rattle.outside_io.specs.Bytes.{HasRisen, Takes};
ghost use Rattle.program_words.specs.Asked.{AsksForTextAlone, IsInRange};
ghost use Rattle.program_words.specs.declared.command.ProgramCommand.{ProgramCommand};
ghost use Rattle.session_server.specs.Conversation.{Completes, CountsFault};
ghost use Rattle.steps_command.specs.Command.{Steps, EndsWell as AllAnswered};
ghost use Rattle.seat_server.specs.House.{IsFull, ServesFirst};
ghost use Rattle.seat_server.specs.Served.{ServedConnection};
ghost use Rattle.seat_server.specs.Workers.{numbers_of};
ghost use Rattle.tsqld.specs.Asking.{AsksFor, AsksForText, IfText, IsNoCommand, IsRefused};
ghost use Rattle.tsqld.specs.Program.{EndsWell, Listened, Piped, Prints, PrintsLoad, ServesAll, config_of, first_stage, house_seats, served_text, status_of, tally_status, unprinted_status};

use engine_core::Engine;
use outside_io::{Clock, Hall, Joined, Sink, SinkFault, Source};
use program_words::{ProgramCommand, WordsFault, read_words};
use seat_server::{House, Tally};
use session_server::End;
use std::alloc::Global;
use std::sync::Wait;
use std::thread::Threads;
use steps_command::{run_steps, write_whole};
use tds_login::{Config, Entry};
use transfer_load::load;
use value_types::{Memory, Units};

/// How many seats the program's house has.
pub(crate) const SEATS: u32 = 64;

/// The status where the run ended well.
const DONE: u8 = 0;

/// The status where the words are no command.
pub(crate) const NO_COMMAND: u8 = 2;

/// The status where writing failed.
const WRITE_FAULT: u8 = 4;

/// The status where memory was wanting.
pub(crate) const NO_MEMORY: u8 = 6;

/// The status where the hall could not begin, or a door failed.
const HALL_FAULT: u8 = 7;

/// Does all that the program does, for the words after its name (`program_words` has them): `pipe` serves one connection by the
/// house's first seat; `listen` those of a hall, by so many of the first seats, each on a thread, and prints how many it has
/// served; `load` has so many of them make transfers between accounts, and prints what came of that; `steps` answers a script of
/// engine steps over an engine of its own; and help or the version is printed where the words ask for that.
///
/// The status is 0 where the run ended well: the connection was closed, the workers have ended, or every line was answered. It is 2 where
/// the words are no command, 3 where reading failed, 4 where writing failed, 5 at any other end of the connection or where a line
/// is none, 6 where memory was wanting, for the words, a connection, the workers or what is printed, and 7 where the hall could not
/// begin or a door of it failed.
pub fn run_program<S: Source, K: Sink, H: Hall, C: Clock, R: Threads + Wait + Sync>(
    alloc: Global,
    rt: &R,
    words: &[String],
    house: &mut House,
    input: &mut S,
    output: &mut K,
    hall: &mut H,
    _clock: &mut C,
) -> u8
    requires full { IsFull house_seats house.old }
    ensures full { IsFull house_seats house.new }

    // What was taken, asked, written and committed for one connection, and the status.
    ensures pipe { (user password : List ℕ) (bare drivers : Bool) → AsksFor (map string_bytes words.now) (ProgramCommand.Pipe user password bare drivers)
        → (hall.new ≡ hall.old) × (Piped (config_of user password bare drivers) (Takes S.left S.given input.old input.new) (S.left input.new) (K.written output.old) (K.written output.new)
        house.old.seats house.new.seats result
        ⊎ ((result ≡ 6) × (input.new ≡ input.old) × (output.new ≡ output.old) × (house.new ≡ house.old))) }

    // What was served of the hall's connections, and what was printed.
    ensures listen { (port workers : ℕ) (rounds : Option ℕ) (user password : List ℕ) (drivers : Bool) → AsksFor (map string_bytes words.now) (ProgramCommand.Listen port workers rounds user password drivers)
        → (input.new ≡ input.old) × (Listened H.Door.may_close H.Door.Line.left H.Door.Line.given H.Door.Line.Source.faults H.Door.Line.written H.Door.Line.Sink.faults (config_of user password false drivers) port workers rounds
        (H.told hall.old) (H.told hall.new) (numbers_of H.faults H.finished H.failed H.closed H.made H.back H.begun H.at_port hall.old) (numbers_of H.faults H.finished H.failed H.closed H.made H.back H.begun H.at_port hall.new)
        (K.written output.old) (K.written output.new) house.old.seats house.new.seats result
        ⊎ ((result ≡ 6) × (output.new ≡ output.old) × (hall.new ≡ hall.old) × (house.new ≡ house.old))) }

    // What a script of steps was answered.
    ensures steps { AsksFor (map string_bytes words.now) ProgramCommand.Steps → (hall.new ≡ hall.old) × (house.new ≡ house.old)
        × ((taken : List ℕ) × Takes S.left S.given input.old input.new taken
        × Steps first_stage taken (S.left input.new) (K.written output.old) (K.written output.new) result) }

    // What a load of transfers did, and what was printed of it.
    ensures load { (transfers workers : ℕ) → AsksFor (map string_bytes words.now) (ProgramCommand.Load transfers workers)
        → (input.new ≡ input.old) × (hall.new ≡ hall.old) × PrintsLoad workers transfers (K.written output.old) (K.written output.new) house.old.seats house.new.seats result }

    // Where the words are no command nothing is served, and at most help or the version is printed, if they ask for that.
    ensures no_command { IsNoCommand (map string_bytes words.now) → (input.new ≡ input.old) × (hall.new ≡ hall.old) × (house.new ≡ house.old)
        × ((((result ≡ 2) ⊎ (result ≡ 6)) × (output.new ≡ output.old))
        ⊎ (AsksForText (map string_bytes words.now) × ((text : List ℕ) × Prints (K.written output.old) (K.written output.new) text 0 6 result))) }
    ensures refused { result ≡ 2 → IsRefused (map string_bytes words.now) }
    ensures shown { AsksForTextAlone (map string_bytes words.now) → result ≢ 2 }

    // When 3, 4 and 7 come.
    ensures reads { CountsFault (S.faults input.old) (S.faults input.new) (result ≡ 3) }
    ensures writes { CountsFault (K.faults output.old) (K.faults output.new) (result ≡ 4) }
    ensures hall { result ≡ 7 → HasRisen (H.faults hall.old) (H.faults hall.new) }

    // Where nothing fails, memory is not wanting, and the input is fewer than 2^40 bytes of whole messages
    // that can be read, in their places, with no login that is refused, all of them are answered; so are all
    // lines of a script that is within its limit and has no other; and as many connections are served as there are rounds,
    // where no door may close.
    ensures complete { (user password : List ℕ) (bare drivers : Bool) → AsksFor (map string_bytes words.now) (ProgramCommand.Pipe user password bare drivers)
        → result ≢ 3 → result ≢ 4 → EndsWell (config_of user password bare drivers) (S.left input.old) result }
    ensures complete_steps { AsksFor (map string_bytes words.now) ProgramCommand.Steps → result ≢ 3 → result ≢ 4 → AllAnswered (S.left input.old) result }
    ensures complete_listen { (port workers : ℕ) (rounds : Option ℕ) (user password : List ℕ) (drivers : Bool) → AsksFor (map string_bytes words.now) (ProgramCommand.Listen port workers rounds user password drivers)
        → ((door : H.Door) → H.Door.may_close door ≡ false) → result ≢ 4 → result ≢ 7 → ServesAll rounds (K.written output.old) (K.written output.new) result }
    ensures complete_load { (transfers workers : ℕ) → AsksFor (map string_bytes words.now) (ProgramCommand.Load transfers workers) → result ≢ 4 → (result ≡ 0) ⊎ (result ≡ 6) }
{
    match read_words(alloc, words) {
        Ok(command) => run_command(alloc, rt, command, house, input, output, hall),
        Err(WordsFault::Refused) => NO_COMMAND,
        Err(WordsFault::Memory) => NO_MEMORY,
    }
}

/// Does what a command says, and gives the status.
fn run_command<S: Source, K: Sink, H: Hall, R: Threads + Wait + Sync>(
    alloc: Global,
    rt: &R,
    command: ProgramCommand,
    house: &mut House,
    input: &mut S,
    output: &mut K,
    hall: &mut H,
) -> u8
    requires full { IsFull house_seats house.old }
    requires range { IsInRange command }
    ensures full { IsFull house_seats house.new }
    ensures pipe { (user password : List ℕ) (bare drivers : Bool) → command ≡ ProgramCommand.Pipe user password bare drivers
        → (hall.new ≡ hall.old) × Piped (config_of user password bare drivers) (Takes S.left S.given input.old input.new) (S.left input.new) (K.written output.old) (K.written output.new)
        house.old.seats house.new.seats result }
    ensures complete { (user password : List ℕ) (bare drivers : Bool) → command ≡ ProgramCommand.Pipe user password bare drivers
        → result ≢ 3 → result ≢ 4 → EndsWell (config_of user password bare drivers) (S.left input.old) result }
    ensures listen { (port workers : ℕ) (rounds : Option ℕ) (user password : List ℕ) (drivers : Bool) → command ≡ ProgramCommand.Listen port workers rounds user password drivers
        → (input.new ≡ input.old) × Listened H.Door.may_close H.Door.Line.left H.Door.Line.given H.Door.Line.Source.faults H.Door.Line.written H.Door.Line.Sink.faults (config_of user password false drivers) port workers rounds
        (H.told hall.old) (H.told hall.new) (numbers_of H.faults H.finished H.failed H.closed H.made H.back H.begun H.at_port hall.old) (numbers_of H.faults H.finished H.failed H.closed H.made H.back H.begun H.at_port hall.new)
        (K.written output.old) (K.written output.new) house.old.seats house.new.seats result }
    ensures complete_listen { (port workers : ℕ) (rounds : Option ℕ) (user password : List ℕ) (drivers : Bool) → command ≡ ProgramCommand.Listen port workers rounds user password drivers
        → ((door : H.Door) → H.Door.may_close door ≡ false) → result ≢ 4 → result ≢ 7 → ServesAll rounds (K.written output.old) (K.written output.new) result }
    ensures steps { command ≡ ProgramCommand.Steps → (hall.new ≡ hall.old) × (house.new ≡ house.old)
        × ((taken : List ℕ) × Takes S.left S.given input.old input.new taken
        × Steps first_stage taken (S.left input.new) (K.written output.old) (K.written output.new) result) }
    ensures complete_steps { command ≡ ProgramCommand.Steps → result ≢ 3 → result ≢ 4 → AllAnswered (S.left input.old) result }
    ensures shows { IfText command (λ text. (input.new ≡ input.old) × (hall.new ≡ hall.old) × (house.new ≡ house.old)
        × Prints (K.written output.old) (K.written output.new) text 0 6 result) }
    ensures load { (transfers workers : ℕ) → command ≡ ProgramCommand.Load transfers workers
        → (input.new ≡ input.old) × (hall.new ≡ hall.old) × PrintsLoad workers transfers (K.written output.old) (K.written output.new) house.old.seats house.new.seats result }
    ensures complete_load { (transfers workers : ℕ) → command ≡ ProgramCommand.Load transfers workers → result ≢ 4 → (result ≡ 0) ⊎ (result ≡ 6) }
    ensures command { result ≢ 2 }
    ensures reads { CountsFault (S.faults input.old) (S.faults input.new) (result ≡ 3) }
    ensures writes { CountsFault (K.faults output.old) (K.faults output.new) (result ≡ 4) }
    ensures hall { result ≡ 7 → HasRisen (H.faults hall.old) (H.faults hall.new) }
{
    match command {
        ProgramCommand::Pipe {
            user,
            password,
            bare,
            drivers,
        } => {
            let config = config_of(user, password, bare, drivers);
            pipe(alloc, rt, house, &config, input, output)
        }
        ProgramCommand::Listen {
            port,
            workers,
            rounds,
            user,
            password,
            drivers,
        } => {
            let config = config_of(user, password, false, drivers);
            listen(
                alloc, rt, house, output, hall, port, workers, rounds, &config,
            )
        }
        ProgramCommand::Steps => steps(alloc, input, output),
        ProgramCommand::Load { transfers, workers } => load_accounts(
            alloc, rt, house, output, workers, transfers,
        ),
        ProgramCommand::Show { text } => print(output, text.as_bytes(), DONE, NO_MEMORY),
    }
}

/// Serves one connection by the house's first seat, and gives the status at its end.
fn pipe<S: Source, K: Sink, R: Wait>(
    alloc: Global,
    rt: &R,
    house: &mut House,
    config: &Config,
    input: &mut S,
    output: &mut K,
) -> u8
    requires full { IsFull house_seats house.old }
    ensures full { IsFull house_seats house.new }
    ensures piped { Piped config.now (Takes S.left S.given input.old input.new) (S.left input.new) (K.written output.old) (K.written output.new)
        house.old.seats house.new.seats result }
    ensures complete { result ≢ 3 → result ≢ 4 → EndsWell config.now (S.left input.old) result }
    ensures reads { CountsFault (S.faults input.old) (S.faults input.new) (result ≡ 3) }
    ensures writes { CountsFault (K.faults output.old) (K.faults output.new) (result ≡ 4) }
    ensures others { (result ≢ 2) × (result ≢ 7) }
{
    status_of(serve_joined(alloc, rt, house, config, input, output))
}

/// Serves one connection by the house's first seat, of which source and sink are one line.
fn serve_joined<S: Source, K: Sink, R: Wait>(
    alloc: Global,
    rt: &R,
    house: &mut House,
    config: &Config,
    source: &mut S,
    sink: &mut K,
) -> End
    requires full { IsFull house_seats house.old }
    ensures full { IsFull house_seats house.new }
    ensures served { ServesFirst (λ old new. ServedConnection config.now (Takes S.left S.given source.old source.new) (S.left source.new)
        (K.written sink.old) (K.written sink.new) old new result) house.old.seats house.new.seats }
    ensures complete { result ≢ End.ReadFault → result ≢ End.WriteFault → Completes config.now (S.left source.old) result }
    ensures reads { CountsFault (S.faults source.old) (S.faults source.new) (result ≡ End.ReadFault) }
    ensures writes { CountsFault (K.faults sink.old) (K.faults sink.new) (result ≡ End.WriteFault) }
{
    let mut line = Joined { source, sink };
    house.serve_first(alloc, rt, config, &mut line)
}

/// Answers a script over an engine of its own.
fn steps<S: Source, K: Sink>(alloc: Global, input: &mut S, output: &mut K) -> u8
    ensures steps { (taken : List ℕ) × Takes S.left S.given input.old input.new taken
        × Steps first_stage taken (S.left input.new) (K.written output.old) (K.written output.new) result }
    ensures complete { result ≢ 3 → result ≢ 4 → AllAnswered (S.left input.old) result }
    ensures reads { CountsFault (S.faults input.old) (S.faults input.new) (result ≡ 3) }
    ensures writes { CountsFault (K.faults output.old) (K.faults output.new) (result ≡ 4) }
    ensures others { (result ≢ 2) × (result ≢ 7) }
{
    let mut engine = Engine::new(alloc);
    run_steps(alloc, &mut engine, input, output)
}

/// The configuration for this user and password.
fn config_of(user: Units, password: Units, bare: bool, drivers: bool) -> Config
    ensures { result ≡ config_of user password bare drivers }
{
    Config {
        user,
        password,
        entry: if bare { Entry::Bare } else { Entry::Login },
        drivers,
    }
}

/// The status at the end of a connection.
fn status_of(end: End) -> u8
    ensures { result ≡ status_of end }
{
    match end {
        End::Closed => DONE,
        End::ReadFault => 3,
        End::WriteFault => WRITE_FAULT,
        End::Memory => NO_MEMORY,
        _ => 5,
    }
}

/// Serves the connections of a hall by so many of the house's first seats, and prints how many that were.
fn listen<K: Sink, H: Hall, R: Threads + Wait + Sync>(
    alloc: Global,
    rt: &R,
    house: &mut House,
    output: &mut K,
    hall: &mut H,
    port: u16,
    workers: u32,
    rounds: Option<u32>,
    config: &Config,
) -> u8
    requires full { IsFull house_seats house.old }
    requires workers { (1 ≤ workers) × (workers ≤ 64) }
    ensures full { IsFull house_seats house.new }
    ensures listened { Listened H.Door.may_close H.Door.Line.left H.Door.Line.given H.Door.Line.Source.faults H.Door.Line.written H.Door.Line.Sink.faults config.now port workers rounds
        (H.told hall.old) (H.told hall.new) (numbers_of H.faults H.finished H.failed H.closed H.made H.back H.begun H.at_port hall.old) (numbers_of H.faults H.finished H.failed H.closed H.made H.back H.begun H.at_port hall.new)
        (K.written output.old) (K.written output.new) house.old.seats house.new.seats result }
    ensures complete { ((door : H.Door) → H.Door.may_close door ≡ false) → result ≢ 4 → result ≢ 7 → ServesAll rounds (K.written output.old) (K.written output.new) result }
    ensures writes { CountsFault (K.faults output.old) (K.faults output.new) (result ≡ 4) }
    ensures hall { result ≡ 7 → HasRisen (H.faults hall.old) (H.faults hall.new) }
    ensures others { (result ≢ 2) × (result ≢ 3) }
{
    if hall.begin(port).is_err() {
        return HALL_FAULT;
    }
    let tally = house.serve_hall(alloc, rt, workers, config, hall, rounds);
    print_served(alloc, output, &tally)
}

/// Prints how many connections were served, and gives the status.
fn print_served<K: Sink>(alloc: Global, output: &mut K, tally: &Tally) -> u8
    ensures printed { Prints (K.written output.old) (K.written output.new) (served_text tally.now.connections) (tally_status tally.now) (unprinted_status tally.now) result }
    ensures writes { CountsFault (K.faults output.old) (K.faults output.new) (result ≡ 4) }
{
    let unprinted = unprinted_status(tally);
    match served_text(alloc, tally.connections) {
        Ok(text) => print(output, text.as_bytes(), tally_status(tally), unprinted),
        Err(Memory) => unprinted,
    }
}

/// How many connections were served, as it is printed.
fn served_text(alloc: Global, served: u64) -> Result<String, Memory>
    ensures { IfOk result (λ text. string_bytes text ≡ served_text served) }
{
    Ok(format!(in alloc; "served {served}\n")?)
}

/// The status where a hall was served.
fn tally_status(tally: &Tally) -> u8
    ensures { result ≡ tally_status tally.now }
{
    if tally.failed > 0 {
        HALL_FAULT
    } else if tally.memory || tally.starved > 0 {
        NO_MEMORY
    } else {
        DONE
    }
}

/// The status where memory is wanting for what is printed then.
fn unprinted_status(tally: &Tally) -> u8
    ensures { result ≡ unprinted_status tally.now }
{
    if tally.failed > 0 {
        HALL_FAULT
    } else {
        NO_MEMORY
    }
}

/// Runs transfers between accounts by so many of the house's first seats, and prints what came of them.
fn load_accounts<K: Sink, R: Threads + Wait + Sync>(
    alloc: Global,
    rt: &R,
    house: &mut House,
    output: &mut K,
    workers: u32,
    transfers: u32,
) -> u8
    requires full { IsFull house_seats house.old }
    requires workers { (1 ≤ workers) × (workers ≤ 64) }
    requires transfers { (1 ≤ transfers) × (transfers ≤ 10000) }
    ensures full { IsFull house_seats house.new }
    ensures printed { PrintsLoad workers transfers (K.written output.old) (K.written output.new) house.old.seats house.new.seats result }
    ensures writes { CountsFault (K.faults output.old) (K.faults output.new) (result ≡ 4) }
    ensures one { (result ≡ 0) ⊎ ((result ≡ 4) ⊎ (result ≡ 6)) }
{
    let mut printed = Vec::new(alloc);
    match load(alloc, rt, house, workers, transfers, &mut printed) {
        Ok(()) => print(output, printed.as_slice(), DONE, NO_MEMORY),
        Err(Memory) => NO_MEMORY,
    }
}

/// Prints a text whole, and gives the status for that; or where memory is wanting, the other one.
fn print<K: Sink>(output: &mut K, text: &[u8], done: u8, wanting: u8) -> u8
    requires done { (done ≢ 4) × (wanting ≢ 4) }
    ensures printed { Prints (K.written output.old) (K.written output.new) text.now done wanting result }
    ensures writes { CountsFault (K.faults output.old) (K.faults output.new) (result ≡ 4) }
    ensures one { (result ≡ done) ⊎ ((result ≡ 4) ⊎ (result ≡ wanting)) }
{
    match write_whole(output, text) {
        Ok(()) => done,
        Err(SinkFault::Failed) => WRITE_FAULT,
        Err(SinkFault::Memory) => wanting,
    }
}
