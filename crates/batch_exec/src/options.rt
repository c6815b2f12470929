//! What SET makes of the settings of a session.

ghost use Rattle.std.specs.Prelude.{◌≡◌, IfOk};
ghost use Rattle.step_model.specs.Exchange.{IsPriority};
ghost use Rattle.batch_meaning.specs.Settings.{at_level, if_known, is_setting, outside_profile, priority_of, set_option, with_priority, with_timeout};
ghost use Rattle.batch_meaning.specs.Failures.{plain};

use batch_meaning::{Failure, Settings};
use dml_exec::Level;
use session_state::OUTSIDE_PROFILE;
use step_model::{Manner, Patience};
use tsql_tree::{FixedOption, IsolationLevel, PriorityWord, SessionOption};

/// The day on which a week begins, Sunday.
const FIRST_OF_WEEK: i64 = 7;

/// The limit of rows that is none.
const ALL_ROWS: i64 = 0;

/// The settings behind SET of an option.
pub(crate) fn set_option(option: SessionOption, settings: Settings) -> Result<Settings, Failure>
    requires { IsPriority settings.manner.priority }
    ensures set { result ≡ set_option option settings }
    ensures priority { IfOk result (λ set. IsPriority set.manner.priority) }
{
    match option {
        SessionOption::XactAbort(xact_abort) => Ok(Settings {
            xact_abort,
            ..settings
        }),
        SessionOption::NoCount(no_count) => Ok(Settings {
            no_count,
            ..settings
        }),
        SessionOption::ImplicitTransactions(implicit) => Ok(Settings {
            implicit,
            ..settings
        }),
        SessionOption::Fixed(which, is_on) => if_known(is_setting(which, is_on), settings),
        SessionOption::Isolation(level) => at_level(level, settings),
        SessionOption::LockTimeout(number) => with_timeout(number, settings),
        SessionOption::TextSize(_) => Ok(settings),
        SessionOption::DeadlockPriority(word) => with_priority(priority_of(word), settings),
        SessionOption::DateFirst(number) => if_known(number == FIRST_OF_WEEK, settings),
        SessionOption::RowCount(number) => if_known(number == ALL_ROWS, settings),
        SessionOption::DateFormat(known) => if_known(known, settings),
        SessionOption::Language(known) => if_known(known, settings),
    }
}

/// Of an option that changes nothing, by whether its setting is known.
fn if_known(known: bool, settings: Settings) -> Result<Settings, Failure>
    requires { IsPriority settings.manner.priority }
    ensures set { result ≡ if_known known settings }
    ensures priority { IfOk result (λ set. IsPriority set.manner.priority) }
{
    if known {
        Ok(settings)
    } else {
        Err(not_known())
    }
}

/// Whether this setting of an option that changes nothing is known.
fn is_setting(which: FixedOption, is_on: bool) -> bool
    ensures { result ≡ is_setting which is_on }
{
    match which {
        FixedOption::CursorCloseOnCommit => true,
        FixedOption::FormatOnly | FixedOption::NumericRoundAbort => !is_on,
        _ => is_on,
    }
}

/// The option or its argument is outside the profile.
fn not_known() -> Failure
    ensures { result ≡ plain outside_profile }
{
    Failure::plain(OUTSIDE_PROFILE)
}

fn at_level(level: IsolationLevel, settings: Settings) -> Result<Settings, Failure>
    ensures { result ≡ at_level level settings }
{
    match level {
        IsolationLevel::ReadCommitted => Ok(Settings {
            level: Level::ReadCommitted,
            ..settings
        }),
        IsolationLevel::Serializable => Ok(Settings {
            level: Level::Serializable,
            ..settings
        }),
        _ => Err(not_known()),
    }
}

fn with_timeout(number: i64, settings: Settings) -> Result<Settings, Failure>
    ensures { result ≡ with_timeout number settings }
{
    match number {
        0 => Ok(with_patience(Patience::Refuse, settings)),
        -1 => Ok(with_patience(Patience::Forever, settings)),
        _ => Err(not_known()),
    }
}

fn with_patience(patience: Patience, settings: Settings) -> Settings
    ensures { result ≡ record settings { manner = record settings.manner { patience = patience } } }
{
    Settings {
        manner: Manner {
            patience,
            priority: settings.manner.priority,
        },
        ..settings
    }
}

fn with_priority(number: i64, settings: Settings) -> Result<Settings, Failure>
    ensures set { result ≡ with_priority number settings }
    ensures priority { IfOk result (λ set. IsPriority set.manner.priority) }
{
    if -10 <= number && number <= 10 {
        Ok(Settings {
            manner: Manner {
                patience: settings.manner.patience,
                priority: number as i8,
            },
            ..settings
        })
    } else {
        Err(not_known())
    }
}

fn priority_of(word: PriorityWord) -> i64
    ensures { result ≡ priority_of word }
{
    match word {
        PriorityWord::Low => -5,
        PriorityWord::Normal => 0,
        PriorityWord::High => 5,
        PriorityWord::Number(number) => number,
    }
}
