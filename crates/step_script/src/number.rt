//! The numbers that words spell.

ghost use Rattle.std.specs.Prelude.{◌≡◌, pos, option_map};
ghost use Rattle.std.specs.List.{list_all};
ghost use Rattle.convert_rules.specs.Reading.{is_digit};
ghost use Rattle.step_script.specs.Lines.{Reads};
ghost use Rattle.step_script.specs.Numbers.{is_long, is_mark, long_in, mark_in, natural_in, negative_in, only, priority_in, session_in, whole_in};
ghost use Rattle.step_script.specs.Partial.{small_value};

use crate::line::LineFault;
use step_model::LAST_SESSION;

const MINUS: u8 = 0x2D;

const DIGIT_ZERO: u8 = 0x30;

const DIGIT_NINE: u8 = 0x39;

/// The greatest number whose negative has 64 bits.
const MAGNITUDE_LIMIT: u64 = 9223372036854775808;

/// The session that a word names.
#[tactic(auto, using(crate::proofs::Sizes::session_of_mark), unfolding(crate::specs::Numbers::session_in))]
pub(crate) fn read_session(word: &[u8]) -> Result<u32, LineFault>
    ensures { Reads result (session_in word.now) }
{
    match natural_in(word) {
        Some(number) if 1 <= number && number <= u64::from(LAST_SESSION) => Ok(number as u32),
        _ => Err(LineFault::Bad),
    }
}

/// The mark that a word names.
#[tactic(auto, unfolding(crate::specs::Numbers::mark_in))]
pub(crate) fn read_mark(word: &[u8]) -> Result<u64, LineFault>
    ensures { Reads result (mark_in word.now) }
{
    natural_in(word).ok_or(LineFault::Bad)
}

/// The number of a key or a row that a word spells.
#[tactic(auto, unfolding(crate::specs::Numbers::long_in))]
pub(crate) fn read_long(word: &[u8]) -> Result<i64, LineFault>
    ensures { Reads result (long_in word.now) }
{
    whole_in(word).ok_or(LineFault::Bad)
}

/// The deadlock priority that a word spells.
#[tactic(auto, using(crate::proofs::Sizes::priority_of_long), unfolding(crate::specs::Numbers::priority_in))]
pub(crate) fn read_priority(word: &[u8]) -> Result<i8, LineFault>
    ensures { Reads result (priority_in word.now) }
{
    match whole_in(word) {
        Some(number) if -10 <= number && number <= 10 => Ok(number as i8),
        _ => Err(LineFault::Bad),
    }
}

/// The whole number that a word spells, if it has 64 bits.
#[tactic(auto, using(crate::proofs::Sizes::positive_of_mark, crate::proofs::Sizes::negative_of_mark), unfolding(crate::specs::Numbers::whole_in))]
fn whole_in(word: &[u8]) -> Option<i64>
    ensures { result ≡ only is_long (whole_in word.now) }
{
    match word {
        [] => None,
        [first, rest @ ..] => {
            if *first == MINUS {
                negative(natural_in(rest))
            } else {
                positive(natural_in(word))
            }
        }
    }
}

/// The number, where it has 64 bits with a sign.
fn positive(number: Option<u64>) -> Option<i64>
    ensures { result ≡ only is_long (option_map pos number) }
{
    match number {
        Some(number) if number < MAGNITUDE_LIMIT => Some(number as i64),
        _ => None,
    }
}

/// The negative of a number that isn't 0, where it has 64 bits.
fn negative(number: Option<u64>) -> Option<i64>
    ensures { result ≡ only is_long (negative_in number) }
{
    match number {
        Some(number) if 1 <= number && number <= MAGNITUDE_LIMIT => {
            Some(-1 - (number - 1) as i64)
        }
        _ => None,
    }
}

/// The number that a word of digits spells, if it has 64 bits.
#[tactic(auto, unfolding(crate::specs::Numbers::natural_in, crate::specs::Partial::small_value))]
fn natural_in(word: &[u8]) -> Option<u64>
    ensures { result ≡ only is_mark (natural_in word.now) }
{
    if 1 <= word.len() && is_digits(word) {
        small_value(word)
    } else {
        None
    }
}

/// The number of digits, if it has 64 bits.
fn small_value(digits: &[u8]) -> Option<u64>
    ensures { result ≡ small_value digits.now }
{
    let mut value: u64 = 0;
    for byte in digits {
        let digit = u64::from(byte.saturating_sub(DIGIT_ZERO));
        if value > (u64::MAX - digit) / 10 {
            return None;
        }
        value = value * 10 + digit;
    }
    Some(value)
}

/// Whether it is digits alone.
fn is_digits(word: &[u8]) -> bool
    ensures { result ≡ list_all is_digit word.now }
{
    word.iter().all(|byte| is_digit(*byte))
}

/// 0 to 9.
fn is_digit(byte: u8) -> bool
    ensures { result ≡ is_digit byte }
{
    (DIGIT_ZERO..=DIGIT_NINE).contains(&byte)
}
