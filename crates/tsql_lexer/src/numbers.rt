//! The values of digits.

ghost use Rattle.std.specs.Prelude.{◌≡◌, IsTrue};
ghost use Rattle.std.specs.List.{list_all};
ghost use Rattle.tsql_lexer.specs.Classes.{is_digit};
ghost use Rattle.tsql_lexer.specs.Reading.{number_of};

use crate::classes::DIGIT_ZERO;

/// The largest number.
const NUMBER_LIMIT: u64 = 9223372036854775807;

/// The number that digits spell in base ten, if it is not too big.
pub(crate) fn number_of(digits: &[u16]) -> Option<i64>
    requires { IsTrue (list_all is_digit digits.now) }
    ensures { result ≡ number_of digits.now }
{
    let mut value: u64 = 0;
    for digit in digits {
        if value > NUMBER_LIMIT / 10 {
            return None;
        }
        value = value * 10 + u64::from(*digit - DIGIT_ZERO);
        if value > NUMBER_LIMIT {
            return None;
        }
    }
    Some(value as i64)
}
