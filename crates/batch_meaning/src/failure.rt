//! Why a statement failed.

ghost use Rattle.std.specs.Prelude.{◌≡◌, pos};
ghost use Rattle.batch_meaning.specs.Failures.{naming, plain};

use value_types::Units;

/// The error of a statement that failed.
#[derive(Debug, Drop)]
pub struct Failure {
    /// Its number.
    pub number: i32,
    /// What its text names, if it names anything.
    pub name: Option<Units>,
}

impl Failure {
    /// An error of this number that names nothing.
    pub fn plain(number: u16) -> Failure
        ensures { result ≡ plain number }
    {
        Failure {
            number: i32::from(number),
            name: None,
        }
    }

    /// An error of this number that names this.
    pub fn naming(number: u16, name: Units) -> Failure
        ensures { result ≡ naming number name }
    {
        Failure {
            number: i32::from(number),
            name: Some(name),
        }
    }
}
