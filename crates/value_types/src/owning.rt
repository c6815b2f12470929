//! What is made beside what is made next, and what is let go.

ghost use Rattle.std.specs.Prelude.{◌≡◌, Ok, Err, IfOk, IfErr};

/// What was made first, beside what was made next. Where that is a fault, the first is dropped here, and so in one
/// place for all callers: a value that is alive at a `?` would be taken apart there in all its ways.
pub fn beside<T: Drop, A, E>(first: T, next: Result<A, E>) -> Result<(T, A), E>
    ensures both { IfOk result (λ both. (both.0 ≡ first) × (next ≡ Ok both.1)) }
    ensures fault { IfErr result (λ fault. next ≡ Err fault) }
{
    match next {
        Ok(next) => Ok((first, next)),
        Err(fault) => Err(fault),
    }
}

/// What came of a value, which is let go here, and so in one place for all callers, as in [`beside`].
pub fn letting_go<T: Drop, A>(_value: T, came: A) -> A
    ensures { result ≡ came }
{
    came
}
