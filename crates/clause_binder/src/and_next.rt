//! What is made, while the next is made.

ghost use Rattle.std.specs.Prelude.{◌≡◌, Ok, Err, IfOk, IfErr};

/// What is made, beside the next; where there is no next, it is dropped. A tree that is alive at a `?` would be taken
/// apart there in all its ways.
pub(crate) fn and_next<A: Drop, B, E>(made: A, next: Result<B, E>) -> Result<(A, B), E>
    ensures both { IfOk result (λ two. (two.0 ≡ made) × (next ≡ Ok two.1)) }
    ensures fault { IfErr result (λ fault. next ≡ Err fault) }
{
    match next {
        Ok(next) => Ok((made, next)),
        Err(fault) => Err(fault),
    }
}
