//! The lock modes by the names of the transaction locking guide, and then those that only joins of them have.

use lock_modes::{
    KeyPart, Pair, RangePart, agree, join, law_agree_join, law_agree_symmetric,
    law_join_associative, law_join_commutative, law_join_idempotent, law_mode_names,
};

/// Two modes, `+` where they agree, and their join.
const EVERY_TWO: &str = "S S + S
S U + U
S X - X
S RangeS-S + RangeS-S
S RangeS-U + RangeS-U
S RangeI-N + RangeI-S
S RangeX-X - RangeX-X
U U - U
U X - X
U RangeS-S + RangeS-U
U RangeS-U - RangeS-U
U RangeI-N + RangeI-U
U RangeX-X - RangeX-X
X X - X
X RangeS-S - RangeS-X
X RangeS-U - RangeS-X
X RangeI-N + RangeI-X
X RangeX-X - RangeX-X
RangeS-S RangeS-S + RangeS-S
RangeS-S RangeS-U + RangeS-U
RangeS-S RangeI-N - RangeX-S
RangeS-S RangeX-X - RangeX-X
RangeS-U RangeS-U - RangeS-U
RangeS-U RangeI-N - RangeX-U
RangeS-U RangeX-X - RangeX-X
RangeI-N RangeI-N + RangeI-N
RangeI-N RangeX-X - RangeX-X
RangeX-X RangeX-X - RangeX-X";

fn range_part(word: &str) -> Option<RangePart> {
    match word {
        "S" => Some(RangePart::S),
        "I" => Some(RangePart::I),
        "X" => Some(RangePart::X),
        _ => None,
    }
}

fn key_part(word: &str) -> Option<KeyPart> {
    match word {
        "N" => Some(KeyPart::N),
        "S" => Some(KeyPart::S),
        "U" => Some(KeyPart::U),
        "X" => Some(KeyPart::X),
        _ => None,
    }
}

/// The mode of a name.
fn mode_of(name: &str) -> Option<Pair> {
    let (range, key) = match name.strip_prefix("Range") {
        Some(parts) => {
            let (range, key) = parts.split_once('-')?;
            (range_part(range)?, key)
        }
        None => (RangePart::N, name),
    };
    Some(Pair {
        range,
        key: key_part(key)?,
    })
}

/// Two modes, whether they agree, and their join.
fn line_of(line: &str) -> Option<(Pair, Pair, bool, Pair)> {
    let (first, others) = line.split_once(' ')?;
    let (second, others) = others.split_once(' ')?;
    let (sign, joined) = others.split_once(' ')?;
    Some((
        mode_of(first)?,
        mode_of(second)?,
        sign == "+",
        mode_of(joined)?,
    ))
}

/// Whether a line says how its two modes are, in either order, and that the mode of nothing adds nothing.
fn holds(line: &str) -> bool {
    let Some((a, b, agrees, joined)) = line_of(line) else {
        return false;
    };
    agree(a, b) == agrees
        && agree(b, a) == agrees
        && join(a, b) == joined
        && join(b, a) == joined
        && agree(Pair::NONE, a)
        && join(Pair::NONE, a) == a
}

#[test]
fn every_two_modes(rt: HostRuntime) {
    for line in EVERY_TWO.lines() {
        assert!(rt; holds(line), "{line}");
    }
}

#[test]
fn laws_of_modes_are_called() {
    law_mode_names();
    law_agree_symmetric();
    law_agree_join();
    law_join_commutative();
    law_join_associative();
    law_join_idempotent();
}
