//! Holds a conversation about each step of a script, in which an allocation may fail, and prints what came of it. The status is 1
//! where that is none of what may come of it.
//!
//! `tools/fail_alloc.py` has it hold the conversation about a step again and again, once for each allocation of the step, by
//! `rt try --fail-alloc`. That fails the allocation of one number in all its runs, so the program reads from its input which step,
//! and how many allocations it makes before. Without input it holds all of them.
#![tactic(auto)]

mod conversation;
mod holding;
mod judging;
mod replies;

use holding::{hold, hold_all};
use judging::Outcome;
use std::alloc::Global;
use std::io::Read;
use std::process::ExitCode;

fn main(rt: HostRuntime) -> ExitCode {
    let mut digits = [0u8; 32];
    let count = match rt.stdin().read(&mut digits) {
        Ok(count) => count,
        Err(_) => 0,
    };
    let (step, behind) = number_in(digits.get(..count).unwrap_or(&[]));
    let outcome = if step == 0 {
        hold_all(rt.alloc())
    } else {
        let (spent, _) = number_in(behind);
        spend(rt.alloc(), spent);
        hold(rt.alloc(), step)
    };
    let _ = println!(rt; "{outcome}");
    ExitCode::from(u8::from(outcome == Outcome::Wrong))
}

/// The number that the first digits are, and what stands behind the byte that ends them.
fn number_in(digits: &[u8]) -> (u32, &[u8]) {
    let mut number = 0u32;
    for (place, digit) in digits.iter().enumerate() {
        match digit {
            b'0'..=b'9' => number = number.wrapping_mul(10).wrapping_add(u32::from(digit & 15)),
            _ => return (number, digits.get(place.saturating_add(1)..).unwrap_or(&[])),
        }
    }
    (number, &[])
}

/// Makes so many allocations, of which nothing is kept.
fn spend(alloc: Global, count: u32) {
    for _ in 0..count {
        let _spent = vec![in alloc; 0u8];
    }
}
