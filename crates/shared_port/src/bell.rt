//! The bell that wakes sessions which wait. Nothing is claimed of it: whoever wakes asks again.

use std::sync::atomic::AtomicU64;
use std::sync::atomic::Ordering::SeqCst;
use std::sync::{Condvar, Mutex, Wait};

/// Counts its rings, and wakes those who sleep until the next one.
#[derive(Drop)]
pub struct Bell {
    rings: AtomicU64,
    sleepers: AtomicU64,
    lock: Mutex<()>,
    rung: Condvar,
}

impl Bell {
    /// A bell that has not rung.
    pub fn new() -> Bell {
        Bell {
            rings: AtomicU64::new(0),
            sleepers: AtomicU64::new(0),
            lock: Mutex::new(()),
            rung: Condvar::new(),
        }
    }

    /// How often it has rung, modulo 2^64.
    pub fn rings(&self) -> u64 {
        self.rings.load(SeqCst)
    }

    /// Rings, and wakes all who sleep. A thread that is about to sleep is counted before it looks at the
    /// rings, so either it is found here or it sees this ring.
    pub fn ring<R: Wait>(&self, rt: &R) {
        self.rings.fetch_add(1, SeqCst);
        if self.sleepers.load(SeqCst) > 0 {
            drop(self.lock.lock(rt));
            self.rung.notify_all();
        }
    }

    /// Sleeps until it has rung since it had rung `seen` times.
    pub fn wait_past<R: Wait>(&self, rt: &R, seen: u64) {
        self.sleepers.fetch_add(1, SeqCst);
        let guard = self.rung.wait_while(rt, self.lock.lock(rt), |_unit| {
            self.rings.load(SeqCst) == seen
        });
        drop(guard);
        self.sleepers.fetch_sub(1, SeqCst);
    }
}
