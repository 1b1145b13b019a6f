// Two flags that threads set and look for.
use std::sync::atomic::{AtomicU64, Ordering};
use std::thread;

/// How often a thread looks for a flag at most.
const LOOKS: u64 = 200_000_000;

/// Two flags, and how often one was looked for in vain.
#[derive(Drop)]
pub(crate) struct Flags {
    first: AtomicU64,
    second: AtomicU64,
    missed: AtomicU64,
}

impl Flags {
    pub(crate) fn new() -> Flags {
        Flags {
            first: AtomicU64::new(0),
            second: AtomicU64::new(0),
            missed: AtomicU64::new(0),
        }
    }

    pub(crate) fn set_first(&self) {
        self.first.store(1, Ordering::SeqCst);
    }

    pub(crate) fn set_second(&self) {
        self.second.store(1, Ordering::SeqCst);
    }

    pub(crate) fn look_for_first(&self) {
        look(&self.first, &self.missed);
    }

    pub(crate) fn look_for_second(&self) {
        look(&self.second, &self.missed);
    }

    pub(crate) fn none_was_missed(&self) -> bool {
        self.missed.load(Ordering::SeqCst) == 0
    }
}

fn look(flag: &AtomicU64, missed: &AtomicU64) {
    for _ in 0..LOOKS {
        if flag.load(Ordering::SeqCst) == 1 {
            return;
        }
        thread::yield_now();
    }
    missed.fetch_add(1, Ordering::SeqCst);
}
