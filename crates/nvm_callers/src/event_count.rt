// Events that are counted, and threads that sleep until there is one more.
use std::sync::Wait;
use std::sync::atomic::{AtomicU64, Ordering};
use std::time::Duration;

/// How many events there were, and how many threads sleep. Who sleeps is counted first, and sleeps only where no event came since it
/// read the count; who adds one looks behind that whether somebody sleeps, and wakes. So the event is seen by the one, or the sleeper by
/// the other.
#[derive(Drop)]
pub(crate) struct EventCount {
    count: AtomicU64,
    sleepers: AtomicU64,
}

impl EventCount {
    pub(crate) fn new() -> EventCount {
        EventCount {
            count: AtomicU64::new(0),
            sleepers: AtomicU64::new(0),
        }
    }

    pub(crate) fn count(&self) -> u64 {
        self.count.load(Ordering::SeqCst)
    }

    /// One event more. It wakes all who sleep.
    pub(crate) fn add(&self) {
        self.count.fetch_add(1, Ordering::SeqCst);
        if self.sleepers.load(Ordering::SeqCst) > 0 {
            self.count.wake_all();
        }
    }

    /// Sleeps while there were so many events, for so many milliseconds at most. It may also return for no reason.
    pub(crate) fn sleep<W: Wait>(&self, rt: &W, seen: u64, longest: u64) {
        let low = (seen & 0xffff_ffff) as u32;
        self.sleepers.fetch_add(1, Ordering::SeqCst);
        self.count
            .park_timeout(rt, low, Duration::from_millis(longest));
        self.sleepers.fetch_sub(1, Ordering::SeqCst);
    }
}
