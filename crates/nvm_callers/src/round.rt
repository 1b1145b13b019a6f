// A round of callers and their driver.
use crate::event_count::EventCount;
use std::sync::Wait;
use std::sync::atomic::{AtomicBool, AtomicU64, Ordering};
use std::thread;

/// How many looks are taken before one gives up: callers at their blocks while nobody makes turns, and the driver at the callers while none
/// has begun. Each yields the processor, so that threads which were made begin behind far fewer.
pub(crate) const MOST_LOOKS: u32 = 1 << 12;

// How many looks a thread takes before it sleeps: the driver while callers make their requests, and callers while their jobs are made. In memory
// both take less than a thread to wake.
const LOOKS: u32 = 64;

// How many looks the driver takes, with callers of its own at hand, while the others make their requests: so these don't meet at the lock.
const LOOKS_AT_OTHERS: u32 = 16;

// With callers of its own at hand the driver tells the others once in so many times that it had nothing left to do: to wake them costs more
// than what they ask for.
const TIMES_UNTOLD: u64 = 8;

// The most milliseconds of a sleep, so that what didn't end it is seen behind it: of callers, and of the driver, which goes on then with
// what was asked for while other callers ask for nothing.
const LONGEST_SLEEP: u64 = 10;

const LONGEST_REST: u64 = 1;

/// What the threads of a round tell each other: whether the driver makes turns, how many callers began, and how many are back; how many
/// requests were made, and how many had been when the driver rested last; what calls the driver, until which it sleeps; how often it told
/// them that it had nothing left to do, until which callers sleep; and how often that was so with callers of its own at hand.
#[derive(Drop)]
pub struct Round {
    driven: AtomicBool,
    begun: AtomicU64,
    back: AtomicU64,
    news: AtomicU64,
    heard: AtomicU64,
    calls: EventCount,
    rests: EventCount,
    pauses: AtomicU64,
}

impl Round {
    pub fn new() -> Round {
        Round {
            driven: AtomicBool::new(false),
            begun: AtomicU64::new(0),
            back: AtomicU64::new(0),
            news: AtomicU64::new(0),
            heard: AtomicU64::new(0),
            calls: EventCount::new(),
            rests: EventCount::new(),
            pauses: AtomicU64::new(0),
        }
    }

    // Begins anew, with no other thread beside this one.
    pub(crate) fn restart(&self) {
        self.driven.store(false, Ordering::SeqCst);
        self.begun.store(0, Ordering::SeqCst);
        self.back.store(0, Ordering::SeqCst);
        self.heard.store(self.news(), Ordering::SeqCst);
    }

    pub(crate) fn is_driven(&self) -> bool {
        self.driven.load(Ordering::SeqCst)
    }

    // Tells that the driver makes turns, until what it gives is dropped.
    pub(crate) fn drive(&self) -> Driven<'_> {
        self.driven.store(true, Ordering::SeqCst);
        Driven { round: self }
    }

    pub(crate) fn has_begun(&self) -> bool {
        self.begun.load(Ordering::SeqCst) > 0
    }

    pub(crate) fn callers_begin(&self, callers: u64) {
        self.begun.fetch_add(callers, Ordering::SeqCst);
    }

    pub(crate) fn are_back(&self, callers: u64) -> bool {
        callers <= self.back.load(Ordering::SeqCst)
    }

    pub(crate) fn caller_is_back(&self) {
        self.back.fetch_add(1, Ordering::SeqCst);
        self.call();
    }

    // Tells the driver that a request was made.
    pub(crate) fn tell(&self) {
        self.news.fetch_add(1, Ordering::SeqCst);
        self.call();
    }

    // Calls the driver, where since it rested as many requests were made as callers are out. So it finds what all of them asked for, and
    // isn't woken for each.
    fn call(&self) {
        let heard = self.heard.load(Ordering::SeqCst);
        if self.out() <= self.news().saturating_sub(heard) {
            self.calls.add();
        }
    }

    // How many callers began and aren't back.
    fn out(&self) -> u64 {
        let back = self.back.load(Ordering::SeqCst);
        self.begun.load(Ordering::SeqCst).saturating_sub(back)
    }

    // How many requests were told.
    pub(crate) fn news(&self) -> u64 {
        self.news.load(Ordering::SeqCst)
    }

    // The driver had nothing left to do when so many requests were told: it tells the callers. How often it was called then, and whether a
    // request was told since.
    fn tell_rest(&self, news: u64) -> (u64, bool) {
        self.heard.store(news, Ordering::SeqCst);
        let calls = self.calls.count();
        let is_news = self.news() != news;
        self.rests.add();
        (calls, is_news)
    }

    // Takes so many looks, up to one that finds the driver called since. Each lets others have the processor.
    fn is_called(&self, calls: u64, looks: u32) -> bool {
        for _ in 0..looks {
            thread::yield_now();
            if self.calls.count() != calls {
                return true;
            }
        }
        false
    }

    // It has callers of its own thread at hand. Once in so many times it tells the others, and while these are out it looks some times
    // whether they called it.
    pub(crate) fn pause(&self, news: u64) {
        if self.pauses.fetch_add(1, Ordering::SeqCst) % TIMES_UNTOLD != 0 {
            return;
        }
        let (calls, _is_news) = self.tell_rest(news);
        if self.out() > 0 {
            self.is_called(calls, LOOKS_AT_OTHERS);
        }
    }

    // It tells the callers, and behind some looks sleeps until they call it. Where a request was told since, or no caller is out, it only
    // lets others have the processor.
    pub(crate) fn rest<W: Wait>(&self, rt: &W, news: u64) {
        let (calls, is_news) = self.tell_rest(news);
        if is_news || self.out() == 0 {
            thread::yield_now();
            return;
        }
        if !self.is_called(calls, LOOKS) {
            self.calls.sleep(rt, calls, LONGEST_REST);
        }
    }

    // How often the driver told that it had nothing left to do.
    fn rests(&self) -> u64 {
        self.rests.count()
    }
}

/// How a thread waits none of whose callers goes on: how often the driver had nothing left to do when it looked last, how many looks more it
/// takes before it sleeps, and how many while nobody makes turns before it gives up.
#[derive(Drop)]
pub(crate) struct Waiting {
    rests: u64,
    awake: u32,
    left: u32,
}

impl Waiting {
    pub(crate) fn begin(round: &Round) -> Waiting {
        Waiting {
            rests: round.rests(),
            awake: 0,
            left: MOST_LOOKS,
        }
    }

    // Whether its callers may go on: the driver told that it had nothing left to do since it looked last, or it slept, or nobody makes turns.
    // Before that who is served asks for nothing more, so that requests come together and not one by one between the halves of turns.
    pub(crate) fn is_time(&mut self, round: &Round) -> bool {
        let rests = round.rests();
        let is_time = rests != self.rests || self.awake == 0 || !round.is_driven();
        if is_time {
            self.rests = rests;
            self.awake = LOOKS;
        }
        is_time
    }

    // Behind a look it lets others have the processor, and behind some of them sleeps until the driver has nothing left to do or makes no
    // more turns. Where nobody made turns at so many looks it gives up.
    pub(crate) fn gives_up<W: Wait>(&mut self, rt: &W, round: &Round) -> bool {
        if !round.is_driven() {
            if self.left == 0 {
                return true;
            }
            self.left -= 1;
            thread::yield_now();
        } else if self.awake > 1 {
            self.awake -= 1;
            thread::yield_now();
        } else {
            self.awake = 0;
            round.rests.sleep(rt, self.rests, LONGEST_SLEEP);
        }
        false
    }
}

/// While it stands the driver makes turns in its round. Its drop tells that none come and wakes who sleeps, so no way out of a drive can
/// leave that out, and a caller that waits gives up.
pub(crate) struct Driven<'a> {
    round: &'a Round,
}

impl Drop for Driven<'_> {
    fn drop(self) {
        let Driven { round } = self;
        round.driven.store(false, Ordering::SeqCst);
        round.rests.add();
    }
}
