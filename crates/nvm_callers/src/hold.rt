// What stands round each request of a caller.

/// What each caller calls just before a request, and just behind its answer, both without the lock.
pub trait Hold {
    fn before(&self, caller: u8, line: u32);

    fn answered(&self, caller: u8, line: u32);

    /// Whether several callers may be made in one thread, a deed of each in turn: not where one is held until another one did something.
    fn may_share(&self) -> bool;
}

/// Nothing stands there.
#[derive(Clone, Copy, Drop)]
pub struct NoHold;

impl Hold for NoHold {
    fn before(&self, _caller: u8, _line: u32) {}

    fn answered(&self, _caller: u8, _line: u32) {}

    fn may_share(&self) -> bool {
        true
    }
}
