// What a turn and a start-up did.

/// What a turn did: nothing, as nothing is open or waits; it went on at the device, or with the job in hand; it added a
/// Pick, or a Post; or the power is off.
#[derive(Clone, Copy)]
pub enum Turned {
    Idle,
    Worked,
    Picked,
    Posted,
    Off,
}

/// What the first half of a turn came to: it was the whole turn, or a turn of the device comes next.
#[derive(Clone, Copy)]
pub enum Act {
    Ended(Turned),
    Device,
}

/// What became of a start-up: it stands; the device failed, by counted faults; its entry doesn't fit under the cap; or no memory
/// was found.
#[derive(Clone, Copy)]
pub enum FoundAnswer {
    Ready,
    Failed,
    NoRoom,
    Memory,
}
