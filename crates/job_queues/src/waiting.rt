// A job that waits.
ghost use Rattle.std.specs.Prelude.{◌≡◌, ◌↔◌, IsTrue};
ghost use Rattle.block_machine.specs.Order.{goes_before};
ghost use Rattle.job_queues.specs.Order.{rank_of};
ghost use Rattle.job_queues.specs.InOrder.{Leads};

/// A job that waits: its block, that block's priority (0 to 255, the lowest), whether it is immediate, and the number of
/// the entry that accepted it.
#[derive(Clone, Copy, PartialEq, Eq)]
pub struct Waiting {
    pub block: u16,
    pub priority: u8,
    pub immediate: bool,
    pub number: u64,
}

impl Waiting {
    /// Whether it goes before another one.
    pub fn goes_before(&self, other: &Waiting) -> bool
        ensures { result ≡ goes_before (rank_of self.now) (rank_of other.now) }
    {
        if self.immediate {
            !other.immediate || self.number < other.number
        } else {
            !other.immediate
                && (self.priority < other.priority
                    || self.priority == other.priority && self.number < other.number)
        }
    }

    // Whether, where it came before another one of its queue, it goes before it too.
    pub(crate) fn leads(&self, behind: &Waiting) -> bool
        ensures { IsTrue result ↔ Leads self.now behind.now }
    {
        self.immediate == behind.immediate
            && self.priority <= behind.priority
            && self.number < behind.number
    }
}
