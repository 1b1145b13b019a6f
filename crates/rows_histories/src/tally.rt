// What was counted over many runs.
use block_machine::nv_base::Mark;

/// How many runs were judged, how many power cuts they had, how many of their start-ups were judged, and how many of the
/// marks that these found in the configured instances are contents, invalid and erased.
#[derive(Clone, Copy)]
pub struct Tally {
    pub runs: u64,
    pub cuts: u64,
    pub start_ups: u64,
    pub contents: u64,
    pub invalid: u64,
    pub erased: u64,
}

impl Tally {
    /// Nothing yet.
    pub fn none() -> Tally {
        Tally {
            runs: 0,
            cuts: 0,
            start_ups: 0,
            contents: 0,
            invalid: 0,
            erased: 0,
        }
    }

    pub(crate) fn add_run(&mut self) {
        self.runs = self.runs.saturating_add(1);
    }

    pub(crate) fn add_cut(&mut self) {
        self.cuts = self.cuts.saturating_add(1);
    }

    pub(crate) fn add_start_up(&mut self) {
        self.start_ups = self.start_ups.saturating_add(1);
    }

    pub(crate) fn add_mark(&mut self, mark: &Mark) {
        match mark {
            Mark::Content(_) => self.contents = self.contents.saturating_add(1),
            Mark::Invalid => self.invalid = self.invalid.saturating_add(1),
            Mark::Erased => self.erased = self.erased.saturating_add(1),
        }
    }
}
