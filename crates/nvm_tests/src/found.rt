// What a thread found of contents that tell their numbers.

/// How many looks a thread takes at most.
pub(crate) const LOOKS: u64 = 400_000_000;

/// How many contents came, how many were wrong, and the last number.
#[derive(Copy, Clone, Drop)]
pub(crate) struct Found {
    pub(crate) count: u64,
    pub(crate) wrong: u64,
    pub(crate) last: u64,
}

impl Found {
    pub(crate) fn new() -> Found {
        Found {
            count: 0,
            wrong: 0,
            last: 0,
        }
    }

    /// Notes a content. It is wrong where it isn't its number, or this number is below the least that may come.
    pub(crate) fn note(&mut self, number: u64, least: u64, content: &[u8]) {
        self.count = self.count.saturating_add(1);
        if number < least || content != number.to_le_bytes().as_slice() {
            self.wrong = self.wrong.saturating_add(1);
        }
        self.last = number;
    }
}
