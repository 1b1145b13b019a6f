// What is kept of one mark of an instance while the entries are read.
ghost use Rattle.std.specs.Prelude.{◌≡◌, ◌↔◌, IsTrue, false, Some};
ghost use Rattle.rows_histories.specs.Seen.{IsSeenBy, mark_taken};

use crate::found::is_listed;
use crate::instances::works_on;
use block_machine::block_config::Config;
use block_machine::nv_base::{Entry, Instance, JobKind, Mark, Reply, Request, Taken};

/// Whether the mark may stand, and the data index of the block, behind the entries so far.
#[derive(Clone, Copy)]
pub struct Seen {
    pub stands: bool,
    pub index: u8,
}

impl Seen {
    /// Before the first entry.
    pub fn at_first() -> Seen
        ensures stands { result.stands ≡ false }
        ensures index { result.index ≡ 0 }
    {
        Seen {
            stands: false,
            index: 0,
        }
    }

    /// One entry more.
    pub fn see(&mut self, config: &Config, instance: Instance, mark: &Mark, entry: &Entry)
        ensures { IsSeenBy config.now instance mark.now self.old entry.now self.new }
    {
        match entry {
            Entry::Ask {
                request: Request::SetIndex { block, index },
                reply: Reply::Accepted,
                ..
            } if *block == instance.block => self.index = *index,
            Entry::Pick {
                block,
                job,
                taken,
                ..
            } => {
                self.stands |= *block == instance.block
                    && works_on(config, instance, self.index)
                    && takes(*job, taken, mark);
            }
            Entry::Wrote {
                instance: written,
                mark: now,
                ..
            } if *written == instance => self.stands = mark == now,
            Entry::Found { marks, .. } => {
                self.index = 0;
                self.stands = is_listed(marks, instance, mark);
            }
            _ => {}
        }
    }
}

// Whether a Pick takes this mark.
fn takes(job: JobKind, taken: &Taken, mark: &Mark) -> bool
    ensures { IsTrue result ↔ (mark_taken job taken.now ≡ Some mark.now) }
{
    match (job, taken) {
        (JobKind::Write, Taken::Content { bytes, .. }) => {
            matches!(mark, Mark::Content(own) if own == bytes)
        }
        (JobKind::Invalidate, _) => matches!(mark, Mark::Invalid),
        (JobKind::Erase, _) => matches!(mark, Mark::Erased),
        _ => false,
    }
}
