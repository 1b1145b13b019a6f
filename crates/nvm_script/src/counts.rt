// What is counted of a history.
ghost use Rattle.std.specs.Prelude.{◌≡◌};
ghost use Rattle.nvm_script.specs.Counts.{AreCounts, HasRoom, one_more};

use nv_base::{Entry, History, Reply, result_code};

/// How many requests were asked, how many of them refused, how many jobs ended and how many with each result, and the
/// operations so far by the last entry that tells them.
#[derive(Drop)]
pub struct Counts {
    pub asks: u32,
    pub refused: u32,
    pub posts: u32,
    pub results: [u32; 9],
    pub ops: u64,
}

impl Counts {
    // Counts one entry more.
    #[tactic(auto, using(crate::proofs::CountLaws::code_small))]
    fn add(&mut self, entry: &Entry)
        requires room { HasRoom self.old }
        ensures { self.new ≡ one_more self.old entry.now }
    {
        match entry {
            Entry::Ask {
                reply: Reply::Refused(_),
                ..
            } => {
                self.asks += 1;
                self.refused += 1;
            }
            Entry::Ask { .. } => self.asks += 1,
            Entry::Pick { ops, .. } => self.ops = *ops,
            Entry::Wrote { ops, .. } => self.ops = *ops,
            Entry::Post {
                result: outcome,
                ops,
                ..
            } => {
                let code = result_code(*outcome) as usize;
                self.posts += 1;
                self.results[code] += 1;
                self.ops = *ops;
            }
            Entry::Off { ops } => self.ops = *ops,
            Entry::Found { ops, .. } => self.ops = *ops,
        }
    }
}

/// The counts of a history, in one pass.
pub fn counts_of(history: &History) -> Counts
    ensures { AreCounts history.now.entries result }
{
    let mut counts = Counts {
        asks: 0,
        refused: 0,
        posts: 0,
        results: [0; 9],
        ops: 0,
    };
    for i in 0..history.len() {
        if let Some(entry) = history.entry(i) {
            counts.add(entry);
        }
    }
    counts
}
