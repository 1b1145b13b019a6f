// The summary of a history.
ghost use Rattle.std.specs.Prelude.{◌≡◌, ◌++◌, codes, slice_index, IfOk};
ghost use Rattle.std.specs.List.{flat_map, range_with_len};
ghost use Rattle.std.specs.Fmt.{decimal};
ghost use Rattle.nvm_script.specs.Text.{Adds};
ghost use Rattle.nvm_script.specs.Summary.{result_line as result_text, head_lines as head_text, summary};

use crate::counts::{Counts, counts_of};
use crate::text::Text;
use nv_base::{Bytes, History};
use std::alloc::{AllocError, Global};

#[tactic(auto, using(crate::proofs::TextLaws::parts))]
impl Text {
    fn result_line(&mut self, code: usize, count: u32)
        ensures { Adds (result_text code count) self.old self.new }
    {
        self.word("result ");
        self.number(code as u64);
        self.word(" ");
        self.number(count as u64);
        self.word("\n");
    }

    // One line for each result.
    fn result_lines(&mut self, results: &[u32; 9])
        ensures { Adds (flat_map (λ code. result_text code (slice_index results.now code)) (range_with_len 0 9)) self.old self.new }
    {
        for code in 0..9 {
            self.result_line(code, results[code]);
        }
    }

    fn head_lines(&mut self, entries: u32, counts: &Counts)
        ensures { Adds (head_text entries counts.now.asks counts.now.refused counts.now.posts) self.old self.new }
    {
        self.word("entries ");
        self.number(entries as u64);
        self.word("\nasks ");
        self.number(counts.asks as u64);
        self.word(" refused ");
        self.number(counts.refused as u64);
        self.word("\nposts ");
        self.number(counts.posts as u64);
        self.word("\n");
    }

    fn summary_lines(&mut self, entries: u32, counts: &Counts)
        ensures { Adds (head_text entries counts.now.asks counts.now.refused counts.now.posts ++ (flat_map (λ code. result_text code (slice_index counts.now.results code)) (range_with_len 0 9) ++ (codes "ops " ++ (decimal counts.now.ops ++ codes "\n")))) self.old self.new }
    {
        self.head_lines(entries, counts);
        self.result_lines(&counts.results);
        self.word("ops ");
        self.number(counts.ops);
        self.word("\n");
    }
}

/// The summary of a history, each line with its newline: its entries, its requests with those that were refused, its
/// ended jobs, those with each result from 0 to 8, and the changing flash operations that its last driver entry tells.
#[tactic(auto, using(crate::proofs::TextLaws::written))]
pub fn summary_text(alloc: Global, history: &History) -> Result<Bytes, AllocError>
    ensures { IfOk result (λ b. b ≡ summary history.now.entries) }
{
    let counts = counts_of(history);
    let mut text = Text::over(Vec::new(alloc));
    text.summary_lines(history.len(), &counts);
    Ok(Bytes::from_vec(text.finish()?))
}
