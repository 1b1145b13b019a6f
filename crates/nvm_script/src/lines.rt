// The lines of a history.
ghost use Rattle.std.specs.Prelude.{◌≡◌, length, IfOk};
ghost use Rattle.std.specs.List.{flat_map};
ghost use Rattle.nv_base.specs.declared.entry.Entry.TheVariants.{Ask, Pick, Wrote, Post, Found};
ghost use Rattle.nvm_script.specs.Text.{Adds};
ghost use Rattle.nvm_script.specs.Lines.{ops_text, instance_text, found_text, entry_line, end_line};

use crate::text::Text;
use crate::words::job_word;
use nv_base::{
    Bytes, Entry, Instance, JobKind, Mark, Marks, Reply, ReqResult, Request, Taken, result_code,
};
use std::alloc::{AllocError, Global};

#[tactic(auto, using(crate::proofs::TextLaws::parts))]
impl Text {
    // The number of operations so far, and the end of the line.
    fn ops(&mut self, ops: u64)
        ensures { Adds (ops_text ops) self.old self.new }
    {
        self.word(" ops ");
        self.number(ops);
        self.word("\n");
    }

    fn ask_line(&mut self, caller: u8, request: &Request, reply: Reply)
        ensures { Adds (entry_line (Ask caller request.now reply)) self.old self.new }
    {
        self.word("ask ");
        self.number(caller as u64);
        self.word(" ");
        self.request(request);
        self.word(" -> ");
        self.reply(reply);
        self.word("\n");
    }

    fn pick_line(&mut self, block: u16, job: JobKind, taken: &Taken, ops: u64)
        ensures { Adds (entry_line (Pick block job taken.now ops)) self.old self.new }
    {
        self.word("pick ");
        self.number(block as u64);
        self.word(" ");
        self.word(job_word(job));
        self.taken(taken);
        self.ops(ops);
    }

    fn instance(&mut self, instance: Instance, mark: &Mark)
        ensures { Adds (instance_text instance mark.now) self.old self.new }
    {
        self.number(instance.block as u64);
        self.word(".");
        self.number(instance.index as u64);
        self.word(" ");
        self.mark(mark);
    }

    fn wrote_line(&mut self, instance: Instance, mark: &Mark, ops: u64)
        ensures { Adds (entry_line (Wrote instance mark.now ops)) self.old self.new }
    {
        self.word("wrote ");
        self.instance(instance, mark);
        self.ops(ops);
    }

    fn post_line(
        &mut self,
        block: u16,
        outcome: ReqResult,
        given: &Option<Bytes>,
        refused: u8,
        ops: u64,
    )
        ensures { Adds (entry_line (Post block outcome given.now refused ops)) self.old self.new }
    {
        self.word("post ");
        self.number(block as u64);
        self.word(" ");
        self.number(result_code(outcome) as u64);
        self.given(given);
        self.refused(refused);
        self.ops(ops);
    }

    fn found(&mut self, instance: Instance, mark: &Mark)
        ensures { Adds (found_text (instance, mark.now)) self.old self.new }
    {
        self.word(" ");
        self.instance(instance, mark);
    }

    // The instances that were found, in order.
    fn all_found(&mut self, marks: &Marks)
        ensures { Adds (flat_map found_text marks.now) self.old self.new }
    {
        for i in 0..marks.len() {
            if let Some((instance, mark)) = marks.get(i) {
                self.found(instance, mark);
            }
        }
    }

    fn found_line(&mut self, marks: &Marks, ops: u64)
        ensures { Adds (entry_line (Found marks.now ops)) self.old self.new }
    {
        self.word("found ");
        self.number(marks.len() as u64);
        self.all_found(marks);
        self.ops(ops);
    }

    fn line(&mut self, entry: &Entry)
        ensures { Adds (entry_line entry.now) self.old self.new }
    {
        match entry {
            Entry::Ask {
                caller,
                request,
                reply,
            } => self.ask_line(*caller, request, *reply),
            Entry::Pick {
                block,
                job,
                taken,
                ops,
            } => self.pick_line(*block, *job, taken, *ops),
            Entry::Wrote {
                instance,
                mark,
                ops,
            } => self.wrote_line(*instance, mark, *ops),
            Entry::Post {
                block,
                result: outcome,
                given,
                refused,
                ops,
            } => self.post_line(*block, *outcome, given, *refused, *ops),
            Entry::Off { ops } => {
                self.word("off");
                self.ops(*ops);
            }
            Entry::Found { marks, ops } => self.found_line(marks, *ops),
        }
    }
}

/// The line of an entry, with its newline, in the memory of a text that isn't needed any more. Where that is large enough
/// none is taken.
#[tactic(auto, using(crate::proofs::TextLaws::written))]
pub fn entry_text_in(memory: Vec<u8>, entry: &Entry) -> Result<Vec<u8>, AllocError>
    ensures { IfOk result (λ v. v.items ≡ entry_line entry.now) }
{
    let mut text = Text::over(memory);
    text.line(entry);
    text.finish()
}

/// The line of an entry, with its newline.
pub fn entry_text(alloc: Global, entry: &Entry) -> Result<Bytes, AllocError>
    ensures { IfOk result (λ b. b ≡ entry_line entry.now) }
{
    let text = entry_text_in(Vec::new(alloc), entry)?;
    Ok(Bytes::from_vec(text))
}

/// The last line of a history, with how many entries it has, and its newline.
#[tactic(auto, using(crate::proofs::TextLaws::written))]
pub fn end_text(alloc: Global, count: u32) -> Result<Bytes, AllocError>
    ensures { IfOk result (λ b. b ≡ end_line count) }
{
    let mut text = Text::over(Vec::new(alloc));
    text.word("end ");
    text.number(count as u64);
    text.word("\n");
    Ok(Bytes::from_vec(text.finish()?))
}
