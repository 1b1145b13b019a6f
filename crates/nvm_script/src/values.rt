// Each number of an entry fits its type.
ghost use Rattle.hex.specs.Hex.{IsBytes};
ghost use Rattle.nv_base.specs.declared.entry.Entry.TheVariants.{Ask, Pick, Wrote, Post, Off, Found};
ghost use Rattle.nvm_script.specs.Values.{AreMarkValues, IsContent, IsEntryValue, IsGivenValue, IsInstanceValue, IsMarkValue, IsReplyValue, IsRequestValue, IsTakenValue};

use nv_base::{Bytes, Entry, Instance, JobKind, Mark, Marks, Reply, ReqResult, Request, Taken};

fn bytes_value(bytes: &[u8])
    ensures { IsBytes bytes.now }
{}

fn content_value(content: &Bytes) -> usize
    ensures { IsContent content.now }
{
    bytes_value(content.as_slice());
    content.len()
}

fn request_value(request: &Request)
    ensures { IsRequestValue request.now }
{
    match request {
        Request::Write {
            block,
            content: None,
            store,
        } => {
            let _numbers = (*block, *store);
        }
        Request::Write {
            block,
            content: Some(content),
            ..
        }
        | Request::PutRam { block, content } => {
            let _block = *block;
            content_value(content);
        }
        Request::SetIndex { block, index } => {
            let _numbers = (*block, *index);
        }
        Request::Read { block, .. }
        | Request::Restore { block, .. }
        | Request::Erase { block }
        | Request::Invalidate { block }
        | Request::GetIndex { block }
        | Request::SetProtection { block, .. }
        | Request::SetLock { block, .. }
        | Request::SetRam { block, .. }
        | Request::Status { block } => {
            let _block = *block;
        }
        Request::ReadAll | Request::WriteAll | Request::CancelWriteAll => {}
    }
}

fn reply_value(reply: Reply)
    ensures { IsReplyValue reply }
{
    match reply {
        Reply::IndexIs(_) => {}
        Reply::Accepted | Reply::Refused(_) | Reply::StatusIs(_) => {}
    }
}

fn taken_value(taken: &Taken)
    ensures { IsTakenValue taken.now }
{
    match taken {
        Taken::Nothing => {}
        Taken::Content { bytes, store } => {
            content_value(bytes);
            let _store = *store;
        }
        Taken::Refused { count } => {
            let _count = *count;
        }
        Taken::Stale { asked, got, .. } => {
            let _numbers = (*asked, *got);
        }
    }
}

fn mark_value(mark: &Mark)
    ensures { IsMarkValue mark.now }
{
    match mark {
        Mark::Content(content) => {
            content_value(content);
        }
        Mark::Invalid | Mark::Erased => {}
    }
}

fn instance_value(instance: Instance)
    ensures { IsInstanceValue instance }
{
    let _block = instance.block;
    let _index = instance.index;
}

fn given_value(given: &Option<Bytes>)
    ensures { IsGivenValue given.now }
{
    match given {
        Some(content) => {
            content_value(content);
        }
        None => {}
    }
}

fn marks_value(marks: &Marks)
    ensures { AreMarkValues marks.now }
{
    for i in 0..marks.len() {
        if let Some((instance, mark)) = marks.get(i) {
            instance_value(instance);
            mark_value(mark);
        }
    }
}

fn ask_value(caller: u8, request: &Request, reply: Reply)
    ensures { IsEntryValue (Ask caller request.now reply) }
{
    request_value(request);
    reply_value(reply);
}

fn pick_value(block: u16, job: JobKind, taken: &Taken, ops: u64)
    ensures { IsEntryValue (Pick block job taken.now ops) }
{
    taken_value(taken);
}

fn wrote_value(instance: Instance, mark: &Mark, ops: u64)
    ensures { IsEntryValue (Wrote instance mark.now ops) }
{
    instance_value(instance);
    mark_value(mark);
}

fn post_value(block: u16, outcome: ReqResult, given: &Option<Bytes>, refused: u8, ops: u64)
    ensures { IsEntryValue (Post block outcome given.now refused ops) }
{
    given_value(given);
}

fn found_value(marks: &Marks, ops: u64) -> u32
    ensures { IsEntryValue (Found marks.now ops) }
{
    marks_value(marks);
    marks.len()
}

fn off_value(ops: u64)
    ensures { IsEntryValue (Off ops) }
{}

/// The numbers of an entry and the bytes of its contents are those of their types, as its text needs them.
pub fn entry_value(entry: &Entry)
    ensures { IsEntryValue entry.now }
{
    match entry {
        Entry::Ask {
            caller,
            request,
            reply,
        } => ask_value(*caller, request, *reply),
        Entry::Pick {
            block,
            job,
            taken,
            ops,
        } => pick_value(*block, *job, taken, *ops),
        Entry::Wrote {
            instance,
            mark,
            ops,
        } => wrote_value(*instance, mark, *ops),
        Entry::Post {
            block,
            result: outcome,
            given,
            refused,
            ops,
        } => post_value(*block, *outcome, given, *refused, *ops),
        Entry::Off { ops } => off_value(*ops),
        Entry::Found { marks, ops } => {
            found_value(marks, *ops);
        }
    }
}
