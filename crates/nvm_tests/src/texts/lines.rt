// The line of an entry that no case of the commands shows.
use nvm_laws::{Bytes, Entry, JobKind, Taken};
use nvm_script::entry_text;
use std::alloc::{AllocError, Global};

fn stale_pick(alloc: Global) -> Result<Bytes, AllocError> {
    let stale = Entry::Pick {
        block: 2,
        job: JobKind::Write,
        taken: Taken::Stale {
            asked: 3,
            got: 2,
            count: 1,
        },
        ops: 7,
    };
    entry_text(alloc, &stale)
}

fn is_spelt(alloc: Global) -> bool {
    match stale_pick(alloc) {
        Ok(line) => line.as_slice() == b"pick 2 write stale 3 2 ops 7\n".as_slice(),
        Err(_) => false,
    }
}

#[test]
fn line_of_a_stale_pick(rt: HostRuntime) {
    assert!(rt; is_spelt(rt.alloc()));
}
