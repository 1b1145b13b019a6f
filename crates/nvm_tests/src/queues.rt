// The queues of waiting jobs: each call once.
use job_queues::{Queues, Waiting};
use std::alloc::Global;

fn waiting(block: u16, priority: u8, number: u64) -> Waiting {
    Waiting {
        block,
        priority,
        immediate: priority == 0,
        number,
    }
}

fn is_this(job: Option<Waiting>, expected: Waiting) -> bool {
    match job {
        Some(job) => job == expected,
        None => false,
    }
}

// Whether of two jobs the one with the higher priority comes first, also behind its return, and the other one is left.
fn keep_order(queues: &mut Queues) -> bool {
    let second = waiting(3, 20, 2);
    queues.add(waiting(2, 100, 1))
        && queues.add(second)
        && is_this(queues.next(), second)
        && queues.put_back(second)
        && queues.room(false) == 1
        && !queues.has_immediate()
        && is_this(queues.remove(2), waiting(2, 100, 1))
}

fn is_kept(alloc: Global) -> bool {
    match Queues::make(alloc, 3, 1) {
        Ok(mut queues) => keep_order(&mut queues),
        Err(_) => false,
    }
}

#[test]
fn jobs_leave_in_their_order(rt: HostRuntime) {
    assert!(rt; is_kept(rt.alloc()));
}
