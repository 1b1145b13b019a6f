// What a caller does.
use nv_base::{Bytes, Request};

/// What a caller does, with its line of the input: it asks for a request, in which a RAM write of a synchronized block
/// has the number of the caller's last store; it stores a content into synchronized RAM, as the store of the block with
/// this number; or it waits until the block's status isn't pending.
#[derive(Drop)]
pub enum Deed {
    Ask {
        line: u32,
        request: Request,
    },
    Store {
        line: u32,
        block: u16,
        number: u64,
        content: Bytes,
    },
    Await {
        line: u32,
        block: u16,
    },
}
