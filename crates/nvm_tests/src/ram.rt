// RAM blocks and copies: each call once.
use nvm_laws::{Config, Copied, PlainSync, RamBlocks, RamFlags, SyncCalls, read};
use std::alloc::Global;

const BLOCKS: &str =
    "{\"id\":1,\"page\":16,\"sector\":256,\"sectors\":8,\"standard\":8,\"immediate\":4,\"blocks\":[{\"length\":2,\"ram\":\"sync\",\"defaults\":\"0a0b\"},{\"length\":3,\"ram\":\"permanent\"}]}";

fn put(ram: &mut RamBlocks, block: u16, content: &[u8]) {
    if ram.get(block).len() == content.len() {
        ram.put(block, content);
    }
}

const VALID: RamFlags = RamFlags {
    valid: true,
    changed: false,
};

// Whether a block has the content and the flags that were put there.
fn has_what_was_put(ram: &mut RamBlocks) -> bool {
    put(ram, 3, b"abc");
    ram.set_flags(3, VALID);
    let flags = ram.flags(3);
    flags.valid && !flags.changed && ram.get(3) == b"abc".as_slice()
}

fn is_held(alloc: Global, config: &Config) -> bool {
    match RamBlocks::make(alloc, config) {
        Ok(mut ram) => has_what_was_put(&mut ram),
        Err(_) => false,
    }
}

fn store(sync: &mut PlainSync, block: u16, content: &[u8]) -> u64 {
    if sync.bytes(block) == Some(content.len()) {
        sync.store(block, content)
    } else {
        0
    }
}

fn copy_out(sync: &mut PlainSync, block: u16, into: &mut [u8]) -> Copied {
    if sync.bytes(block) == Some(into.len()) {
        sync.copy_out(block, into)
    } else {
        Copied::Refused
    }
}

fn copy_in(sync: &mut PlainSync, block: u16, from: &[u8]) -> Copied {
    if sync.bytes(block) == Some(from.len()) {
        sync.copy_in(block, from)
    } else {
        Copied::Refused
    }
}

// Whether a store is numbered and copied out.
fn is_copied_out(sync: &mut PlainSync) -> bool {
    let mut into = [0; 2];
    store(sync, 2, b"xy") == 1
        && matches!(copy_out(sync, 2, &mut into), Copied::Got { number: 1 })
        && matches!(into, [b'x', b'y'])
}

// Whether a copy is refused once, which is counted, and then made.
fn is_refused_once(sync: &mut PlainSync) -> bool {
    sync.refuse(2, 1);
    matches!(copy_in(sync, 2, b"no"), Copied::Refused)
        && matches!(copy_in(sync, 2, b"ok"), Copied::Got { number: 1 })
        && sync.refusals(2) == 1
}

fn are_copied(alloc: Global, config: &Config) -> bool {
    match PlainSync::make(alloc, config) {
        Ok(mut sync) => is_copied_out(&mut sync) && is_refused_once(&mut sync),
        Err(_) => false,
    }
}

// Whether RAM holds what was put, and copies are whole or refused.
fn are_right(alloc: Global) -> bool {
    match read(alloc, BLOCKS.as_bytes()) {
        Ok(config) => is_held(alloc, &config) && are_copied(alloc, &config),
        Err(_) => false,
    }
}

#[test]
fn ram_holds_what_was_put_and_copies_are_whole_or_refused(rt: HostRuntime) {
    assert!(rt; are_right(rt.alloc()));
}
