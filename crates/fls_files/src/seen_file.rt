// A file of which is kept in memory what was read and written.
ghost use Rattle.std.specs.Prelude.{◌≡◌, ◌≤◌, ◌+◌, ◌⊎◌, [], true, false, length};
ghost use Rattle.fls_model.specs.Bytes.{piece, spliced};
ghost use Rattle.fls_files.specs.SeenFile.{HasSeen};

use crate::memory_file::put;
use crate::{ByteFile, OpenFault};
use std::alloc::Global;
use std::io;
use std::marker::Model;

// The longest read that is answered from memory, in bytes: that of a page. Longer ones ask the file.
const LONGEST: usize = 256;

/// A file of bytes of which is kept what was read from its front on, and what was written there, since it was settled. So a page that
/// was read with its sector isn't read again before it is changed. Contracts see the bytes of the file.
#[derive(Drop)]
pub struct SeenFile<T: ByteFile + Drop> {
    file: T,
    // it was settled, and no sync has failed since
    settled: bool,
    // its first bytes, as far as they were seen since then
    seen: Vec<u8>,
}

impl<T: ByteFile + Drop> Model for SeenFile<T> {
    ghost use Rattle.std.specs.Prelude.{Option, IfSome};
    ghost use Rattle.fls_files.specs.ByteFile.{FileBytes};
    ghost use Rattle.fls_files.specs.SeenFile.{HasSeen};

    ghost Value = { Option FileBytes };

    ghost view = { λ f. T.held f.file };

    ghost invariant = { λ f. IfSome (T.held f.file) (HasSeen f.settled f.seen.items) };
}

impl<T: ByteFile + Drop> SeenFile<T> {
    /// Over a file of which nothing was seen yet.
    pub fn over(alloc: Global, file: T) -> SeenFile<T>
        ensures { result ≡ T.held file }
    {
        SeenFile {
            file,
            settled: false,
            seen: Vec::new(alloc),
        }
    }

    /// The file.
    pub fn file(&self) -> &T
        ensures { T.held result.now ≡ self.now }
    {
        &self.file
    }
}

// Gives bytes from an address on where all of them were seen, and they are no more than those of a page.
fn gives(seen: &[u8], address: u64, into: &mut [u8]) -> bool
    ensures size { length into.new ≡ length into.old }
    ensures inside { result ≡ true → address + length into.old ≤ length seen.now }
    ensures given { result ≡ true → into.new ≡ piece address (length into.old) seen.now }
{
    if into.len() > LONGEST || address > seen.len() as u64 {
        return false;
    }
    let at = address as usize;
    if into.len() > seen.len() - at {
        return false;
    }
    let end = at + into.len();
    into.copy_from_slice(&seen[at..end]);
    true
}

// Puts bytes that stand in the file from an address on beside those that were seen, or in their place.
fn joins(seen: &mut Vec<u8>, address: u64, bytes: &[u8]) -> bool
    ensures inside { result ≡ true → address ≤ length seen.old.items }
    ensures joined { result ≡ true → seen.new.items ≡ spliced seen.old.items address bytes.now }
    ensures not { result ≡ false → seen.new.items ≡ seen.old.items }
{
    if address > seen.len() as u64 {
        return false;
    }
    put(seen, address as usize, bytes).is_ok()
}

// What was seen, behind a write from an address on that was done or failed: with its bytes, or nothing any more.
fn follow(seen: &mut Vec<u8>, done: bool, address: u64, bytes: &[u8])
    ensures { (seen.new.items ≡ []) ⊎ ((done ≡ true) × (address ≤ length seen.old.items) × (seen.new.items ≡ spliced seen.old.items address bytes.now)) }
{
    if !done || !joins(seen, address, bytes) {
        seen.clear();
    }
}

impl<T: ByteFile + Drop> ByteFile for SeenFile<T> {
    ghost held = { λ f. f };

    fn open(&mut self, most: u64) -> Result<u64, OpenFault> {
        self.file.open(most)
    }

    fn settle(&mut self) -> io::Result<()> {
        let done = self.file.settle();
        self.settled = done.is_ok();
        self.seen.clear();
        done
    }

    fn read_at(&mut self, address: u64, into: &mut [u8]) -> io::Result<()> {
        if self.settled && gives(&self.seen, address, into) {
            return Ok(());
        }
        let done = self.file.read_at(address, into);
        if done.is_ok() && self.settled && address == self.seen.len() as u64 {
            let _joined = joins(&mut self.seen, address, into);
        }
        done
    }

    fn write_at(&mut self, address: u64, bytes: &[u8]) -> io::Result<()> {
        let done = self.file.write_at(address, bytes);
        follow(&mut self.seen, done.is_ok(), address, bytes);
        done
    }

    fn clear(&mut self) -> io::Result<()> {
        self.seen.clear();
        self.file.clear()
    }

    fn sync(&mut self) -> io::Result<()> {
        let done = self.file.sync();
        if done.is_err() {
            self.settled = false;
        }
        done
    }
}
