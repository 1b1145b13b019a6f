// A file in memory.
ghost use Rattle.std.specs.Prelude.{◌≡◌, ◌≤◌, ◌+◌, false, Some, IfOk, OnOk, OnErr, length};
ghost use Rattle.fls_model.specs.Bytes.{AreBytes, spliced};

use crate::{ByteFile, OpenFault};
use std::alloc::{AllocError, Global};
use std::io;
use std::io::ErrorKind;
use std::marker::Model;

/// A file in memory, which tells its bytes. A power cut leaves those of its last sync.
#[derive(Drop)]
pub struct MemFile {
    bytes: Vec<u8>,
    synced: Vec<u8>,
}

impl Model for MemFile {
    ghost use Rattle.std.specs.Prelude.{false};
    ghost use Rattle.fls_files.specs.ByteFile.{FileBytes};

    ghost Value = { FileBytes };

    ghost view = { λ f. record { now = f.bytes.items; disk = f.synced.items; lost = false } };
}

/// A file of these bytes, all on its disk.
pub fn mem_file(alloc: Global, bytes: &[u8]) -> Result<MemFile, AllocError>
    ensures { IfOk result (λ f. f ≡ record { now = bytes.now; disk = bytes.now; lost = false }) }
{
    Ok(MemFile {
        bytes: bytes.to_vec(alloc)?,
        synced: bytes.to_vec(alloc)?,
    })
}

// Tells proofs that bytes are below 256.
fn below_256(bytes: &Vec<u8>)
    ensures { AreBytes bytes.now.items }
{}

/// Puts bytes in place of those at an address, and behind the end.
pub(crate) fn put(bytes: &mut Vec<u8>, at: usize, new: &[u8]) -> Result<(), AllocError>
    requires { at ≤ length bytes.old.items }
    ensures done { OnOk result (bytes.new.items ≡ spliced bytes.old.items at new.now) }
    ensures err { OnErr result (bytes.new.items ≡ bytes.old.items) }
{
    let inside = new.len().min(bytes.len() - at);
    bytes.try_reserve(new.len() - inside)?;
    bytes[at..at + inside].copy_from_slice(&new[..inside]);
    bytes.extend_from_slice(&new[inside..])
}

impl MemFile {
    /// The bytes that a power cut leaves.
    pub fn on_disk(&self) -> &[u8]
        ensures { result.now ≡ self.now.disk }
    {
        &self.synced
    }
}

impl ByteFile for MemFile {
    ghost held = { λ f. Some f };

    fn open(&mut self, _most: u64) -> Result<u64, OpenFault> {
        below_256(&self.bytes);
        Ok(self.bytes.len() as u64)
    }

    fn settle(&mut self) -> io::Result<()> {
        if self.synced.len() == self.bytes.len() {
            self.synced.copy_from_slice(&self.bytes);
            return Ok(());
        }
        self.sync()
    }

    fn read_at(&mut self, address: u64, into: &mut [u8]) -> io::Result<()> {
        let at = address as usize;
        if at > self.bytes.len() || into.len() > self.bytes.len() - at {
            return Err(io::Error::from(ErrorKind::UnexpectedEof));
        }
        let end = at + into.len();
        into.copy_from_slice(&self.bytes[at..end]);
        Ok(())
    }

    fn write_at(&mut self, address: u64, bytes: &[u8]) -> io::Result<()> {
        let at = address as usize;
        if at > self.bytes.len() {
            return Err(io::Error::from(ErrorKind::InvalidInput));
        }
        match put(&mut self.bytes, at, bytes) {
            Ok(()) => Ok(()),
            Err(_) => Err(io::Error::from(ErrorKind::OutOfMemory)),
        }
    }

    fn clear(&mut self) -> io::Result<()> {
        self.bytes.clear();
        Ok(())
    }

    fn sync(&mut self) -> io::Result<()> {
        match self.bytes.clone() {
            Ok(bytes) => {
                self.synced = bytes;
                Ok(())
            }
            Err(_) => Err(io::Error::from(ErrorKind::OutOfMemory)),
        }
    }
}
