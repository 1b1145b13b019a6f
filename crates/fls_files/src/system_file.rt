// Files of the system. What they give and take is trusted.
ghost use Rattle.std.specs.Prelude.{None};

use crate::{ByteFile, OpenFault};
use std::fs::{File, OpenFile, OpenOptions, TryLockError};
use std::io;
use std::os::unix::fs::{FileExt, MetadataExt};
use std::rt::Files;

/// One that a call may have for itself, or share with others that read it alone, until it is closed.
pub trait SystemFile: ByteFile {
    /// Locks it, unless another open of it has it.
    fn hold(&mut self, shared: bool) -> Result<(), OpenFault>;
}

impl SystemFile for File {
    fn hold(&mut self, shared: bool) -> Result<(), OpenFault> {
        let held = if shared {
            self.try_lock_shared()
        } else {
            self.try_lock()
        };
        match held {
            Ok(()) => Ok(()),
            Err(TryLockError::WouldBlock) => Err(OpenFault::InUse),
            Err(_) => Err(OpenFault::Failed),
        }
    }
}

// Writes so many bytes again, as reads give them.
fn write_again(file: &mut File, size: u64) -> io::Result<()> {
    let mut piece = [0; 4096];
    for k in 0..size / 4096 {
        file.read_exact_at(&mut piece, k * 4096)?;
        file.write_all_at(&piece, k * 4096)?;
    }
    let rest = &mut piece[..(size % 4096) as usize];
    file.read_exact_at(rest, size - size % 4096)?;
    file.write_all_at(rest, size - size % 4096)
}

impl ByteFile for File {
    ghost held = { λ _. None };

    fn open(&mut self, _most: u64) -> Result<u64, OpenFault> {
        match self.metadata() {
            Ok(found) => Ok(found.len()),
            Err(_) => Err(OpenFault::Failed),
        }
    }

    // Behind a sync that failed, maybe of an earlier program, the system holds for written what the disk hasn't, and the next sync
    // is done: so each byte is written again.
    fn settle(&mut self) -> io::Result<()> {
        let size = self.metadata()?.len();
        write_again(self, size)?;
        self.sync_data()
    }

    fn read_at(&mut self, address: u64, into: &mut [u8]) -> io::Result<()> {
        self.read_exact_at(into, address)
    }

    fn write_at(&mut self, address: u64, bytes: &[u8]) -> io::Result<()> {
        self.write_all_at(bytes, address)
    }

    fn clear(&mut self) -> io::Result<()> {
        self.set_len(0)
    }

    fn sync(&mut self) -> io::Result<()> {
        self.sync_data()
    }
}

/// Opens an image file for reading and, where asked, for writing, and makes it where it is absent and this is asked too. Its
/// descriptor is never that of standard input, output or error, as a clone's never is, whichever of them are closed.
pub(crate) fn open_apart<R: Files>(
    rt: &R,
    path: &str,
    write: bool,
    make: bool,
) -> io::Result<R::File> {
    OpenOptions::new()
        .read(true)
        .write(write)
        .create(make)
        .open(rt, path)?
        .try_clone()
}

// Makes a file of no bytes likewise, where nothing has its name.
pub(crate) fn make_apart<R: Files>(rt: &R, path: &str) -> io::Result<R::File> {
    OpenOptions::new()
        .read(true)
        .write(true)
        .create_new(true)
        .open(rt, path)?
        .try_clone()
}

// Whether this name is the file's own, or leads to it.
pub(crate) fn is_at<R: Files>(rt: &R, path: &str, file: &R::File) -> bool {
    match (rt.metadata(path), OpenFile::metadata(file)) {
        (Ok(named), Ok(found)) => named.dev() == found.dev() && named.ino() == found.ino(),
        _ => false,
    }
}
