// A file of bytes.
ghost use Rattle.std.specs.Prelude.{◌≡◌, ℕ, Option, IfOk, IfSome, OnOk, is_ok, false, length};
ghost use Rattle.fls_model.specs.Bytes.{AreBytes, piece};
ghost use Rattle.fls_model.specs.Told.{IfBothTold};
ghost use Rattle.fls_files.specs.ByteFile.{FileBytes, Settles, Writes, Syncs, Clears};

use std::io;

/// Why a file isn't opened: another call has it, or a call of the system failed.
#[derive(Clone, Copy)]
pub enum OpenFault {
    InUse,
    Failed,
}

/// A file of bytes by six calls, each of which may fail. Addresses and lengths are in bytes. Contracts see the bytes that reads
/// give and those that a power cut leaves, where it tells them: a file of the system tells none.
pub trait ByteFile {
    /// Its bytes, where it tells them.
    ghost held: { Self → Option FileBytes };

    /// Opens it, where it isn't open yet, and gives how many bytes it has. Of one that is to be made, of which a call that was
    /// killed left a part, that part has no more than `most`.
    fn open(&mut self, most: u64) -> Result<u64, OpenFault>
        ensures same { held self.new ≡ held self.old }
        ensures size { IfOk result (λ n. IfSome (held self.new) (λ f. n ≡ length f.now)) }
        ensures bytes { IfOk result (λ _. IfSome (held self.new) (λ f. AreBytes f.now)) };

    /// Brings all that reads give to the disk, also where a sync failed before. From here on reads give what the disk has.
    fn settle(&mut self) -> io::Result<()>
        ensures { IfBothTold (held self.old) (held self.new) (Settles (is_ok result)) };

    /// Reads bytes from an address on.
    fn read_at(&mut self, address: u64, into: &mut [u8]) -> io::Result<()>
        ensures same { held self.new ≡ held self.old }
        ensures bytes { OnOk result (IfSome (held self.new) (λ f. f.lost ≡ false → into.new ≡ piece address (length into.old) f.now)) };

    /// Writes bytes from an address on. Behind the end they make the file longer.
    fn write_at(&mut self, address: u64, bytes: &[u8]) -> io::Result<()>
        ensures { IfBothTold (held self.old) (held self.new) (Writes address bytes.now (is_ok result)) };

    /// Cuts it back to no bytes.
    fn clear(&mut self) -> io::Result<()>
        ensures { IfBothTold (held self.old) (held self.new) (Clears (is_ok result)) };

    /// Brings all that was written to the disk. Where that failed, what reads give says nothing of the disk until it is settled.
    fn sync(&mut self) -> io::Result<()>
        ensures { IfBothTold (held self.old) (held self.new) (Syncs (is_ok result)) };
}
