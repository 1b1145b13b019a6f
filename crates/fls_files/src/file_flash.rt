// A flash in an image file.
ghost use Rattle.std.specs.Prelude.{◌≡◌, ◌≢◌, ◌⊎◌, ◌≤◌, ◌+◌, ◌*◌, Err, IfOk, IfSome, OnOk, is_some, not, true, false, length, replicate};
ghost use Rattle.nv_base.specs.Count.{next_count};
ghost use Rattle.nv_base.specs.Geometry.{IsLegal, size_of};
ghost use Rattle.fls_model.specs.Bytes.{AreBytes, and_bytes, piece};
ghost use Rattle.fls_model.specs.Told.{IfBothTold};
ghost use Rattle.fls_model.specs.Op.{Program, Erase};
ghost use Rattle.fls_files.specs.ByteFile.{Settles, held_by};
ghost use Rattle.fls_files.specs.FileFlash.{bytes_of};
ghost use Rattle.fls_files.specs.FileFlashInside.{Finds, IsReady, IsWritten, Stores, Operates, Answers, Fills, fault_of};

use crate::asked::Asked;
use crate::system_file::open_apart;
use crate::{ByteFile, OpenFault};
use fls_model::{AttachFault, Call, Flash, FlashAnswer, SizedFlash, program_call};
use nv_base::{Geometry, Trace};
use std::alloc::Global;
use std::marker::Model;
use std::rt::Files;

/// A flash in an image file, whose bytes are those of the file. Every changing operation is written and synced before
/// its answer Done: a program is one read, one write and one sync of the file, an erase one write and one sync. It tells its bytes and
/// changes where the file tells its own, takes no plans, is never off, and counts as a fault each call of the file that failed.
#[derive(Drop)]
pub struct FileFlash<T: ByteFile + Drop> {
    file: Option<T>,
    // it has to be settled before anything else is asked of it
    lost: bool,
    // an enlargement was broken off
    torn: bool,
    geometry: Geometry,
    // the bytes of an erased sector, from the attach on
    blank: Option<Vec<u8>>,
    // the changing operations since the attach
    asked: Trace<Asked<T>>,
    ops: u64,
    faults: u64,
}

impl<T: ByteFile + Drop> Model for FileFlash<T> {
    ghost use Rattle.std.specs.Prelude.{◌≡◌, is_some, IfSome, replicate};
    ghost use Rattle.fls_files.specs.ByteFile.{held_by};
    ghost use Rattle.fls_files.specs.FileFlash.{InFile, in_file_of};
    ghost use Rattle.fls_files.specs.FileFlashInside.{IsHeld, changes_of};

    ghost Value = { InFile };

    ghost view = { λ f. in_file_of f.geometry f.ops f.faults f.torn (changes_of f.geometry f.asked.items) (is_some f.file) (held_by T.held f.file) };

    ghost invariant = { λ f. IfSome (held_by T.held f.file) (IsHeld f.geometry f.torn f.lost) × IfSome f.blank (λ b. b.items ≡ replicate f.geometry.sector 255) };
}

// Tells proofs that bytes are below 256.
fn below_256(bytes: &[u8])
    ensures { AreBytes bytes.now }
{}

// Clears the bits that are zero in `page`.
fn clear_bits(bytes: &mut [u8], page: &[u8])
    requires { length bytes.old ≡ length page.now }
    ensures { bytes.new ≡ and_bytes bytes.old page.now }
{
    for i in 0..page.len() {
        bytes[i] = bytes[i] & page[i];
    }
}

// Settles a file.
fn settle<T: ByteFile>(file: &mut T, lost: &mut bool)
    ensures { IfBothTold (T.held file.old) (T.held file.new) (Settles (not lost.new)) }
{
    *lost = file.settle().is_err();
}

// Whether a file isn't lost. One that may be is settled.
fn is_known<T: ByteFile>(file: &mut T, lost: &mut bool) -> bool
    ensures found { IfBothTold (T.held file.old) (T.held file.new) (Finds lost.old lost.new) }
    ensures known { result ≡ true → lost.new ≡ false }
{
    if !*lost {
        return true;
    }
    settle(file, lost);
    !*lost
}

// Writes and syncs bytes. Where that failed, the file is settled, or is lost.
fn is_stored<T: ByteFile>(file: &mut T, lost: &mut bool, address: u64, bytes: &[u8]) -> bool
    ensures { IfBothTold (T.held file.old) (T.held file.new) (Stores address bytes.now result lost.old lost.new) }
{
    if !is_known(file, lost) {
        return false;
    }
    if is_written(file, address, bytes) {
        return true;
    }
    settle(file, lost);
    false
}

fn is_written<T: ByteFile>(file: &mut T, address: u64, bytes: &[u8]) -> bool
    ensures { IfBothTold (T.held file.old) (T.held file.new) (IsWritten address bytes.now result) }
{
    file.write_at(address, bytes).is_ok() && file.sync().is_ok()
}

// Reads bytes of a file that isn't lost.
fn reads<T: ByteFile>(file: &mut T, lost: &mut bool, address: u64, into: &mut [u8]) -> bool
    ensures found { IfBothTold (T.held file.old) (T.held file.new) (Finds lost.old lost.new) }
    ensures done { result ≡ true → IfBothTold (T.held file.old) (T.held file.new) (λ f g. IsReady lost.old f → into.new ≡ piece address (length into.old) g.now) }
{
    is_known(file, lost) && file.read_at(address, into).is_ok()
}

// Clears bits of a page.
fn program_page<T: ByteFile>(file: &mut T, lost: &mut bool, address: u64, page: &[u8]) -> bool
    requires { length page.now ≤ 256 }
    ensures { IfBothTold (T.held file.old) (T.held file.new) (λ f g. AreBytes f.now → address + length page.now ≤ length f.now → Operates (Program address page.now) result lost.old lost.new f g) }
{
    let mut buffer = [0; 256];
    let bytes = &mut buffer[..page.len()];
    if !reads(file, lost, address, bytes) {
        return false;
    }
    clear_bits(bytes, page);
    below_256(bytes);
    is_stored(file, lost, address, bytes)
}

fn is_programmed<T: ByteFile>(
    file: &mut Option<T>,
    lost: &mut bool,
    address: u64,
    page: &[u8],
) -> bool
    requires { length page.now ≤ 256 }
    ensures done { IfBothTold (held_by T.held file.old) (held_by T.held file.new) (λ f g. AreBytes f.now → address + length page.now ≤ length f.now → Operates (Program address page.now) result lost.old lost.new f g) }
    ensures opened { is_some file.new ≡ is_some file.old }
{
    match file {
        Some(file) => program_page(file, lost, address, page),
        None => false,
    }
}

fn is_blanked<T: ByteFile>(
    file: &mut Option<T>,
    lost: &mut bool,
    address: u64,
    blank: &Option<Vec<u8>>,
    count: u32,
) -> bool
    requires { IfSome blank.now (λ b. b.items ≡ replicate count 255) }
    ensures done { IfBothTold (held_by T.held file.old) (held_by T.held file.new) (λ f g. AreBytes f.now → address + count ≤ length f.now → Operates (Erase address count) result lost.old lost.new f g) }
    ensures opened { is_some file.new ≡ is_some file.old }
{
    let Some(file) = file else {
        return false;
    };
    let Some(blank) = blank else {
        return false;
    };
    is_stored(file, lost, address, blank)
}

fn is_read<T: ByteFile>(
    file: &mut Option<T>,
    lost: &mut bool,
    address: u64,
    into: &mut [u8],
) -> bool
    ensures found { IfBothTold (held_by T.held file.old) (held_by T.held file.new) (Finds lost.old lost.new) }
    ensures done { result ≡ true → IfBothTold (held_by T.held file.old) (held_by T.held file.new) (λ f g. IsReady lost.old f → into.new ≡ piece address (length into.old) g.now) }
    ensures opened { is_some file.new ≡ is_some file.old }
{
    match file {
        Some(file) => reads(file, lost, address, into),
        None => false,
    }
}

// Opens the file, and gives the size of the flash in bytes.
fn found_size<T: ByteFile>(file: &mut Option<T>, torn: bool, most: u64) -> Result<u64, OpenFault>
    ensures same { held_by T.held file.new ≡ held_by T.held file.old }
    ensures size { IfOk result (λ n. IfSome (held_by T.held file.new) (λ f. n ≡ length (bytes_of torn f))) }
    ensures bytes { IfOk result (λ n. IfSome (held_by T.held file.new) (λ f. AreBytes f.now)) }
    ensures opened { is_some file.new ≡ is_some file.old }
    ensures closed { is_some file.old ≡ false → result ≡ Err OpenFault.Failed }
{
    let Some(file) = file else {
        return Err(OpenFault::Failed);
    };
    match file.open(most) {
        Ok(_) if torn => Ok(0),
        found => found,
    }
}

// Settles the file.
fn is_settled<T: ByteFile>(file: &mut Option<T>, lost: &mut bool) -> bool
    ensures found { IfBothTold (held_by T.held file.old) (held_by T.held file.new) (Finds lost.old lost.new) }
    ensures known { result ≡ true → lost.new ≡ false }
    ensures still { result ≡ true → IfSome (held_by T.held file.new) (λ f. f.disk ≡ f.now) }
    ensures opened { is_some file.new ≡ is_some file.old }
{
    let Some(file) = file else {
        return false;
    };
    settle(file, lost);
    !*lost
}

// Why a flash isn't attached whose file isn't opened.
fn fault_of(fault: OpenFault) -> AttachFault
    ensures { result ≡ fault_of fault }
{
    match fault {
        OpenFault::InUse => AttachFault::InUse,
        OpenFault::Failed => AttachFault::Failed,
    }
}

// Whether it is neither that of a flash of no bytes nor the geometry's.
fn is_wrong(found: u64, geometry: Geometry) -> bool
    requires { IsLegal geometry }
    ensures wrong { result ≡ true → (found ≢ 0) × (found ≢ size_of geometry) }
    ensures right { result ≡ false → (found ≡ 0) ⊎ (found ≡ size_of geometry) }
{
    found != 0 && found != u64::from(geometry.size())
}

// Fills a file that isn't lost with so many erased sectors, each of which it writes at once, and syncs it.
fn is_enlarged<T: ByteFile>(file: &mut T, blank: &[u8], sector: u32, sectors: u32) -> bool
    requires { blank.now ≡ replicate sector 255 }
    ensures { IfBothTold (T.held file.old) (T.held file.new) (λ f g. f.lost ≡ false → result ≡ true → (g.now ≡ replicate (sectors * sector) 255) × (g.disk ≡ g.now) × (g.lost ≡ false)) }
{
    if file.clear().is_err() {
        return false;
    }
    for i in 0..sectors {
        if file.write_at(i as u64 * sector as u64, blank).is_err() {
            return false;
        }
    }
    file.sync().is_ok()
}

// Takes away what was begun.
fn cut_back<T: ByteFile>(file: &mut T, lost: &mut bool)
    ensures { IfBothTold (T.held file.old) (T.held file.new) (λ f g. lost.new ≡ false → g.lost ≡ false) }
{
    settle(file, lost);
    if *lost {
        return;
    }
    let _cleared = file.clear();
}

// Brings a flash of no bytes to the disk as a blank one.
fn is_filled<T: ByteFile>(
    file: &mut Option<T>,
    lost: &mut bool,
    torn: &mut bool,
    found: u64,
    blank: &[u8],
    geometry: Geometry,
) -> bool
    requires blank { blank.now ≡ replicate geometry.sector 255 }
    requires found { IfSome (held_by T.held file.old) (λ f. found ≡ length (bytes_of torn.old f)) }
    requires known { lost.old ≡ false }
    ensures filled { IfBothTold (held_by T.held file.old) (held_by T.held file.new) (Fills (size_of geometry) torn.old torn.new result lost.old lost.new) }
    ensures opened { is_some file.new ≡ is_some file.old }
{
    let Some(file) = file else {
        return false;
    };
    if found != 0 {
        return true;
    }
    if is_enlarged(file, blank, geometry.sector, geometry.sectors) {
        *torn = false;
        return true;
    }
    *torn = true;
    cut_back(file, lost);
    false
}

// A changing operation was asked for. Counts a fault where it wasn't done.
fn count(done: bool, ops: &mut u64, faults: &mut u64) -> FlashAnswer
    ensures ops { ops.new ≡ next_count ops.old }
    ensures answers { Answers done faults.old faults.new result }
{
    *ops = ops.saturating_add(1);
    if done {
        return FlashAnswer::Done;
    }
    *faults = faults.saturating_add(1);
    FlashAnswer::Failed
}

impl<T: ByteFile + Drop> FileFlash<T> {
    ghost use Rattle.std.specs.Prelude.{◌≡◌, ◌⊎◌, IfSome, None, Option, is_some};
    ghost use Rattle.fls_files.specs.ByteFile.{FileBytes};
    ghost use Rattle.fls_files.specs.FileFlash.{in_file};

    fn with(file: Option<T>) -> FileFlash<T>
        requires { IfSome (held_by T.held file) (λ f. f.disk ≡ f.now) }
        ensures { result ≡ in_file (is_some file) (held_by T.held file) }
    {
        FileFlash {
            file,
            lost: true,
            torn: false,
            geometry: Geometry {
                page: 0,
                sector: 0,
                sectors: 0,
            },
            blank: None,
            asked: Trace::new(),
            ops: 0,
            faults: 0,
        }
    }

    /// Over a file, of which all that was written is on the disk, where it tells its bytes.
    pub fn over(file: T) -> FileFlash<T>
        requires { IfSome (T.held file) (λ f. f.disk ≡ f.now) }
        ensures { result ≡ in_file true (T.held file) }
    {
        FileFlash::with(Some(file))
    }

    /// Opens an image file for reading and writing, and makes it where it is absent. Where that fails, each `attach`
    /// does. Files of its runtime tell no bytes, as those of the system don't.
    pub fn make<R: Files<File = T>>(rt: &R, path: &str) -> FileFlash<T>
        requires { (file : T) → T.held file ≡ None }
        ensures { (result ≡ in_file true None) ⊎ (result ≡ in_file false None) }
    {
        match open_apart(rt, path, true, true) {
            Ok(file) => FileFlash::with(Some(file)),
            Err(_) => FileFlash::with(None),
        }
    }

    /// Its file.
    pub fn file(&self) -> Option<&T>
        ensures { self.now.opened ≡ is_some result }
    {
        self.file.as_ref()
    }
}

impl<T: ByteFile + Drop> Flash for FileFlash<T> {
    ghost use Rattle.std.specs.Prelude.{◌≡◌, ◌≢◌, ◌<◌, length, false, Err, OnOk};
    ghost use Rattle.nv_base.specs.Geometry.{IsLegal};
    ghost use Rattle.fls_model.specs.Told.{armed, powered, HasRange, HasPage, HasSector};
    ghost use Rattle.fls_model.specs.Step.{IsStep, programs, erases};
    ghost use Rattle.fls_model.specs.Read.{IsRead};
    ghost use Rattle.fls_model.specs.Attach.{IsAttach};
    ghost use Rattle.fls_files.specs.FileFlash.{IsSynced, LeavesOnDisk};

    ghost told = { λ f. f.told };

    /// Attaches it at this geometry. A file of no bytes is filled with 0xFF, a sector a write; one of the geometry's size stays as
    /// it is. Behind Ok all of it is on the disk. An enlargement that fails cuts the file back to no bytes.
    fn attach(&mut self, alloc: Global, geometry: Geometry) -> Result<(), AttachFault>
        requires { IsLegal geometry }
        ensures attach { IsAttach geometry self.old.told result self.new.told }
        ensures synced { OnOk result (IsSynced self.new) }
        ensures closed { self.old.opened ≡ false → result ≡ Err AttachFault.Failed }
        ensures opened { self.new.opened ≡ self.old.opened }
    {
        let most = u64::from(geometry.size());
        let found = match found_size(&mut self.file, self.torn, most) {
            Ok(found) => found,
            Err(fault) => {
                self.faults = self.faults.saturating_add(1);
                return Err(fault_of(fault));
            }
        };
        if is_wrong(found, geometry) {
            return Err(AttachFault::WrongSize { found });
        }
        let Ok(blank) = vec![in alloc; 255u8; geometry.sector as usize] else {
            return Err(AttachFault::Memory);
        };
        if !is_settled(&mut self.file, &mut self.lost) {
            self.faults = self.faults.saturating_add(1);
            return Err(AttachFault::Failed);
        }
        if !is_filled(
            &mut self.file,
            &mut self.lost,
            &mut self.torn,
            found,
            &blank,
            geometry,
        ) {
            self.faults = self.faults.saturating_add(1);
            return Err(AttachFault::Failed);
        }
        self.geometry = geometry;
        self.blank = Some(blank);
        self.asked = Trace::new();
        Ok(())
    }

    fn power_on(&mut self)
        ensures power { self.new.told ≡ powered self.old.told }
        ensures same { self.new ≡ self.old }
    {
        let _ops = self.ops;
    }

    fn arm(&mut self, nth: u32, keep: u32)
        ensures arm { self.new.told ≡ armed nth keep self.old.told }
        ensures same { self.new ≡ self.old }
    {
        let _ops = self.ops;
    }

    fn read(&mut self, address: u32, into: &mut [u8]) -> FlashAnswer
        requires { HasRange self.old.told address (length into.old) }
        ensures read { IsRead address self.old.told into.old result into.new self.new.told }
        ensures on_disk { 0 < length into.old → IsSynced self.new }
        ensures never_off { result ≢ FlashAnswer.Off }
    {
        if is_read(&mut self.file, &mut self.lost, address as u64, into) {
            return FlashAnswer::Done;
        }
        self.faults = self.faults.saturating_add(1);
        FlashAnswer::Failed
    }

    fn program(&mut self, address: u32, page: &[u8]) -> FlashAnswer
        requires { HasPage self.old.told address (length page.now) }
        ensures step { IsStep (programs address page.now) self.old.told result self.new.told }
        ensures on_disk { LeavesOnDisk (programs address page.now) self.old self.new }
        ensures never_off { result ≢ FlashAnswer.Off }
    {
        let before = Trace::new().with(&self.file);
        let done = is_programmed(&mut self.file, &mut self.lost, address as u64, page);
        let answer = count(done, &mut self.ops, &mut self.faults);
        let call = program_call(address, page);
        self.asked = self.asked.with(&Asked {
            call,
            before,
            answer,
        });
        answer
    }

    fn erase(&mut self, sector: u32) -> FlashAnswer
        requires { HasSector self.old.told sector }
        ensures step { IsStep (erases self.old.told.geometry sector) self.old.told result self.new.told }
        ensures on_disk { LeavesOnDisk (erases self.old.told.geometry sector) self.old self.new }
        ensures never_off { result ≢ FlashAnswer.Off }
    {
        let before = Trace::new().with(&self.file);
        let length = self.geometry.sector;
        let address = sector as u64 * length as u64;
        let done = is_blanked(&mut self.file, &mut self.lost, address, &self.blank, length);
        let answer = count(done, &mut self.ops, &mut self.faults);
        let call = Call::Sector { sector };
        self.asked = self.asked.with(&Asked {
            call,
            before,
            answer,
        });
        answer
    }
}

impl<T: ByteFile + Drop> SizedFlash for FileFlash<T> {
    fn size(&mut self, geometry: Geometry) -> Result<u64, AttachFault> {
        match found_size(&mut self.file, self.torn, u64::from(geometry.size())) {
            Ok(found) => Ok(found),
            Err(fault) => {
                self.faults = self.faults.saturating_add(1);
                Err(fault_of(fault))
            }
        }
    }
}
