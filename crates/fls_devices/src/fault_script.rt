// A flash whose listed calls fail.
ghost use Rattle.std.specs.Prelude.{◌≡◌, ◌+◌, length, IfOk, IfNone, OnSome, vec_len};
ghost use Rattle.fls_devices.specs.Journal.{empty_journal};
ghost use Rattle.fls_devices.specs.FaultScript.{kept_of, without};

use crate::journal::Journal;
use crate::overlay::Overlay;
use crate::part::Harm;
use fls_model::{AttachFault, Flash, FlashAnswer, SizedFlash};
use nv_base::Geometry;
use std::alloc::{AllocError, AllocFailed, Global};
use std::marker::Model;

/// A flash over another one whose calls with the listed numbers, from 1, answer `Failed`. A changing operation has
/// the effect of a cut with its number of bytes, and answers `Off` where the inner flash is cut in it. A read gives
/// nothing. A call while a cut stands has no number. Contracts see the inner flash, the lists, of which an operation
/// that failed is out, and the calls so far. It tells the list of all changes where the inner flash tells its
/// own.
#[derive(Drop)]
pub struct FaultScript<F: Flash> {
    flash: Overlay<F>,
    changing: Vec<(u64, u32)>,
    reads: Vec<u64>,
    asked: u64,
    read_calls: u64,
}

impl<F: Flash> Model for FaultScript<F> {
    ghost use Rattle.fls_devices.specs.FaultScript.{Scripted};
    ghost use Rattle.fls_devices.specs.FaultScriptInside.{IsScripted};

    ghost Value = { Scripted };

    ghost view = { λ s. record { flash = s.flash; changing = s.changing.items; reads = s.reads.items; asked = s.asked; read_calls = s.read_calls } };

    ghost invariant = { λ s. IsScripted (record { flash = s.flash; changing = s.changing.items; reads = s.reads.items; asked = s.asked; read_calls = s.read_calls }) };
}

// Takes the first item of a number out of the list, and gives its bytes.
fn take_listed(list: &mut Vec<(u64, u32)>, number: u64) -> Option<u32>
    ensures kept { result ≡ kept_of list.old.items number }
    ensures without { list.new.items ≡ without list.old.items number }
    ensures shorter { OnSome result (vec_len list.new + 1 ≡ vec_len list.old) }
    ensures same { IfNone result (list.new.items ≡ list.old.items) }
{
    for i in 0..list.len() {
        let (at, keep) = list[i];
        if at == number {
            list.remove(i);
            return Some(keep);
        }
    }
    None
}

impl<F: Flash> FaultScript<F> {
    ghost use Rattle.std.specs.Prelude.{◌≡◌, IfOk, IfErr};
    ghost use Rattle.fls_devices.specs.FaultScript.{scripted};

    /// A script of these changing operations, each with the bytes of it that are done, and these read calls. It begins
    /// with the power on and ends a standing cut of the inner flash. Where it finds no memory it hands that back as it
    /// was.
    pub fn make(
        alloc: Global,
        inner: F,
        changing: &[(u64, u32)],
        reads: &[u64],
    ) -> Result<FaultScript<F>, AllocFailed<F>>
        ensures made { IfOk result (λ s. s ≡ scripted (F.told inner) changing.now reads.now) }
        ensures back { IfErr result (λ e. e.value ≡ inner) }
    {
        match lists(alloc, changing, reads) {
            Ok((journal, changing, reads)) => Ok(FaultScript {
                flash: Overlay::make(inner, journal),
                changing,
                reads,
                asked: 0,
                read_calls: 0,
            }),
            Err(_) => Err(AllocFailed { value: inner }),
        }
    }

    /// Gives the inner flash back.
    pub fn into_inner(self) -> F
        ensures { F.told result ≡ self.flash.inner }
    {
        self.flash.into_inner()
    }
}

// A journal with room for these operations, and copies of the lists.
fn lists<F: Flash>(
    alloc: Global,
    changing: &[(u64, u32)],
    reads: &[u64],
) -> Result<(Journal<F>, Vec<(u64, u32)>, Vec<u64>), AllocError>
    ensures { IfOk result (λ t. (t.0 ≡ empty_journal (length changing.now)) × (t.1.items ≡ changing.now) × (t.2.items ≡ reads.now)) }
{
    let journal = Journal::make(alloc, changing.len())?;
    let changing = changing.to_vec(alloc)?;
    Ok((journal, changing, reads.to_vec(alloc)?))
}

impl<F: Flash> Flash for FaultScript<F> {
    ghost use Rattle.std.specs.Prelude.{◌≡◌, length, false};
    ghost use Rattle.nv_base.specs.Geometry.{IsLegal};
    ghost use Rattle.fls_model.specs.Told.{armed, powered, HasRange, HasPage, HasSector};
    ghost use Rattle.fls_model.specs.Step.{IsStep, programs, erases};
    ghost use Rattle.fls_model.specs.Read.{IsRead};
    ghost use Rattle.fls_model.specs.Attach.{IsAttach};
    ghost use Rattle.fls_devices.specs.Overlay.{JournalAfter};
    ghost use Rattle.fls_devices.specs.FaultScript.{told_scripted, OffOrCounted, OffOrReadCounted};

    ghost told = { told_scripted };

    fn attach(&mut self, alloc: Global, geometry: Geometry) -> Result<(), AttachFault>
        requires { IsLegal geometry }
        ensures attach { IsAttach geometry (told_scripted self.old) result (told_scripted self.new) }
        ensures inner { IsAttach geometry self.old.flash.inner result self.new.flash.inner }
        ensures journal { JournalAfter result self.old.flash.journal self.new.flash.journal }
        ensures same { self.new ≡ record self.old { flash = record self.old.flash { inner = self.new.flash.inner; journal = self.new.flash.journal } } }
    {
        self.flash.attach(alloc, geometry)
    }

    fn power_on(&mut self)
        ensures power { told_scripted self.new ≡ powered (told_scripted self.old) }
        ensures inner { self.new ≡ record self.old { flash = record self.old.flash { inner = powered self.old.flash.inner; off = false } } }
    {
        self.flash.power_on();
    }

    fn arm(&mut self, nth: u32, keep: u32)
        ensures told { told_scripted self.new ≡ armed nth keep (told_scripted self.old) }
        ensures inner { self.new ≡ record self.old { flash = record self.old.flash { inner = armed nth keep self.old.flash.inner } } }
    {
        self.flash.arm(nth, keep);
    }

    fn read(&mut self, address: u32, into: &mut [u8]) -> FlashAnswer
        requires { HasRange (told_scripted self.old) address (length into.old) }
        ensures read { IsRead address (told_scripted self.old) into.old result into.new (told_scripted self.new) }
        ensures counted { OffOrReadCounted self.old.flash.off address self.old into.old result into.new self.new }
    {
        if self.flash.is_off() {
            return FlashAnswer::Off;
        }
        self.read_calls = self.read_calls.saturating_add(1);
        if self.reads.contains(&self.read_calls) {
            self.flash.fail();
            return FlashAnswer::Failed;
        }
        self.flash.read(address, into)
    }

    fn program(&mut self, address: u32, page: &[u8]) -> FlashAnswer
        requires { HasPage (told_scripted self.old) address (length page.now) }
        ensures step { IsStep (programs address page.now) (told_scripted self.old) result (told_scripted self.new) }
        ensures counted { OffOrCounted self.old.flash.off (programs address page.now) self.old result self.new }
    {
        if self.flash.is_off() {
            return FlashAnswer::Off;
        }
        self.asked = self.asked.saturating_add(1);
        match take_listed(&mut self.changing, self.asked) {
            Some(keep) => self.flash.harm_program(Harm::Fault, keep, address, page),
            None => self.flash.program(address, page),
        }
    }

    fn erase(&mut self, sector: u32) -> FlashAnswer
        requires { HasSector (told_scripted self.old) sector }
        ensures step { IsStep (erases self.old.flash.inner.geometry sector) (told_scripted self.old) result (told_scripted self.new) }
        ensures counted { OffOrCounted self.old.flash.off (erases self.old.flash.inner.geometry sector) self.old result self.new }
    {
        if self.flash.is_off() {
            return FlashAnswer::Off;
        }
        self.asked = self.asked.saturating_add(1);
        match take_listed(&mut self.changing, self.asked) {
            Some(keep) => self.flash.harm_erase(Harm::Fault, keep, sector),
            None => self.flash.erase(sector),
        }
    }
}

impl<F: SizedFlash> SizedFlash for FaultScript<F> {
    ghost use Rattle.std.specs.Prelude.{◌≡◌};
    ghost use Rattle.nv_base.specs.Geometry.{IsLegal};
    ghost use Rattle.fls_model.specs.Size.{IsLook};
    ghost use Rattle.fls_devices.specs.FaultScript.{told_scripted};

    fn size(&mut self, geometry: Geometry) -> Result<u64, AttachFault>
        requires { IsLegal geometry }
        ensures look { IsLook (told_scripted self.old) result (told_scripted self.new) }
        ensures inner { IsLook self.old.flash.inner result self.new.flash.inner }
        ensures same { self.new ≡ record self.old { flash = record self.old.flash { inner = record self.old.flash.inner { faults = self.new.flash.inner.faults } } } }
    {
        self.flash.size(geometry)
    }
}
