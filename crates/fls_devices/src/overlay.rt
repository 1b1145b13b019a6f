// A flash over another one, that can cut or fail an operation.
ghost use Rattle.std.specs.Prelude.{◌≡◌, ◌<◌, ◌+◌, ◌≤◌, length, true, false, [], Ok};
ghost use Rattle.nv_base.specs.Count.{Rose, next_count};
ghost use Rattle.nv_base.specs.Geometry.{IsLegal};
ghost use Rattle.fls_model.specs.Told.{armed, powered, HasRange, HasPage, HasSector};
ghost use Rattle.fls_model.specs.Op.{Op};
ghost use Rattle.nv_base.specs.Plan.{Planning};
ghost use Rattle.fls_model.specs.Step.{CountsUnplanned, programs, erases};
ghost use Rattle.fls_model.specs.Read.{IsRead};
ghost use Rattle.fls_model.specs.Attach.{IsAttach};
ghost use Rattle.fls_model.specs.Size.{IsLook};
ghost use Rattle.fls_model.specs.Call.{op_of};
ghost use Rattle.fls_devices.specs.Overlay.{told_over, overlaid, IsOverlaid, IsPassed, IsWithheld, IsHarmed, IsAskedOver, JournalAfter, PlanningAfter};

use crate::journal::Journal;
use crate::part::{Harm, count_cut, count_fault, harmed_answer, is_off, kept_part};
use fls_model::{AttachFault, Call, Flash, FlashAnswer, SizedFlash, program_call};
use nv_base::Geometry;
use std::alloc::Global;
use std::marker::Model;

#[derive(Drop)]
pub struct Overlay<F: Flash> {
    inner: F,
    off: bool,
    cuts: u64,
    faults: u64,
    withheld: u64,
    journal: Journal<F>,
}

impl<F: Flash> Model for Overlay<F> {
    ghost use Rattle.fls_devices.specs.Overlay.{Overlaid, IsOverlaid};

    ghost Value = { Overlaid };

    ghost view = { λ s. record { inner = F.told s.inner; off = s.off; cuts = s.cuts; faults = s.faults; withheld = s.withheld; journal = s.journal } };

    ghost invariant = { λ s. IsOverlaid (record { inner = F.told s.inner; off = s.off; cuts = s.cuts; faults = s.faults; withheld = s.withheld; journal = s.journal }) };
}

impl<F: Flash> Overlay<F> {
    // Ends a standing cut of the inner flash.
    pub fn make(inner: F, journal: Journal<F>) -> Overlay<F>
        requires { journal.events ≡ [] }
        ensures { result ≡ overlaid (F.told inner) journal }
    {
        let mut inner = inner;
        let mut journal = journal;
        inner.power_on();
        journal.follow(&inner);
        Overlay {
            inner,
            off: false,
            cuts: 0,
            faults: 0,
            withheld: 0,
            journal,
        }
    }

    pub fn into_inner(self) -> F
        ensures inner { F.told result ≡ self.inner }
        ensures overlaid { IsOverlaid self }
    {
        self.inner
    }

    pub fn inner(&self) -> &F
        ensures { F.told result.now ≡ self.now.inner }
    {
        &self.inner
    }

    pub fn is_off(&self) -> bool
        ensures off { result ≡ self.now.off }
        ensures inner { result ≡ false → self.now.inner.off ≡ false }
    {
        self.off
    }

    pub fn attach(&mut self, alloc: Global, geometry: Geometry) -> Result<(), AttachFault>
        requires { IsLegal geometry }
        ensures attach { (p q : Planning) → PlanningAfter result p q → (result ≡ Ok tt → q.unplanned ≤ self.new.inner.cuts) → IsAttach geometry (told_over p self.old) result (told_over q self.new) }
        ensures inner { IsAttach geometry self.old.inner result self.new.inner }
        ensures journal { JournalAfter result self.old.journal self.new.journal }
        ensures same { self.new ≡ record self.old { inner = self.new.inner; journal = self.new.journal } }
    {
        let answer = self.inner.attach(alloc, geometry);
        match answer {
            Ok(()) => self.journal.clear(),
            Err(_) => {}
        }
        answer
    }

    pub fn power_on(&mut self)
        ensures { self.new ≡ record self.old { inner = powered self.old.inner; off = false } }
    {
        self.inner.power_on();
        self.off = false;
    }

    pub fn arm(&mut self, nth: u32, keep: u32)
        ensures { self.new ≡ record self.old { inner = armed nth keep self.old.inner } }
    {
        self.inner.arm(nth, keep);
    }

    pub fn read(&mut self, address: u32, into: &mut [u8]) -> FlashAnswer
        requires { HasRange self.old.inner address (length into.old) }
        ensures read { (p : Planning) → IsRead address (told_over p self.old) into.old result into.new (told_over p self.new) }
        ensures inner { self.old.off ≡ false → IsRead address self.old.inner into.old result into.new self.new.inner }
        ensures same { self.new ≡ record self.old { inner = record self.old.inner { faults = self.new.inner.faults } } }
    {
        if self.off {
            return FlashAnswer::Off;
        }
        self.inner.read(address, into)
    }

    // Counts a fault of its own.
    pub fn fail(&mut self)
        ensures counted { self.new ≡ record self.old { faults = next_count self.old.faults } }
        ensures rose { Rose (self.old.inner.faults + self.old.faults) (self.new.inner.faults + self.new.faults) }
    {
        self.faults = self.faults.saturating_add(1);
    }

    pub fn program(&mut self, address: u32, page: &[u8]) -> FlashAnswer
        requires { HasPage self.old.inner address (length page.now) }
        ensures step { self.old.off ≡ false → IsAskedOver (programs address page.now) self.old result self.new }
        ensures counted { self.old.off ≡ false → CountsUnplanned self.old.inner self.new.inner }
        ensures passed { IsPassed (programs address page.now) self.old result self.new }
    {
        if self.off {
            return FlashAnswer::Off;
        }
        let answer = self.inner.program(address, page);
        self.journal.pass();
        self.off = is_off(answer);
        answer
    }

    pub fn erase(&mut self, sector: u32) -> FlashAnswer
        requires { HasSector self.old.inner sector }
        ensures step { self.old.off ≡ false → IsAskedOver (erases self.old.inner.geometry sector) self.old result self.new }
        ensures counted { self.old.off ≡ false → CountsUnplanned self.old.inner self.new.inner }
        ensures passed { IsPassed (erases self.old.inner.geometry sector) self.old result self.new }
    {
        if self.off {
            return FlashAnswer::Off;
        }
        let answer = self.inner.erase(sector);
        self.journal.pass();
        self.off = is_off(answer);
        answer
    }

    // Cuts or fails an operation of which nothing is to be done.
    fn withhold(&mut self, harm: Harm, call: Call) -> FlashAnswer
        requires on { self.old.off ≡ false }
        requires room { 0 < self.old.journal.room }
        ensures step { IsAskedOver (op_of self.old.inner.geometry call) self.old result self.new }
        ensures counted { CountsUnplanned self.old.inner self.new.inner }
        ensures withheld { IsWithheld harm (op_of self.old.inner.geometry call) self.old result self.new }
    {
        let answer = harmed_answer(harm, FlashAnswer::Done);
        self.journal.add(call, 0, answer);
        self.withheld = self.withheld.saturating_add(1);
        self.cuts = count_cut(harm, self.cuts);
        self.faults = count_fault(harm, self.faults);
        self.off = is_off(answer);
        answer
    }

    // Cuts or fails a program of which the first `keep` bytes are done.
    pub fn harm_program(&mut self, harm: Harm, keep: u32, address: u32, page: &[u8]) -> FlashAnswer
        requires on { self.old.off ≡ false }
        requires room { 0 < self.old.journal.room }
        requires page { HasPage self.old.inner address (length page.now) }
        ensures step { IsAskedOver (programs address page.now) self.old result self.new }
        ensures counted { CountsUnplanned self.old.inner self.new.inner }
        ensures harmed { IsHarmed harm keep (programs address page.now) self.old result self.new }
    {
        if keep == 0 {
            return self.withhold(harm, program_call(address, page));
        }
        let part = kept_part(page, keep);
        let inner = self.inner.program(address, &part[..page.len()]);
        let answer = harmed_answer(harm, inner);
        self.journal.add(program_call(address, page), keep, answer);
        self.cuts = count_cut(harm, self.cuts);
        self.faults = count_fault(harm, self.faults);
        self.off = is_off(answer);
        answer
    }

    // Cuts or fails an erase, which is done where `keep` isn't 0.
    pub fn harm_erase(&mut self, harm: Harm, keep: u32, sector: u32) -> FlashAnswer
        requires on { self.old.off ≡ false }
        requires room { 0 < self.old.journal.room }
        requires sector { HasSector self.old.inner sector }
        ensures step { IsAskedOver (erases self.old.inner.geometry sector) self.old result self.new }
        ensures counted { CountsUnplanned self.old.inner self.new.inner }
        ensures harmed { IsHarmed harm keep (erases self.old.inner.geometry sector) self.old result self.new }
    {
        if keep == 0 {
            return self.withhold(harm, Call::Sector { sector });
        }
        let inner = self.inner.erase(sector);
        let answer = harmed_answer(harm, inner);
        self.journal.add(Call::Sector { sector }, keep, answer);
        self.cuts = count_cut(harm, self.cuts);
        self.faults = count_fault(harm, self.faults);
        self.off = is_off(answer);
        answer
    }
}

impl<F: SizedFlash> Overlay<F> {
    pub fn size(&mut self, geometry: Geometry) -> Result<u64, AttachFault>
        requires { IsLegal geometry }
        ensures look { (p : Planning) → IsLook (told_over p self.old) result (told_over p self.new) }
        ensures inner { IsLook self.old.inner result self.new.inner }
        ensures same { self.new ≡ record self.old { inner = record self.old.inner { faults = self.new.inner.faults } } }
    {
        self.inner.size(geometry)
    }
}
