// A flash whose power is cut on purpose.
ghost use Rattle.std.specs.Prelude.{◌≡◌};
ghost use Rattle.fls_devices.specs.Cutter.{due, plan_after};

use crate::journal::Journal;
use crate::overlay::Overlay;
use crate::part::Harm;
use fls_model::{AttachFault, Flash, FlashAnswer, SizedFlash};
use nv_base::{Geometry, Plan};
use std::alloc::{AllocFailed, Global};
use std::marker::Model;

/// A flash over another one that cuts the power as `arm` plans it. A cut program leaves the first `keep` bytes of its
/// page programmed, a cut erase is done where `keep` isn't 0. The cut call answers `Off`. A new plan replaces one that
/// stands, `power_on` drops it, and a call of `arm` with nth 0, or after as many plans as it was made for, does
/// nothing. Contracts see the inner flash, the cuts of its own, the plan and how many plans it takes yet; each cut
/// of the inner flash is one that no plan asked for. It
/// tells the list of all changes where the inner flash tells its own.
#[derive(Drop)]
pub struct Cutter<F: Flash> {
    flash: Overlay<F>,
    plan: Option<Plan>,
    arms: u32,
}

impl<F: Flash> Model for Cutter<F> {
    ghost use Rattle.fls_devices.specs.Cutter.{Cutting};
    ghost use Rattle.fls_devices.specs.CutterInside.{IsCutter};

    ghost Value = { Cutting };

    ghost view = { λ c. record { flash = c.flash; plan = c.plan; arms = c.arms } };

    ghost invariant = { λ c. IsCutter (record { flash = c.flash; plan = c.plan; arms = c.arms }) };
}

// How many bytes of the operation that comes now are done, where it is to be cut.
fn due(off: bool, plan: Option<Plan>) -> Option<u32>
    ensures { result ≡ due off plan }
{
    match plan {
        Some(plan) if !off && plan.left <= 1 => Some(plan.keep),
        _ => None,
    }
}

// The plan behind it.
fn plan_after(off: bool, plan: Option<Plan>) -> Option<Plan>
    ensures { result ≡ plan_after off plan }
{
    match plan {
        Some(plan) if !off && plan.left <= 1 => None,
        Some(plan) if !off => Some(Plan {
            left: plan.left - 1,
            keep: plan.keep,
        }),
        plan => plan,
    }
}

impl<F: Flash> Cutter<F> {
    ghost use Rattle.std.specs.Prelude.{◌≡◌, IfOk, IfErr};
    ghost use Rattle.fls_model.specs.Told.{bytes_now};
    ghost use Rattle.fls_devices.specs.Cutter.{cutting, told_cutting, OnlyCuts};

    /// A cutter of at most so many cuts, with the power on: it ends a standing cut of the inner flash. Where it finds
    /// no memory it hands the inner flash back as it was.
    pub fn make(alloc: Global, inner: F, cuts: u32) -> Result<Cutter<F>, AllocFailed<F>>
        ensures made { IfOk result (λ c. c ≡ cutting (F.told inner) cuts) }
        ensures back { IfErr result (λ e. e.value ≡ inner) }
    {
        match Journal::make(alloc, cuts as usize) {
            Ok(journal) => Ok(Cutter {
                flash: Overlay::make(inner, journal),
                plan: None,
                arms: cuts,
            }),
            Err(_) => Err(AllocFailed { value: inner }),
        }
    }

    /// The inner flash, to look at. Its bytes are those that are told.
    pub fn inner(&self) -> &F
        ensures inner { F.told result.now ≡ self.now.flash.inner }
        ensures bytes { bytes_now (told_cutting self.now) ≡ bytes_now (F.told result.now) }
        ensures geometry { (told_cutting self.now).geometry ≡ (F.told result.now).geometry }
    {
        self.flash.inner()
    }

    /// Gives the inner flash back. What was told of its faults and changes is so.
    pub fn into_inner(self) -> F
        ensures inner { F.told result ≡ self.flash.inner }
        ensures cuts { OnlyCuts self }
    {
        self.flash.into_inner()
    }
}

impl<F: Flash> Flash for Cutter<F> {
    ghost use Rattle.std.specs.Prelude.{◌≡◌, length, None, false};
    ghost use Rattle.nv_base.specs.Geometry.{IsLegal};
    ghost use Rattle.fls_model.specs.Told.{armed, powered, HasRange, HasPage, HasSector};
    ghost use Rattle.nv_base.specs.Plan.{planned};
    ghost use Rattle.fls_model.specs.Step.{IsStep, programs, erases};
    ghost use Rattle.fls_model.specs.Read.{IsRead};
    ghost use Rattle.fls_model.specs.Attach.{IsAttach};
    ghost use Rattle.fls_devices.specs.Overlay.{JournalAfter};
    ghost use Rattle.fls_devices.specs.Cutter.{told_cutting, planning_of, with_planning, IsCutOrPassed};

    ghost told = { told_cutting };

    fn attach(&mut self, alloc: Global, geometry: Geometry) -> Result<(), AttachFault>
        requires { IsLegal geometry }
        ensures attach { IsAttach geometry (told_cutting self.old) result (told_cutting self.new) }
        ensures inner { IsAttach geometry self.old.flash.inner result self.new.flash.inner }
        ensures journal { JournalAfter result self.old.flash.journal self.new.flash.journal }
        ensures same { self.new ≡ record self.old { flash = record self.old.flash { inner = self.new.flash.inner; journal = self.new.flash.journal } } }
    {
        self.flash.attach(alloc, geometry)
    }

    fn power_on(&mut self)
        ensures power { told_cutting self.new ≡ powered (told_cutting self.old) }
        ensures disarmed { self.new.plan ≡ None }
        ensures arms { self.new.arms ≡ self.old.arms }
    {
        self.flash.power_on();
        self.plan = None;
    }

    fn arm(&mut self, nth: u32, keep: u32)
        ensures told { told_cutting self.new ≡ armed nth keep (told_cutting self.old) }
        ensures armed { self.new ≡ with_planning (planned nth keep (planning_of self.old)) self.old }
    {
        if nth > 0 && self.arms > 0 {
            self.plan = Some(Plan { left: nth, keep });
            self.arms -= 1;
        }
    }

    fn read(&mut self, address: u32, into: &mut [u8]) -> FlashAnswer
        requires { HasRange (told_cutting self.old) address (length into.old) }
        ensures read { IsRead address (told_cutting self.old) into.old result into.new (told_cutting self.new) }
        ensures inner { self.old.flash.off ≡ false → IsRead address self.old.flash.inner into.old result into.new self.new.flash.inner }
        ensures same { self.new ≡ record self.old { flash = record self.old.flash { inner = self.new.flash.inner } } }
    {
        self.flash.read(address, into)
    }

    fn program(&mut self, address: u32, page: &[u8]) -> FlashAnswer
        requires { HasPage (told_cutting self.old) address (length page.now) }
        ensures step { IsStep (programs address page.now) (told_cutting self.old) result (told_cutting self.new) }
        ensures cut { IsCutOrPassed (programs address page.now) self.old result self.new }
    {
        let off = self.flash.is_off();
        let keep = due(off, self.plan);
        self.plan = plan_after(off, self.plan);
        match keep {
            Some(keep) => self.flash.harm_program(Harm::Cut, keep, address, page),
            None => self.flash.program(address, page),
        }
    }

    fn erase(&mut self, sector: u32) -> FlashAnswer
        requires { HasSector (told_cutting self.old) sector }
        ensures step { IsStep (erases self.old.flash.inner.geometry sector) (told_cutting self.old) result (told_cutting self.new) }
        ensures cut { IsCutOrPassed (erases self.old.flash.inner.geometry sector) self.old result self.new }
    {
        let off = self.flash.is_off();
        let keep = due(off, self.plan);
        self.plan = plan_after(off, self.plan);
        match keep {
            Some(keep) => self.flash.harm_erase(Harm::Cut, keep, sector),
            None => self.flash.erase(sector),
        }
    }
}

impl<F: SizedFlash> SizedFlash for Cutter<F> {
    ghost use Rattle.std.specs.Prelude.{◌≡◌};
    ghost use Rattle.nv_base.specs.Geometry.{IsLegal};
    ghost use Rattle.fls_model.specs.Size.{IsLook};
    ghost use Rattle.fls_devices.specs.Cutter.{told_cutting};

    fn size(&mut self, geometry: Geometry) -> Result<u64, AttachFault>
        requires { IsLegal geometry }
        ensures look { IsLook (told_cutting self.old) result (told_cutting self.new) }
        ensures inner { IsLook self.old.flash.inner result self.new.flash.inner }
        ensures same { self.new ≡ record self.old { flash = record self.old.flash { inner = record self.old.flash.inner { faults = self.new.flash.inner.faults } } } }
    {
        self.flash.size(geometry)
    }
}
