// The device.
ghost use Rattle.std.specs.Prelude.{◌≡◌, IfOk, length};
ghost use Rattle.nv_base.specs.Geometry.{IsLegal, HasBanks};
ghost use Rattle.fee_laws.specs.fee_switch.Banks.{IsMade};
ghost use Rattle.fee_core.specs.Whole.{unstarted};

use crate::Origin;
use crate::content::Content;
use crate::mark_place::MarkPlace;
use crate::parts::FeeParts;
use fee_laws::Banks;
use fls_jobs::Fls;
use fls_model::{AttachFault, Flash};
use memif::JobResult;
use nv_base::{DeviceNumber, Geometry, Lengths, Trace, lengths_of};
use std::alloc::{AllocError, Global};
use std::marker::{Model, PhantomData};

/// A memory device over the banks of a flash: one job at a time, in turns of at most one flash call. It takes memory at
/// `make` alone. Contracts see what it knows as one record.
#[derive(Drop)]
pub struct Fee<F: Flash, O: Origin> {
    pub(crate) parts: FeeParts<F, O>,
}

impl<F: Flash, O: Origin> Model for Fee<F, O> {
    ghost use Rattle.fee_laws.specs.fee_told.Device.{Device};
    ghost use Rattle.fee_laws.specs.Inside.{device_of};
    ghost use Rattle.fee_core.specs.Whole.{Sound};

    ghost Value = { Device };

    ghost view = { λ s. device_of O.making O.entry s.parts.parts };

    ghost invariant = { λ s. Sound O.making O.entry s.parts };
}

// The memory of a device.
fn room_for(
    alloc: Global,
    geometry: Geometry,
    banks: u32,
    numbers: &Lengths,
) -> Result<(Banks, Lengths, Content), AllocError>
    requires legal { IsLegal geometry }
    requires shared { HasBanks geometry banks }
    ensures banks { IfOk result (λ r. IsMade r.0 geometry banks numbers.now) }
    ensures numbers { IfOk result (λ r. r.1 ≡ numbers.now) }
    ensures content { IfOk result (λ r. length r.2 ≡ 4096) }
{
    let banks = Banks::make(alloc, geometry, numbers, banks)?;
    let listed = lengths_of(alloc, numbers.as_slice())?;
    Ok((banks, listed, Content::make(alloc)?))
}

// Nothing was done yet.
fn unstarted<F: Flash, O: Origin>(
    fls: Fls<F>,
    banks: Banks,
    numbers: Lengths,
    reserve: u32,
    content: Content,
) -> FeeParts<F, O>
    ensures { result ≡ unstarted fls banks numbers reserve content }
{
    FeeParts {
        fls,
        banks,
        numbers,
        reserve,
        content,
        job: None,
        last: JobResult::JobOk,
        given: 0,
        starts: Trace::new(),
        started: false,
        off: false,
        ops: 0,
        faults: 0,
        worn: None,
        operations: Trace::new(),
        origin: PhantomData,
    }
}

impl<F: Flash, O: Origin> Fee<F, O> {
    ghost use Rattle.std.specs.Prelude.{◌≡◌, ◌≤◌, ℕ, false, true, [], IfOk, IfErr, IfSome, Err, Some};
    ghost use Rattle.nv_base.specs.Geometry.{IsLegal, HasBanks, sectors_of_bank};
    ghost use Rattle.fls_model.specs.Told.{changes_in};
    ghost use Rattle.fls_model.specs.Attach.{IsAttach};
    ghost use Rattle.promise_device.specs.Bridge.{Bridges, reading_of};
    ghost use Rattle.promise_device.specs.Room.{TellsWorkOver};
    ghost use Rattle.promise_device.specs.Wear.{OperationsAreDue};
    ghost use Rattle.promise_device.specs.SwitchErases.{RestartsAreFew};
    ghost use Rattle.fee_laws.specs.fee_switch_laws.Space.{HasSpace};
    ghost use Rattle.fee_laws.specs.Made.{IsMadeOf, part_at};
    ghost use Rattle.fee_laws.specs.SwitchTold.{TellsSwitchOver};
    ghost use Rattle.memif.specs.Told.{First, figures_at, length_of};
    ghost use Rattle.fee_core.specs.MarkPlaces.{IsMarkPlace};
    ghost use Rattle.fee_laws.specs.fee_told.Figures.{fixed_for};
    ghost use Rattle.fee_laws.specs.fee_told.Device.{told_of, clock_of};

    /// Attaches the flash and takes all memory that the device ever needs; a refusal hands the flash back. The device is of
    /// what was picked, and isn't started. `banks` is how many share the sectors, `reserve` the pages that are kept for urgent
    /// writes.
    pub fn make(
        alloc: Global,
        flash: F,
        geometry: Geometry,
        banks: u32,
        numbers: &Lengths,
        reserve: u32,
    ) -> Result<Fee<F, O>, (AttachFault, F)>
        requires legal { IsLegal geometry }
        requires shared { HasBanks geometry banks }
        requires making { O.making ≡ record { geometry = geometry; banks = banks; numbers = numbers.now; reserve = reserve } }
        requires entry { O.entry ≡ F.told flash }
        requires space { HasSpace numbers.now geometry banks reserve }
        ensures made { IfOk result (λ f. IsMadeOf O.making O.entry f) }
        ensures parts { IfOk result (λ f. (n : ℕ) → (figures_at (told_of f).fixed n).part ≡ First) }
        ensures fixed { IfOk result (λ f. (told_of f).fixed ≡ fixed_for geometry.page (sectors_of_bank geometry banks) numbers.now reserve) }
        ensures refused { IfErr result (λ e. IsAttach geometry (F.told flash) (Err e.0) (F.told e.1)) }
    {
        let Ok((banks, numbers, content)) = room_for(alloc, geometry, banks, numbers) else {
            return Err((AttachFault::Memory, flash));
        };
        let mut fls = Fls::make(flash, geometry);
        if let Err(fault) = fls.attach(alloc) {
            return Err((fault, fls.into_flash()));
        }
        Ok(Fee {
            parts: unstarted(fls, banks, numbers, reserve, content),
        })
    }

    /// The flash, to look at.
    pub fn flash(&self) -> &F
        ensures flash { F.told result.now ≡ self.now.flash }
        ensures made { (self.now.making ≡ O.making) × (self.now.entry ≡ O.entry) }
    {
        self.parts.fls.flash()
    }

    /// Where what a number of this length holds stands on the flash, while the device is started. It is no job, and no call of the flash.
    pub fn mark_place(&self, number: DeviceNumber, length: u16) -> MarkPlace
        requires started { self.now.started ≡ true }
        requires configured { length_of self.now.making.numbers number.0 ≡ Some length }
        ensures { IsMarkPlace self.now number.0 length result }
    {
        self.parts.mark_place(number, length)
    }

    /// Gives the flash back. What the device told of it is so, from its making on. With no switch open, what is ready for urgent
    /// writes and the turns that are left are those of the active bank in its bytes; with one open, from a sound image on, these
    /// turns are those of the switch, as far as it has come there. From a sound image on each of its operations was due: the next
    /// bank is erased only where the active one has no room for the most that a record asks for, and hasn't the last generation; and a
    /// page is programmed where it is blank, or once more where its program failed. A switch that had begun begins again less often
    /// than the device was started up or counted a fault.
    pub fn into_flash(self) -> F
        ensures told { F.told result ≡ self.flash }
        ensures geometry { (F.told result).geometry ≡ O.making.geometry }
        ensures more { O.entry.faults ≤ (F.told result).faults }
        ensures parts { (n : ℕ) → (figures_at (told_of self).fixed n).part ≡ First }
        ensures none { self.operations ≡ [] → ((F.told result).ops ≡ O.entry.ops) × ((F.told result).cuts ≡ O.entry.cuts) }
        ensures changes { IfSome (changes_in (F.told result).bytes) (λ changes. changes ≡ self.operations) }
        ensures room { TellsWorkOver O.making self.operations (F.told result) (told_of self) }
        ensures switch { TellsSwitchOver O.making O.entry self.operations (F.told result) (told_of self) }
        ensures wear { OperationsAreDue O.making (record { entry = O.entry; exit = F.told result; operations = self.operations }) }
        ensures restarts { RestartsAreFew O.making self.operations (told_of self) }
        ensures bridge { Bridges (reading_of O.making) false (record { entry = O.entry; exit = F.told result; operations = self.operations }) (part_at O.entry) (told_of self) (clock_of self) }
    {
        let Fee { parts } = self;
        let _active = parts.banks.active();
        let FeeParts { fls, .. } = parts;
        fls.status();
        fls.into_flash()
    }
}
