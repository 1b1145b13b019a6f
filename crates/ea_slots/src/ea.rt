// The device.
ghost use Rattle.std.specs.Prelude.{◌≡◌, IfOk, length, replicate};
ghost use Rattle.ea_told.specs.States.{no_state};

use crate::Origin;
use crate::content::Content;
use crate::parts::EaParts;
use crate::states::States;
use fls_jobs::Fls;
use fls_model::{AttachFault, Flash};
use memif::JobResult;
use nv_base::{Geometry, Lengths, Trace, lengths_of};
use std::alloc::{AllocError, Global};
use std::marker::{Model, PhantomData};

/// A memory device over an EEPROM of paired slots: one job at a time, in turns of at most one flash call. It takes memory at
/// `make` alone.
#[derive(Drop)]
pub struct Ea<F: Flash, O: Origin> {
    pub(crate) parts: EaParts<F, O>,
}

impl<F: Flash, O: Origin> Model for Ea<F, O> {
    ghost use Rattle.ea_told.specs.Inside.{IsSound};
    ghost use Rattle.ea_slots.specs.Whole.{Device};

    ghost Value = { Device };

    ghost view = { λ s. record { making = O.making; entry = O.entry; parts = s.parts } };

    ghost invariant = { λ s. IsSound O.making O.entry s.parts };
}

// The memory of a device.
fn room_for(
    alloc: Global,
    geometry: Geometry,
    numbers: &Lengths,
) -> Result<(Lengths, States, Content), AllocError>
    ensures numbers { IfOk result (λ r. r.0 ≡ numbers.now) }
    ensures states { IfOk result (λ r. r.1 ≡ replicate (length numbers.now) no_state) }
    ensures content { IfOk result (λ r. r.2 ≡ replicate geometry.sector 0) }
{
    let listed = lengths_of(alloc, numbers.as_slice())?;
    let states = States::make(alloc, numbers.len())?;
    Ok((listed, states, Content::make(alloc, geometry.sector)?))
}

impl<F: Flash, O: Origin> Ea<F, O> {
    ghost use Rattle.std.specs.Prelude.{◌≡◌, ◌≤◌, false, [], Err, IfErr, IfOk, IfSome};
    ghost use Rattle.nv_base.specs.Geometry.{IsLegal};
    ghost use Rattle.fls_model.specs.Told.{changes_in};
    ghost use Rattle.fls_model.specs.Attach.{IsAttach};
    ghost use Rattle.ea_told.specs.Making.{HasSlots};
    ghost use Rattle.promise_device.specs.Bridge.{Bridges};
    ghost use Rattle.ea_told.specs.Reading.{reading_of};
    ghost use Rattle.ea_slots.specs.Whole.{told_in, clock_in, part_at, IsMadeOf};

    /// Attaches the flash and takes all memory that the device ever needs; a refusal hands the flash back. The device isn't
    /// started.
    pub fn make(
        alloc: Global,
        flash: F,
        geometry: Geometry,
        numbers: &Lengths,
    ) -> Result<Ea<F, O>, (AttachFault, F)>
        requires legal { IsLegal geometry }
        requires slots { HasSlots O.making }
        requires making { O.making ≡ record { geometry = geometry; numbers = numbers.now } }
        requires entry { O.entry ≡ F.told flash }
        ensures made { IfOk result (λ d. IsMadeOf O.making (told_in d)) }
        ensures part { IfOk result (λ d. (told_in d).first ≡ part_at O.entry) }
        ensures refused { IfErr result (λ e. IsAttach geometry (F.told flash) (Err e.0) (F.told e.1)) }
    {
        let Ok((numbers, states, content)) = room_for(alloc, geometry, numbers) else {
            return Err((AttachFault::Memory, flash));
        };
        let mut fls = Fls::make(flash, geometry);
        if let Err(fault) = fls.attach(alloc) {
            return Err((fault, fls.into_flash()));
        }
        Ok(Ea {
            parts: EaParts {
                fls,
                geometry,
                numbers,
                states,
                content,
                job: None,
                last: JobResult::JobOk,
                given: 0,
                starts: Trace::new(),
                started: false,
                off: false,
                ops: 0,
                faults: 0,
                operations: Trace::new(),
                origin: PhantomData,
            },
        })
    }

    /// Gives the flash back. What the device told of it is so, from its making on.
    pub fn into_flash(self) -> F
        ensures told { F.told result ≡ self.parts.fls.flash }
        ensures geometry { (F.told result).geometry ≡ O.making.geometry }
        ensures more { O.entry.faults ≤ (F.told result).faults }
        ensures none { self.parts.operations ≡ [] → ((F.told result).ops ≡ O.entry.ops) × ((F.told result).cuts ≡ O.entry.cuts) }
        ensures changes { IfSome (changes_in (F.told result).bytes) (λ changes. changes ≡ self.parts.operations) }
        ensures bridge { Bridges (reading_of O.making) false (record { entry = O.entry; exit = F.told result; operations = self.parts.operations }) (part_at O.entry) (told_in self) (clock_in self) }
    {
        let Ea { parts } = self;
        let EaParts { fls, .. } = parts;
        fls.status();
        fls.into_flash()
    }
}
