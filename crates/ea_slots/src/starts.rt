// The power of a device: its start-up, and plans of power cuts.
ghost use Rattle.std.specs.Prelude.{◌≡◌, ◌≢◌, ◌<◌, ◌≤◌, ◌+◌, ◌*◌, ℕ, length, IfSome, IfOk, OnOk};
ghost use Rattle.ea_image.specs.Memory.{memory_loaded};
ghost use Rattle.ea_image.specs.Slots.{slot_bytes, standing};
ghost use Rattle.ea_told.specs.Calls.{with_plan};
ghost use Rattle.ea_told.specs.Device.{state_at};
ghost use Rattle.ea_told.specs.Inside.{IsSound};
ghost use Rattle.ea_told.specs.Start.{IsStart};
ghost use Rattle.ea_slots.specs.Starts.{MayRead, Reads, AreLoaded};

use crate::Origin;
use crate::content::Content;
use crate::parts::EaParts;
use crate::states::States;
use crate::steps::head_sector;
use ea_image::{SlotHead, SlotMemory, Which, newest};
use ea_told::SlotState;
use fls_jobs::Fls;
use fls_model::Flash;
use memif::{JobResult, StartFault};
use nv_base::{Geometry, Lengths};

// A read failed, which the flash counted.
#[derive(Clone, Copy)]
pub(crate) struct ReadFailed;

// The head with which a slot stands, from its two sectors.
fn load_slot<F: Flash>(
    fls: &mut Fls<F>,
    geometry: Geometry,
    at: (u32, Which),
    size: u16,
    buffer: &mut Content,
) -> Result<Option<SlotHead>, ReadFailed>
    requires flash { MayRead fls.old geometry }
    requires place { 4 * at.0 + 4 ≤ geometry.sectors }
    requires room { length buffer.old ≡ geometry.sector }
    ensures found { IfOk result (λ h. IfSome fls.old.flash.bytes (λ b. h ≡ standing geometry.page size (slot_bytes geometry b.now at.0 at.1))) }
    ensures reads { Reads result fls.old fls.new }
    ensures flash { MayRead fls.new geometry }
    ensures room { length buffer.new ≡ geometry.sector }
{
    let sector = head_sector(at.0, at.1);
    buffer.read_sector(fls, geometry, sector)?;
    let found = buffer.standing(geometry.page, size);
    buffer.read_sector(fls, geometry, sector + 1)?;
    Ok(found)
}

// What is kept of the slots of the number at a place, from its four sectors.
fn load_number<F: Flash>(
    fls: &mut Fls<F>,
    geometry: Geometry,
    place: u32,
    size: u16,
    buffer: &mut Content,
) -> Result<SlotMemory, ReadFailed>
    requires flash { MayRead fls.old geometry }
    requires place { 4 * place + 4 ≤ geometry.sectors }
    requires room { length buffer.old ≡ geometry.sector }
    ensures loaded { IfOk result (λ m. IfSome fls.old.flash.bytes (λ b. m ≡ memory_loaded geometry.page size (slot_bytes geometry b.now place))) }
    ensures reads { Reads result fls.old fls.new }
    ensures flash { MayRead fls.new geometry }
    ensures room { length buffer.new ≡ geometry.sector }
{
    let first = load_slot(fls, geometry, (place, Which::Slot0), size, buffer)?;
    let second = load_slot(fls, geometry, (place, Which::Slot1), size, buffer)?;
    Ok(SlotMemory::loaded(newest(first, second)))
}

// Loads the number at a place. What it is worn out since stays.
fn load_at<F: Flash>(
    fls: &mut Fls<F>,
    geometry: Geometry,
    at: (u32, u16),
    states: &mut States,
    buffer: &mut Content,
) -> Result<(), ReadFailed>
    requires flash { MayRead fls.old geometry }
    requires place { 4 * at.0 + 4 ≤ geometry.sectors }
    requires count { at.0 < length states.old }
    requires room { length buffer.old ≡ geometry.sector }
    ensures loaded { OnOk result (IfSome fls.old.flash.bytes (λ b. (state_at states.new at.0).memory ≡ memory_loaded geometry.page at.1 (slot_bytes geometry b.now at.0))) }
    ensures others { (i : ℕ) → i ≢ at.0 → state_at states.new i ≡ state_at states.old i }
    ensures worn { (i : ℕ) → (state_at states.new i).worn ≡ (state_at states.old i).worn }
    ensures count { length states.new ≡ length states.old }
    ensures reads { Reads result fls.old fls.new }
    ensures flash { MayRead fls.new geometry }
    ensures room { length buffer.new ≡ geometry.sector }
{
    let memory = load_number(fls, geometry, at.0, at.1, buffer)?;
    let worn = states.at(at.0).worn;
    states.set(at.0, SlotState { memory, worn });
    Ok(())
}

// Loads all numbers, in their order.
fn load_all<F: Flash>(
    fls: &mut Fls<F>,
    geometry: Geometry,
    numbers: &Lengths,
    states: &mut States,
    buffer: &mut Content,
) -> Result<(), ReadFailed>
    requires flash { MayRead fls.old geometry }
    requires places { 4 * length numbers.now ≤ geometry.sectors }
    requires count { length states.old ≡ length numbers.now }
    requires room { length buffer.old ≡ geometry.sector }
    ensures loaded { OnOk result (IfSome fls.old.flash.bytes (λ b. AreLoaded geometry numbers.now (length numbers.now) states.new b.now)) }
    ensures worn { (i : ℕ) → (state_at states.new i).worn ≡ (state_at states.old i).worn }
    ensures count { length states.new ≡ length states.old }
    ensures reads { Reads result fls.old fls.new }
    ensures flash { MayRead fls.new geometry }
    ensures room { length buffer.new ≡ geometry.sector }
{
    for place in 0..numbers.len() {
        let size = numbers.as_slice()[place as usize].1;
        load_at(fls, geometry, (place, size), states, buffer)?;
    }
    Ok(())
}

// Reads the sectors behind those of all numbers.
fn read_rest<F: Flash>(
    fls: &mut Fls<F>,
    geometry: Geometry,
    from: u32,
    buffer: &mut Content,
) -> Result<(), ReadFailed>
    requires flash { MayRead fls.old geometry }
    requires room { length buffer.old ≡ geometry.sector }
    ensures reads { Reads result fls.old fls.new }
    ensures room { length buffer.new ≡ geometry.sector }
{
    for sector in from..geometry.sectors {
        buffer.read_sector(fls, geometry, sector)?;
    }
    Ok(())
}

// Reads each sector once, and loads all numbers.
fn read_all<F: Flash>(
    fls: &mut Fls<F>,
    geometry: Geometry,
    numbers: &Lengths,
    states: &mut States,
    buffer: &mut Content,
) -> Result<(), ReadFailed>
    requires flash { MayRead fls.old geometry }
    requires places { 4 * length numbers.now ≤ geometry.sectors }
    requires count { length states.old ≡ length numbers.now }
    requires room { length buffer.old ≡ geometry.sector }
    ensures loaded { OnOk result (IfSome fls.old.flash.bytes (λ b. AreLoaded geometry numbers.now (length numbers.now) states.new b.now)) }
    ensures worn { (i : ℕ) → (state_at states.new i).worn ≡ (state_at states.old i).worn }
    ensures count { length states.new ≡ length states.old }
    ensures reads { Reads result fls.old fls.new }
    ensures room { length buffer.new ≡ geometry.sector }
{
    load_all(fls, geometry, numbers, states, buffer)?;
    read_rest(fls, geometry, 4 * numbers.len(), buffer)
}

impl<F: Flash, O: Origin> EaParts<F, O> {
    /// Turns the power on, reads each sector once and settles each number's mark at what is found. It drops an open job.
    /// `Fault` comes only where a read failed, which a fault counts; then the device isn't started.
    pub fn start(&mut self) -> Result<(), StartFault>
        requires { IsSound O.making O.entry self.old }
        ensures { IsStart O.making result self.old self.new }
    {
        self.fls.power_on();
        let answer = read_all(
            &mut self.fls,
            self.geometry,
            &self.numbers,
            &mut self.states,
            &mut self.content,
        );
        self.content.tell_small();
        self.off = false;
        self.job = None;
        self.last = JobResult::JobOk;
        self.given = 0;
        self.starts = self.starts.with(&());
        match answer {
            Ok(()) => {
                self.started = true;
                Ok(())
            }
            Err(ReadFailed) => {
                self.started = false;
                self.faults = self.faults.saturating_add(1);
                Err(StartFault::Fault)
            }
        }
    }

    /// Plans a power cut of its flash at the nth changing operation from now, with so many bytes of it done, where `which` is
    /// 0 and the flash can.
    pub fn arm(&mut self, which: u8, nth: u32, keep: u32)
        requires { IsSound O.making O.entry self.old }
        ensures plan { which ≡ 0 → self.new ≡ with_plan nth keep self.old }
        ensures none { which ≢ 0 → self.new ≡ self.old }
    {
        let _started = self.started;
        if which == 0 {
            self.fls.arm(nth, keep);
        }
    }
}
