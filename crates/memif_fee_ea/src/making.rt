// The device is made.
ghost use Rattle.std.specs.Prelude.{◌≡◌, true, IfErr, IfOk};
ghost use Rattle.memif_pair.specs.nv_base.Geometry.{HasBanks, IsLegal, sectors_of_bank};
ghost use Rattle.memif_pair.specs.Pair.{merged};
ghost use Rattle.memif_pair.specs.Both.{first_both, told_as};
ghost use Rattle.fee_core.specs.fee_switch_laws.Space.{HasSpace};
ghost use Rattle.fee_core.specs.fee_told.Device.{told_of};
ghost use Rattle.fee_core.specs.fee_told.Figures.{fixed_for};
ghost use Rattle.ea_slots.specs.ea_told.Making.{HasSlots};
ghost use Rattle.ea_slots.specs.Whole.{told_in};
ghost use Rattle.memif_fee_ea.specs.Made.{AreMade, AreParts, IsMadeOf, IsRefused};
ghost use Rattle.memif_fee_ea.specs.Numbers.{are_apart};

use ea_slots::Ea;
use fee_core::{AttachFault, Fee, Flash, Geometry, Lengths};
use memif_pair::Both;
use memif_pair::memif::MemIf;
use std::alloc::Global;

/// The memory device over a flash and an EEPROM: a number that the EEPROM has is its own, any other the flash's.
pub type FlashAndEeprom<F, O, G, P> = Both<Fee<F, O>, Ea<G, P>>;

/// One device of two that were just made, of numbers that are apart.
pub fn both_of<F: Flash, O: fee_core::Origin, G: Flash, P: ea_slots::Origin>(
    first: Fee<F, O>,
    second: Ea<G, P>,
) -> FlashAndEeprom<F, O, G, P>
    requires made { AreMade O.making O.entry P.making first second }
    ensures both { result ≡ first_both first second }
    ensures made { IsMadeOf O.making O.entry P.making result }
    ensures numbers { (told_as told_of told_in result).fixed.numbers ≡ merged O.making.numbers P.making.numbers }
{
    Both::make(MemIf { first, second })
}

/// One of both: the flash, or the EEPROM.
#[derive(Clone, Copy, Debug)]
pub enum PairPart {
    Flash,
    Eeprom,
}

/// Why a device over both isn't made: one of them isn't attached.
#[derive(Clone, Copy, Debug)]
pub struct PairAttachFault {
    pub part: PairPart,
    pub fault: AttachFault,
}

/// The shapes of both flashes, how many banks share the first one's sectors, and the pages that are kept there for urgent writes.
#[derive(Clone, Copy)]
pub struct Shapes {
    pub flash: Geometry,
    pub banks: u32,
    pub reserve: u32,
    pub eeprom: Geometry,
}

/// Makes the device of a flash with these numbers, and of an EEPROM with those. A refusal hands both back, and tells which of them
/// isn't attached. It takes memory for all that the device ever needs, and isn't started.
pub fn make<F: Flash, O: fee_core::Origin, G: Flash, P: ea_slots::Origin>(
    alloc: Global,
    flash: F,
    eeprom: G,
    shapes: Shapes,
    numbers: &Lengths,
    second: &Lengths,
) -> Result<FlashAndEeprom<F, O, G, P>, (PairAttachFault, F, G)>
    requires legal { IsLegal shapes.flash }
    requires shared { HasBanks shapes.flash shapes.banks }
    requires space { HasSpace numbers.now shapes.flash shapes.banks shapes.reserve }
    requires first { O.making ≡ record { geometry = shapes.flash; banks = shapes.banks; numbers = numbers.now; reserve = shapes.reserve } }
    requires entry { O.entry ≡ F.told flash }
    requires slots { HasSlots P.making }
    requires second { P.making ≡ record { geometry = shapes.eeprom; numbers = second.now } }
    requires eeprom { P.entry ≡ G.told eeprom }
    requires apart { are_apart numbers.now second.now ≡ true }
    ensures made { IfOk result (λ d. IsMadeOf O.making O.entry P.making d) }
    ensures numbers { IfOk result (λ d. (told_as told_of told_in d).fixed.numbers ≡ merged numbers.now second.now) }
    ensures figures { IfOk result (λ d. (told_of d.first).fixed ≡ fixed_for shapes.flash.page (sectors_of_bank shapes.flash shapes.banks) numbers.now shapes.reserve) }
    ensures parts { IfOk result (λ d. AreParts O.entry P.entry (told_as told_of told_in d)) }
    ensures refused { IfErr result (λ e. IsRefused shapes.flash shapes.eeprom e.0.part e.0.fault (F.told flash) (F.told e.1) (G.told eeprom) (G.told e.2)) }
{
    let first = match Fee::<F, O>::make(
        alloc,
        flash,
        shapes.flash,
        shapes.banks,
        numbers,
        shapes.reserve,
    ) {
        Ok(first) => first,
        Err((fault, flash)) => {
            let part = PairPart::Flash;
            return Err((PairAttachFault { part, fault }, flash, eeprom));
        }
    };
    match Ea::<G, P>::make(alloc, eeprom, shapes.eeprom, second) {
        Ok(second) => Ok(both_of(first, second)),
        Err((fault, eeprom)) => {
            let part = PairPart::Eeprom;
            Err((PairAttachFault { part, fault }, first.into_flash(), eeprom))
        }
    }
}
