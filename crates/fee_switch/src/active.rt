// The bank that comes first.
ghost use Rattle.std.specs.Prelude.{◌≡◌, ℕ, Some, if◌then◌else◌};
ghost use Rattle.fee_image.specs.Image.{first_of};
ghost use Rattle.fee_switch.specs.Active.{active_shown};

use fee_format::BankHead;

/// A bank that stands, by its number from 0, with its head.
#[derive(Clone, Copy)]
pub struct ActiveBank {
    pub bank: u32,
    pub head: BankHead,
}

/// Whether a bank that stands with this head comes before the first of the banks with lower numbers: the one with the
/// greatest generation does, on a tie the lower one.
pub fn comes_first(first: Option<ActiveBank>, head: BankHead) -> bool
    ensures { (bank : ℕ) → first_of (active_shown first) bank (Some head) ≡ (if result then Some (bank, head) else active_shown first) }
{
    match first {
        Some(first) => first.head.generation < head.generation,
        None => true,
    }
}
