// Gates.
ghost use Rattle.std.specs.Prelude.{◌≡◌, ◌↔◌, length, IsTrue};
ghost use Rattle.fee_format.specs.Gate.{IsGate};
ghost use Rattle.fee_format.specs.Pages.{gate_page};

use crate::alike::is_alike;

/// Writes an open gate, which fills the page.
pub fn write_gate(page: &mut [u8])
    ensures { page.new ≡ gate_page (length page.old) }
{
    page.fill(0);
}

/// Whether the page is a gate that stands open.
#[inline(always)]
pub fn gate_stands(page: &[u8]) -> bool
    ensures { IsTrue result ↔ IsGate (length page.now) page.now }
{
    is_alike::<16>(page, 0)
}
