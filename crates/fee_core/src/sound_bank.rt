// Whether a bank is sound.
ghost use Rattle.std.specs.Prelude.{◌↔◌, length, IsTrue};
ghost use Rattle.fee_format.specs.Gate.{IsGate};
ghost use Rattle.fee_format.specs.SoundHead.{IsSoundHead};

use fee_format::{gate_stands, is_sound_head};

/// Whether a bank with these two first pages is one of a sound image: where the gate is open, the page before it may stand there.
pub fn is_sound_bank(head: &[u8], gate: &[u8]) -> bool
    ensures { IsTrue result ↔ (IsGate (length gate.now) gate.now → IsSoundHead head.now) }
{
    !gate_stands(gate) || is_sound_head(head)
}
