// What is kept in memory of an instance.
ghost use Rattle.std.specs.Prelude.{◌≡◌, ◌↔◌, [], length, IsTrue};
ghost use Rattle.ea_image.specs.Slots.{SlotBytes, fits_length, fitting, standing, newest};
ghost use Rattle.ea_image.specs.Memory.{memory_as, sequence_next, HasNext, has_next_head, no_memory, memory_done, memory_failed};

use crate::{LAST_SEQUENCE, SlotHead, SlotStep, Which, read_slot_head};
use fee_format::{RecordKind, gate_stands};

/// The slot that the next write goes to, the head of the other one, whose mark is settled, none where neither is, and the
/// head of the target where its gate is in doubt.
#[derive(Clone, Copy)]
pub struct SlotMemory {
    pub target: Which,
    pub settled: Option<SlotHead>,
    pub doubt: Option<SlotHead>,
}

fn fits_length(head: SlotHead, size: u16) -> bool
    ensures { result ≡ fits_length head.kind head.length size }
{
    match head.kind {
        RecordKind::Content => head.length == size,
        RecordKind::Invalid | RecordKind::Erased => true,
    }
}

// A head that says something of an instance of this size.
fn fitting(found: Option<SlotHead>, size: u16) -> Option<SlotHead>
    ensures { result ≡ fitting size found }
{
    match found {
        Some(head) if fits_length(head, size) => Some(head),
        _ => None,
    }
}

/// The head with which a slot of an instance of this size stands, by its head's page and its gate's: it fits, and its gate
/// is open.
pub fn slot_standing(head: &[u8], gate: &[u8], size: u16) -> Option<SlotHead>
    requires { length gate.now ≡ length head.now }
    ensures { result ≡ standing (length head.now) size (record { head = head.now; gate = gate.now; body = [] }) }
{
    if gate_stands(gate) {
        fitting(read_slot_head(head), size)
    } else {
        None
    }
}

/// Of two slots the one that counts: with the greater sequence, on a tie slot 0.
pub fn newest(first: Option<SlotHead>, second: Option<SlotHead>) -> Option<(Which, SlotHead)>
    ensures { result ≡ newest first second }
{
    match (first, second) {
        (None, None) => None,
        (Some(a), None) => Some((Which::Slot0, a)),
        (None, Some(b)) => Some((Which::Slot1, b)),
        (Some(a), Some(b)) => {
            if a.sequence < b.sequence {
                Some((Which::Slot1, b))
            } else {
                Some((Which::Slot0, a))
            }
        }
    }
}

impl SlotMemory {
    /// Of an instance that was never written.
    pub fn new() -> SlotMemory
        ensures { result ≡ no_memory }
    {
        SlotMemory {
            target: Which::Slot0,
            settled: None,
            doubt: None,
        }
    }

    /// Of the slot that counts, where one does.
    pub fn loaded(newest: Option<(Which, SlotHead)>) -> SlotMemory
        ensures { result ≡ memory_as newest }
    {
        match newest {
            None => SlotMemory::new(),
            Some((which, head)) => SlotMemory {
                target: which.other(),
                settled: Some(head),
                doubt: None,
            },
        }
    }

    /// Once a step of a write of this head was done: behind the first one nothing is in doubt, and behind the gate its head
    /// is settled and the other slot is the next target.
    pub fn done(self, step: SlotStep, head: SlotHead) -> SlotMemory
        ensures { result ≡ memory_done step head self }
    {
        match step {
            SlotStep::EraseHead => SlotMemory {
                doubt: None,
                ..self
            },
            SlotStep::Gate => SlotMemory {
                target: self.target.other(),
                settled: Some(head),
                doubt: None,
            },
            _ => self,
        }
    }

    /// Once it failed or was cut: a gate is in doubt.
    pub fn failed(self, step: SlotStep, head: SlotHead) -> SlotMemory
        ensures { result ≡ memory_failed step head self }
    {
        match step {
            SlotStep::Gate => SlotMemory {
                doubt: Some(head),
                ..self
            },
            _ => self,
        }
    }
}

/// Whether a write more may follow this settled head.
pub fn has_next(settled: Option<SlotHead>) -> bool
    ensures test { result ≡ has_next_head settled }
    ensures fact { IsTrue result ↔ HasNext settled }
{
    match settled {
        None => true,
        Some(head) => head.sequence < LAST_SEQUENCE,
    }
}

/// The sequence of the next write.
pub fn sequence_next(settled: Option<SlotHead>) -> u32
    requires { HasNext settled }
    ensures { result ≡ sequence_next settled }
{
    match settled {
        None => 1,
        Some(head) => head.sequence + 1,
    }
}
