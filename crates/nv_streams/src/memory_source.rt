// A source in memory.
ghost use Rattle.std.specs.Prelude.{◌≡◌, ℕ, List, Option, Some, IfOk, length};
ghost use Rattle.nv_streams.specs.Source.{IsGiven, IsFailedTake};
ghost use Rattle.nv_streams.specs.MemorySource.{FailsAsListed};

use crate::{Source, SourceAnswer};
use std::alloc::{AllocError, Global};
use std::marker::Model;

/// A source over bytes in memory, for tests. Its listed calls fail and take nothing; every other call fills its piece
/// while bytes are left. Contracts see the bytes left, the listed calls, the calls so far and the faults.
#[derive(Drop)]
pub struct MemSource {
    bytes: Vec<u8>,
    at: usize,
    failing: Vec<u64>,
    calls: u64,
    faults: u64,
}

impl Model for MemSource {
    ghost use Rattle.std.specs.Prelude.{◌≤◌, drop, vec_len};
    ghost use Rattle.nv_streams.specs.MemorySource.{SourceInMemory};

    ghost Value = { SourceInMemory };

    ghost view = { λ s. record { left = drop s.at s.bytes.items; failing = s.failing.items; calls = s.calls; faults = s.faults } };

    ghost invariant = { λ s. s.at ≤ vec_len s.bytes };
}

/// A source of these bytes whose calls with the listed numbers, from 1, fail.
pub fn mem_source(alloc: Global, bytes: &[u8], failing: &[u64]) -> Result<MemSource, AllocError>
    ensures { IfOk result (λ s. s ≡ record { left = bytes.now; failing = failing.now; calls = 0; faults = 0 }) }
{
    Ok(MemSource {
        bytes: bytes.to_vec(alloc)?,
        at: 0,
        failing: failing.to_vec(alloc)?,
        calls: 0,
        faults: 0,
    })
}

impl Source for MemSource {
    ghost left = { λ s. Some s.left };

    ghost faults = { λ s. s.faults };

    fn take(&mut self, into: &mut [u8]) -> SourceAnswer
        ensures got { IsGiven result (Some self.old.left) self.old.faults into.new (Some self.new.left) self.new.faults }
        ensures failed { IsFailedTake result (Some self.old.left) self.old.faults (Some self.new.left) self.new.faults }
        ensures listed { FailsAsListed result (length into.new) self.old self.new }
    {
        self.calls = self.calls.saturating_add(1);
        if self.failing.contains(&self.calls) {
            self.faults = self.faults.saturating_add(1);
            return SourceAnswer::Failed;
        }
        let count = into.len().min(self.bytes.len() - self.at);
        into[..count].copy_from_slice(&self.bytes[self.at..self.at + count]);
        self.at += count;
        SourceAnswer::Got(count)
    }
}
