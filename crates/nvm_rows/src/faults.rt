// The calls of a run that fail.
use std::alloc::{AllocError, Global};

/// The takes of input and the puts of output that fail, and of the flash the changing operations, each with the bytes of
/// it that are done, and the reads.
#[derive(Drop)]
pub struct Faults {
    pub takes: Vec<u64>,
    pub puts: Vec<u64>,
    pub operations: Vec<(u64, u32)>,
    pub reads: Vec<u64>,
}

/// Which calls of the flash fail: changing operations, with the bytes of one that are done, or reads.
#[derive(Clone, Copy)]
pub enum Failing {
    Operation { keep: u32 },
    Read,
}

/// One more fault of the flash, at its nth call of these.
#[derive(Clone, Copy)]
pub struct Fault {
    pub failing: Failing,
    pub nth: u64,
}

impl Faults {
    pub fn none(alloc: Global) -> Faults {
        Faults {
            takes: Vec::new(alloc),
            puts: Vec::new(alloc),
            operations: Vec::new(alloc),
            reads: Vec::new(alloc),
        }
    }

    /// These faults of the flash, with one more.
    pub fn of_flash(&self, alloc: Global, fault: Option<Fault>) -> Result<Faults, AllocError> {
        let mut operations = self.operations.as_slice().to_vec(alloc)?;
        let mut reads = self.reads.as_slice().to_vec(alloc)?;
        if let Some(Fault { failing, nth }) = fault {
            match failing {
                Failing::Operation { keep } => operations.push((nth, keep))?,
                Failing::Read => reads.push(nth)?,
            }
        }
        Ok(Faults {
            takes: Vec::new(alloc),
            puts: Vec::new(alloc),
            operations,
            reads,
        })
    }
}
