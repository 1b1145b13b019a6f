// A step as a script keeps it.
ghost use Rattle.std.specs.Prelude.{◌≡◌, IfOk, IfSome, Some, replicate};
ghost use Rattle.nvm_script.specs.KeptStep.{is_cut, kept_kind};
ghost use Rattle.nv_base.specs.declared.request.Request.TheVariants.{Write, PutRam};
ghost use Rattle.nvm_script.specs.declared.step.StepKind.TheVariants.{Ask, Store};

use crate::{Step, StepKind};
use nv_base::{Bytes, Request, all_are};
use std::alloc::{AllocError, Global};
use std::marker::Model;

// Equal bytes: one of them, and how many they are.
#[derive(Clone, Copy)]
struct Run {
    byte: u8,
    count: usize,
}

impl Run {
    fn bytes(self, alloc: Global) -> Result<Bytes, AllocError>
        ensures { IfOk result (λ bytes. bytes ≡ replicate self.count self.byte) }
    {
        Ok(Bytes::from_vec(vec![in alloc; self.byte; self.count]?))
    }
}

// The run that five bytes or more are.
fn run_of(content: &Bytes) -> Option<Run>
    ensures { IfSome result (λ run. content.now ≡ replicate run.count run.byte) }
{
    let bytes = content.as_slice();
    if bytes.len() >= 5 && all_are(bytes, bytes[0]) {
        return Some(Run {
            byte: bytes[0],
            count: bytes.len(),
        });
    }
    None
}

// What a step asks for: as it is, or with a run for its content.
#[derive(Drop)]
enum KeptKind {
    Whole(StepKind),
    Write { block: u16, run: Run, store: u64 },
    PutRam { block: u16, run: Run },
    Store { block: u16, run: Run },
}

/// A step of a script, with its content in few bytes where these are equal. Contracts see the step.
#[derive(Drop)]
pub struct KeptStep {
    line: u32,
    caller: u8,
    kind: KeptKind,
}

impl Model for KeptStep {
    ghost use Rattle.nvm_script.specs.declared.step.Step.{Step};
    ghost use Rattle.nvm_script.specs.KeptStep.{kept_kind};

    ghost Value = { Step };

    ghost view = { λ s. record { line = s.line; caller = s.caller; kind = kept_kind s.kind } };
}

// That of a content, where there is one.
fn run_in(content: &Option<Bytes>) -> Option<Run>
    ensures { IfSome result (λ run. content.now ≡ Some (replicate run.count run.byte)) }
{
    match content {
        Some(content) => run_of(content),
        None => None,
    }
}

fn kept_write(block: u16, content: Option<Bytes>, store: u64) -> KeptKind
    ensures { kept_kind result ≡ Ask (Write block content store) }
{
    match run_in(&content) {
        Some(run) => KeptKind::Write { block, run, store },
        None => KeptKind::Whole(StepKind::Ask(Request::Write {
            block,
            content,
            store,
        })),
    }
}

fn kept_put(block: u16, content: Bytes) -> KeptKind
    ensures { kept_kind result ≡ Ask (PutRam block content) }
{
    match run_of(&content) {
        Some(run) => KeptKind::PutRam { block, run },
        None => KeptKind::Whole(StepKind::Ask(Request::PutRam { block, content })),
    }
}

fn kept_store(block: u16, content: Bytes) -> KeptKind
    ensures { kept_kind result ≡ Store block content }
{
    match run_of(&content) {
        Some(run) => KeptKind::Store { block, run },
        None => KeptKind::Whole(StepKind::Store { block, content }),
    }
}

fn kept(kind: StepKind) -> KeptKind
    ensures { kept_kind result ≡ kind }
{
    match kind {
        StepKind::Ask(request) => match request {
            Request::Write {
                block,
                content,
                store,
            } => kept_write(block, content, store),
            Request::PutRam { block, content } => kept_put(block, content),
            request => KeptKind::Whole(StepKind::Ask(request)),
        },
        StepKind::Store { block, content } => kept_store(block, content),
        kind => KeptKind::Whole(kind),
    }
}

fn whole_kind(alloc: Global, kind: KeptKind) -> Result<StepKind, AllocError>
    ensures { IfOk result (λ k. k ≡ kept_kind kind) }
{
    match kind {
        KeptKind::Whole(kind) => Ok(kind),
        KeptKind::Write { block, run, store } => {
            let content = Some(run.bytes(alloc)?);
            Ok(StepKind::Ask(Request::Write {
                block,
                content,
                store,
            }))
        }
        KeptKind::PutRam { block, run } => {
            let content = run.bytes(alloc)?;
            Ok(StepKind::Ask(Request::PutRam { block, content }))
        }
        KeptKind::Store { block, run } => {
            let content = run.bytes(alloc)?;
            Ok(StepKind::Store { block, content })
        }
    }
}

fn copy_of(kind: &KeptKind) -> Result<KeptKind, AllocError>
    ensures { IfOk result (λ k. kept_kind k ≡ kept_kind kind.now) }
{
    match kind {
        KeptKind::Whole(kind) => Ok(KeptKind::Whole(kind.clone()?)),
        KeptKind::Write { block, run, store } => Ok(KeptKind::Write {
            block: *block,
            run: *run,
            store: *store,
        }),
        KeptKind::PutRam { block, run } => Ok(KeptKind::PutRam {
            block: *block,
            run: *run,
        }),
        KeptKind::Store { block, run } => Ok(KeptKind::Store {
            block: *block,
            run: *run,
        }),
    }
}

impl KeptStep {
    /// Keeps a step.
    pub fn of(step: Step) -> KeptStep
        ensures { result ≡ step }
    {
        let Step { line, caller, kind } = step;
        KeptStep {
            line,
            caller,
            kind: kept(kind),
        }
    }

    /// Its line of the input.
    pub fn line(&self) -> u32
        ensures { result ≡ self.now.line }
    {
        self.line
    }

    /// Who makes it.
    pub fn caller(&self) -> u8
        ensures { result ≡ self.now.caller }
    {
        self.caller
    }

    /// Whether it plans a power cut.
    pub fn is_cut(&self) -> bool
        ensures { result ≡ is_cut self.now.kind }
    {
        matches!(self.kind, KeptKind::Whole(StepKind::Cut { .. }))
    }

    /// The step itself, with its content.
    pub fn whole(self, alloc: Global) -> Result<Step, AllocError>
        ensures { IfOk result (λ step. step ≡ self) }
    {
        let KeptStep { line, caller, kind } = self;
        let kind = whole_kind(alloc, kind)?;
        Ok(Step { line, caller, kind })
    }

    /// A copy of the step itself.
    pub fn copy(&self, alloc: Global) -> Result<Step, AllocError>
        ensures { IfOk result (λ step. step ≡ self.now) }
    {
        let kind = whole_kind(alloc, copy_of(&self.kind)?)?;
        Ok(Step {
            line: self.line,
            caller: self.caller,
            kind,
        })
    }
}
