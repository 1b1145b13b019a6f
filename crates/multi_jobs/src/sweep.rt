// A request on all blocks under way.
ghost use Rattle.std.specs.Prelude.{◌≡◌, ◌≤◌, ◌&&◌, not, true, Some, IfSome};
ghost use Rattle.block_machine.specs.Blocks.{desc_of};
ghost use Rattle.block_machine.specs.Sweeps.{spoils};
ghost use Rattle.multi_jobs.specs.Sweep.{sweep_of, next_member, noted, moved, step_of, step_on, result_of, is_picked_by, place_behind};

use crate::members::member_behind;
use block_machine::block_config::Config;
use block_machine::nv_base::{JobKind, ReqResult};
use std::marker::Model;

/// What decides whether a member is picked: whether its block is locked or protected, whether its RAM is valid and
/// changed, and whether it is a dataset whose index names ROM.
#[derive(Clone, Copy)]
pub struct MemberFacts {
    pub locked: bool,
    pub protected: bool,
    pub valid: bool,
    pub changed: bool,
    pub rom_index: bool,
}

/// What comes next: a member is picked; it is skipped, or posted with its defaults if it has some, without a Pick; or
/// the sweep ends with the result of id 0.
#[derive(Clone, Copy)]
pub enum SweepStep {
    Member { block: u16 },
    Skip { block: u16 },
    Defaults { block: u16 },
    Ended { result: ReqResult },
}

/// Which members are to come: all, block 1 first; those behind block 1 and so many blocks more; or none.
#[derive(Clone, Copy)]
pub enum Place {
    First,
    Behind { passed: u16 },
    Over,
}

/// A request on all blocks under way: a WriteAll, or else a ReadAll; whether it was canceled, whether block 1 gave the
/// configuration id, and whether a member spoiled it.
#[derive(Drop)]
pub struct Sweep {
    writes: bool,
    place: Place,
    canceled: bool,
    same: bool,
    spoiled: bool,
}

impl Model for Sweep {
    ghost use Rattle.multi_jobs.specs.Sweep.{SweepState};

    ghost Value = { SweepState };

    ghost view = { λ s. record { writes = s.writes; place = s.place; canceled = s.canceled; same = s.same; spoiled = s.spoiled } };
}

impl Sweep {
    /// A WriteAll that begins, or else a ReadAll.
    pub fn begin(job: JobKind) -> Sweep
        ensures { result ≡ sweep_of job }
    {
        let writes = job == JobKind::WriteAll;
        Sweep {
            writes,
            place: if writes {
                Place::Behind { passed: 0 }
            } else {
                Place::First
            },
            canceled: false,
            same: false,
            spoiled: false,
        }
    }

    /// Whether it is a WriteAll, and no ReadAll.
    pub fn writes(&self) -> bool
        ensures { result ≡ self.now.writes }
    {
        self.writes
    }

    /// The block of the next member. None exactly where no member is left or the sweep was canceled.
    pub fn peek(&self, config: &Config) -> Option<u16>
        ensures next { result ≡ next_member config.now self.now }
        ensures above { IfSome result (λ id. 1 ≤ id) }
    {
        if self.canceled {
            return None;
        }
        match self.place {
            Place::First => Some(1),
            Place::Over => None,
            Place::Behind { passed } => match member_behind(config, passed, self.writes) {
                Some(block) => Some(block),
                None if self.writes => Some(1),
                None => None,
            },
        }
    }

    /// Takes the result of the last member, if there was one, with whether block 1 gave the configuration id, and the facts
    /// of the next one, and answers what comes next.
    pub fn next(
        &mut self,
        config: &Config,
        last: Option<ReqResult>,
        same_id: bool,
        facts: MemberFacts,
    ) -> SweepStep
        ensures step { result ≡ step_of config.now (noted last same_id self.old) facts }
        ensures moved { self.new ≡ moved config.now (noted last same_id self.old) }
    {
        if let Some(last) = last {
            self.note(last, same_id);
        }
        let member = self.peek(config);
        let step = self.step(config, member, facts);
        if let Some(block) = member {
            self.pass(block);
        }
        step
    }

    /// What comes next, where this is the next member, if there is one, and these are its facts. Nothing changes.
    pub fn step(&self, config: &Config, member: Option<u16>, facts: MemberFacts) -> SweepStep
        ensures { result ≡ step_on config.now self.now facts member }
    {
        match member {
            Some(block) => self.step_on(config, block, facts),
            None => SweepStep::Ended {
                result: self.result(),
            },
        }
    }

    /// The next member, which is this block, isn't to come any more.
    pub fn pass(&mut self, block: u16)
        ensures { self.new ≡ record self.old { place = place_behind self.old.place block } }
    {
        self.place = match self.place {
            Place::First => Place::Behind { passed: 0 },
            _ if block == 1 => Place::Over,
            _ => Place::Behind {
                passed: block.saturating_sub(1),
            },
        };
    }

    /// The result of the last member counts, with whether block 1 gave the configuration id.
    pub fn note(&mut self, last: ReqResult, same_id: bool)
        ensures { self.new ≡ noted (Some last) same_id self.old }
    {
        if matches!(self.place, Place::Behind { passed: 0 }) && !self.writes {
            self.same = same_id;
        }
        self.spoiled = self.spoiled || spoils(last);
    }

    /// Takes no further member. The one in hand ends.
    pub fn cancel(&mut self)
        ensures { self.new ≡ record self.old { canceled = true } }
    {
        self.canceled = true;
    }

    /// Whether it is a WriteAll that wasn't canceled.
    pub fn can_cancel(&self) -> bool
        ensures { result ≡ (self.now.writes && not self.now.canceled) }
    {
        self.writes && !self.canceled
    }

    fn result(&self) -> ReqResult
        ensures { result ≡ result_of self.now }
    {
        if self.canceled {
            ReqResult::Canceled
        } else if self.spoiled {
            ReqResult::NotOk
        } else {
            ReqResult::Fine
        }
    }

    fn step_on(&self, config: &Config, block: u16, facts: MemberFacts) -> SweepStep
        ensures { result ≡ step_on config.now self.now facts (Some block) }
    {
        if self.is_picked(config, block, facts) {
            SweepStep::Member { block }
        } else if self.writes {
            SweepStep::Skip { block }
        } else {
            SweepStep::Defaults { block }
        }
    }

    fn is_picked(&self, config: &Config, block: u16, facts: MemberFacts) -> bool
        ensures { result ≡ is_picked_by config.now self.now facts block }
    {
        if self.writes {
            facts.valid && facts.changed && !facts.locked && !facts.protected && !facts.rom_index
        } else {
            block == 1 || self.same || resists(config, block)
        }
    }
}

fn resists(config: &Config, block: u16) -> bool
    ensures { result ≡ (desc_of config.now block).resistant }
{
    match config.block(block) {
        Some(desc) => desc.resistant,
        None => false,
    }
}

fn spoils(last: ReqResult) -> bool
    ensures { result ≡ spoils last }
{
    matches!(
        last,
        ReqResult::NotOk
            | ReqResult::IntegrityFailed
            | ReqResult::Invalidated
            | ReqResult::RedundancyFailed
    )
}
