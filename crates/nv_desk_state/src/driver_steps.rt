// What the driver's entries change of what is kept.
ghost use Rattle.std.specs.Prelude.{◌≡◌, ◌<◌, ◌+◌, ◌^◌, ◌&&◌, ◌++◌, ◌∷◌, true, false, ℕ, List, [], length, get_or, Option, Some, None, IfSome, option_copied, option_map};
ghost use Rattle.std.specs.Option.{option_and_then};
ghost use Rattle.block_machine.specs.Words.{Configuration, Instance, Mark};
ghost use Rattle.block_machine.specs.State.{State, Job as MachineJob, Sweep as MachineSweep};
ghost use Rattle.block_machine.specs.Blocks.{job_block, kind_of, names_ram, keeps_ram};
ghost use Rattle.block_machine.specs.Sweeps.{after_member};
ghost use Rattle.block_machine.specs.Legal.{HandIsFree};
ghost use Rattle.block_machine.specs.Next.{next_in};
ghost use Rattle.block_machine.specs.StartUp.{at_first, started_with};
ghost use Rattle.block_machine.specs.Steps.{in_hand, wrote, posted};
ghost use Rattle.job_pending.specs.Take.{taken_with};
ghost use Rattle.block_states.specs.States.{rooms_of};
ghost use Rattle.nv_desk_state.specs.Pending.{AreSweeps, IsMember};
ghost use Rattle.nv_desk_state.specs.Kept.{Agrees};

use crate::kept::Kept;
use crate::sweep::PendingSweep;
use block_machine::block_config::Config;
use block_machine::nv_base::{Bytes, ReqResult};
use job_pending::{Take, names_ram};

impl Kept {
    /// The power goes off.
    pub fn go_off(&mut self)
        ensures { (c : Configuration) (s : State) → Agrees c self.old s → Agrees c self.new (record s { off = true }) }
    {
        self.off = true;
    }

    /// The next job comes in hand with what it takes, and the copy of that, if one was made; one that is there is interrupted.
    pub fn pick(&mut self, config: &Config, take: Take, copy: Option<Bytes>)
        requires { IfSome self.old.jobs.hand (λ h. self.old.jobs.reserved + h.reserved + 2 < 2 ^ 32) }
        ensures { (s : State) (j : MachineJob) → Agrees config.now self.old s → next_in config.now s.waiting ≡ Some j
            → HandIsFree config.now s.hand j → Agrees config.now self.new (in_hand config.now s j (taken_with j.content (take, copy))) }
    {
        self.jobs.pick(config, take, copy);
    }

    /// The job in hand wrote an instance.
    pub fn wrote(&mut self, index: u8)
        requires { IfSome self.old.jobs.hand (λ h. length h.written < 2) }
        ensures { (c : Configuration) (s : State) (j : MachineJob) (i : Instance) (mark : Mark) → Agrees c self.old s → s.hand ≡ Some j
            → i.index ≡ index → Agrees c self.new (wrote s i mark (Some j)) }
    {
        self.jobs.wrote(index);
    }

    /// The job in hand ends with this result, and gives a content or nothing. Hands the content that it wrote back, if it has one.
    pub fn end(&mut self, config: &Config, answer: ReqResult, given: Option<&[u8]>) -> Option<Bytes>
        requires { IfSome self.old.jobs.hand (λ h. (names_ram h.request && keeps_ram config.now (job_block h)) ≡ true
            → IfSome (option_copied given) (λ x. length x ≡ get_or self.old.blocks.rooms (job_block h) 0)) }
        ensures posted { (s : State) (j : MachineJob) → Agrees config.now self.old s → s.hand ≡ Some j
            → Agrees config.now self.new (posted config.now s answer (option_copied given.entry) (Some j)) }
        ensures content { result ≡ option_map (λ x. x.0) (option_and_then (λ j. j.content) self.old.jobs.hand) }
    {
        let Some(job) = self.jobs.end() else {
            return None;
        };
        let ram = names_ram(job.request());
        self.blocks
            .end(config, job.block(), job.kind(), ram, answer, given);
        note(&mut self.sweep, answer);
        job.into_content()
    }

    /// What is kept is as before the first start-up. The memory stays.
    pub fn forget(&mut self)
        ensures { (c : Configuration) (s : State) → Agrees c self.old s → Agrees c self.new at_first }
    {
        self.started = false;
        self.off = false;
        self.blocks.forget();
        self.jobs.clear();
        self.sweep = None;
    }

    /// A start-up found no mark so far: nothing is pending.
    pub fn start_up(&mut self, config: &Config)
        requires { self.old.blocks.rooms ≡ rooms_of config.now }
        ensures { (s : State) → Agrees config.now self.old s → Agrees config.now self.new (started_with config.now s []) }
    {
        self.started = true;
        self.off = false;
        self.blocks.start_up(config);
        self.jobs.clear();
        self.sweep = None;
    }

    /// The start-up found a mark of this block too, behind the others.
    pub fn note_mark(&mut self, config: &Config, block: u16)
        ensures { (s : State) (marks : List (Instance × Mark)) (i : Instance) (mark : Mark) → i.block ≡ block → Agrees config.now self.old (started_with config.now s marks)
            → Agrees config.now self.new (started_with config.now s (marks ++ (i, mark) ∷ [])) }
    {
        self.blocks.note_mark(config, block);
    }
}

/// The result of a member counts, where one was in hand.
pub fn note(sweep: &mut Option<PendingSweep>, answer: ReqResult)
    ensures { (c : Configuration) (j : MachineJob) (sw : Option MachineSweep) → AreSweeps c sweep.old sw → IsMember c (Some j) sweep.old sw
        → AreSweeps c sweep.new (option_map (after_member (job_block j) answer) sw) }
{
    if let Some(sweep) = sweep {
        sweep.note(answer);
    }
}
