// The Pick of a request on all blocks.
ghost use Rattle.std.specs.Prelude.{◌≡◌, ◌++◌, ◌∷◌, [], Some, None};
ghost use Rattle.block_machine.specs.Words.{Configuration};
ghost use Rattle.block_machine.specs.State.{Sweep as MachineSweep};
ghost use Rattle.block_machine.specs.Sweeps.{sweep_result};
ghost use Rattle.block_machine.specs.Next.{next_of, BeginSweep, EndSweep};
ghost use Rattle.block_machine.specs.nv_base.declared.entry.Taken.TheVariants as Taken;
ghost use Rattle.nv_desk.specs.AllBlocks.{MayBegin, MayFinish, sweep_kind};
ghost use Rattle.nv_desk.specs.Desk.{state_of};
ghost use Rattle.nv_desk_state.specs.Pending.{AreSweeps};

use crate::Desk;
use crate::memory::add;
use crate::pick::add_pick;
use block_machine::nv_base::{Entry, JobKind, ReqResult};
use nv_desk_state::PendingSweep;
use nv_recorder::TakenKind;

impl Desk {
    /// The request on all blocks is picked, and its sweep begins. It takes no memory.
    pub fn pick_sweep(&mut self, ops: u64)
        requires { MayBegin self.old ops }
        ensures { (sw : MachineSweep) → next_of self.old.config (state_of self.old) ≡ BeginSweep sw → self.new ≡ record self.old { entries = self.old.entries ++ Entry.Pick 0 (sweep_kind sw.writes) Taken.Nothing ops ∷ [] } }
    {
        let job = sweep_kind(&self.kept.sweep);
        self.kept.pick_sweep();
        add_pick(&mut self.history, 0, job, TakenKind::Nothing, None, ops);
    }

    /// The sweep ends, and block id 0 is posted with its result, which is this. It takes no memory.
    pub fn post_sweep(&mut self, answer: ReqResult, ops: u64)
        requires { MayFinish self.old answer ops }
        ensures { (sw : MachineSweep) → next_of self.old.config (state_of self.old) ≡ EndSweep sw → self.new ≡ record self.old { entries = self.old.entries ++ Entry.Post 0 (sweep_result sw) None 0 ops ∷ [] } }
    {
        self.kept.end_sweep(answer);
        add(
            &mut self.history,
            Entry::Post {
                block: 0,
                result: answer,
                given: None,
                refused: 0,
                ops,
            },
        );
    }
}

// What a request on all blocks does.
fn sweep_kind(sweep: &Option<PendingSweep>) -> JobKind
    ensures { (c : Configuration) (sw : MachineSweep) → AreSweeps c sweep.now (Some sw) → result ≡ sweep_kind sw.writes }
{
    match sweep {
        Some(sweep) if sweep.members.writes() => JobKind::WriteAll,
        _ => JobKind::ReadAll,
    }
}
