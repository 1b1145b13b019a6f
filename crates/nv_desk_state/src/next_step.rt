// What comes next in a request on all blocks.
ghost use Rattle.std.specs.Prelude.{◌≡◌, ◌<◌, ℕ, true, length, Some};
ghost use Rattle.block_machine.specs.State.{State, Sweep as MachineSweep};
ghost use Rattle.block_machine.specs.Next.{next_in_sweep};
ghost use Rattle.multi_jobs.specs.Laws.{AreFacts, IsNext, facts_of};
ghost use Rattle.nv_desk_state.specs.Kept.{Agrees};
ghost use Rattle.nv_desk_state.specs.Pending.{IsAtMember};

use crate::described::{is_dataset, stored};
use crate::kept::Kept;
use block_machine::block_config::Config;
use block_machine::nv_base::ReqResult;
use multi_jobs::{MemberFacts, SweepStep};

impl Kept {
    /// What comes next in the sweep under way. The member that it is at has a place for its job.
    pub fn next_step(&self, config: &Config) -> SweepStep
        ensures next { (s : State) (sw : MachineSweep) → Agrees config.now self.now s → s.sweep ≡ Some sw → sw.under_way ≡ true → IsNext result sw (next_in_sweep config.now s sw) }
        ensures known { (s : State) (sw : MachineSweep) (id : ℕ) → Agrees config.now self.now s → IsAtMember s sw id → id < self.now.jobs.slots.places }
    {
        let _blocks = config.blocks();
        let Some(sweep) = &self.sweep else {
            return SweepStep::Ended {
                result: ReqResult::Fine,
            };
        };
        let member = sweep.members.peek(config);
        let facts = self.member_facts(config, member);
        sweep.members.step(config, member, facts)
    }

    // What decides whether a member is picked, where there is one.
    fn member_facts(&self, config: &Config, member: Option<u16>) -> MemberFacts
        ensures { (s : State) → Agrees config.now self.now s → AreFacts config.now s member result }
    {
        self.facts_of(config, member.unwrap_or(0))
    }

    fn facts_of(&self, config: &Config, id: u16) -> MemberFacts
        ensures { (s : State) → Agrees config.now self.now s → result ≡ facts_of config.now s id }
    {
        let facts = self.blocks.facts(id);
        let flags = self.blocks.flags(id);
        MemberFacts {
            locked: facts.locked,
            protected: facts.protected,
            valid: flags.valid,
            changed: flags.changed,
            rom_index: is_dataset(config, id) && stored(config, id) <= facts.index,
        }
    }
}
