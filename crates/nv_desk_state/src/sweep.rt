// A request on all blocks that is pending.
ghost use Rattle.std.specs.Prelude.{◌≡◌, ◌∷◌, ℕ, List, drop, true, false};
ghost use Rattle.block_machine.specs.Words.{Configuration};
ghost use Rattle.block_machine.specs.State.{Sweep as MachineSweep};
ghost use Rattle.block_machine.specs.Sweeps.{member_entries, sweep_entries, sweep_at, after_member, is_done};
ghost use Rattle.block_machine.specs.Reply.{can_cancel};
ghost use Rattle.nv_desk_state.specs.Pending.{IsSweep, IsNoted};

use block_machine::nv_base::{JobKind, ReqResult};
use multi_jobs::Sweep;

/// A request on all blocks, from its acceptance to the Post of id 0: the number of the entry that accepted it, whether it
/// was picked, the entries that are reserved for it, and its members to come.
#[derive(Drop)]
pub struct PendingSweep {
    pub number: u32,
    pub under_way: bool,
    pub entries: u32,
    pub members: Sweep,
}

impl PendingSweep {
    /// A WriteAll that entry `number` accepts, or else a ReadAll, with so many entries reserved for it.
    pub fn accepted(number: u32, writes: bool, entries: u32) -> PendingSweep
        ensures { (c : Configuration) → entries ≡ sweep_entries c (sweep_at c 0 writes) → IsSweep c result (sweep_at c number writes) }
    {
        let job = if writes {
            JobKind::WriteAll
        } else {
            JobKind::ReadAll
        };
        PendingSweep {
            number,
            under_way: false,
            entries,
            members: Sweep::begin(job),
        }
    }

    /// It takes no further member.
    pub fn cancel(&mut self)
        ensures canceled { (c : Configuration) (sw : MachineSweep) → IsSweep c self.old sw → IsSweep c self.new (record sw { canceled = true }) }
        ensures noted { (c : Configuration) (sw : MachineSweep) (id : ℕ) → IsNoted c self.old sw id → IsNoted c self.new (record sw { canceled = true }) id }
    {
        self.members.cancel();
    }

    /// Whether it is a WriteAll that wasn't canceled.
    pub fn can_cancel(&self) -> bool
        ensures { (c : Configuration) (sw : MachineSweep) → IsSweep c self.now sw → result ≡ can_cancel sw }
    {
        self.members.can_cancel()
    }

    /// It is picked, and uses one of its entries.
    pub fn begin(&mut self)
        ensures { (c : Configuration) (sw : MachineSweep) → IsSweep c self.old sw → sw.under_way ≡ false → IsSweep c self.new (record sw { under_way = true }) }
    {
        self.under_way = true;
        self.entries = self.entries.saturating_sub(1);
    }

    /// Its next member, this block, comes in hand, or is posted without a Pick, for which these entries were reserved.
    pub fn take(&mut self, block: u16, entries: u32)
        ensures left { (c : Configuration) (sw : MachineSweep) (rest : List ℕ) → IsSweep c self.old sw → sw.canceled ≡ false
            → sw.left ≡ block ∷ rest → entries ≡ member_entries c sw.writes block
            → IsSweep c self.new (record sw { left = drop 1 sw.left }) }
        ensures noted { (c : Configuration) (sw : MachineSweep) (rest : List ℕ) → IsSweep c self.old sw → sw.canceled ≡ false
            → sw.left ≡ block ∷ rest → IsNoted c self.new (record sw { left = drop 1 sw.left }) block }
    {
        self.members.pass(block);
        self.entries = self.entries.saturating_sub(entries);
    }

    /// The result of the member that was taken last counts. One that isn't under way took none.
    pub fn note(&mut self, answer: ReqResult)
        ensures { (c : Configuration) (sw : MachineSweep) (id : ℕ) → IsSweep c self.old sw
            → (sw.under_way ≡ true → IsNoted c self.old sw id) → IsSweep c self.new (after_member id answer sw) }
    {
        if self.under_way {
            self.members.note(answer, is_done(answer));
        }
    }
}

/// Whether a block was read or written.
pub fn is_done(answer: ReqResult) -> bool
    ensures { result ≡ is_done answer }
{
    matches!(answer, ReqResult::Fine | ReqResult::RedundancyFailed)
}
