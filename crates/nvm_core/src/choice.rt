// What a turn has to do first.
ghost use Rattle.nvm_laws.specs.block_machine.Next.{next_of};
ghost use Rattle.nvm_laws.specs.nv_desk.Desk.{state_of};
ghost use Rattle.nvm_core.specs.Choice.{IsCase, IsNextCase};

use nvm_laws::{Desk, Hand, NextEntry};

/// The cases of a turn, in their order.
#[derive(Clone, Copy)]
pub(crate) enum Case {
    /// The power is off.
    Off,
    /// The job in hand is finished.
    Post,
    /// An immediate job waits, and the one in hand is a standard one.
    Interrupt,
    /// The job in hand goes on.
    Work,
    /// No job is in hand, and this Pick comes next.
    Pick { next: NextEntry },
    /// No job is in hand, and this Post without a Pick comes next.
    Skip { next: NextEntry },
    /// No job is in hand, and nothing comes next.
    Rest,
}

/// The first that holds. Each turn asks for it once, and an idle one for little else: it is a part of its caller.
#[inline(always)]
pub(crate) fn case_of(desk: &Desk, hand: &Option<Hand>) -> Case
    ensures { IsCase result desk.now hand.now }
{
    if desk.is_off() {
        return Case::Off;
    }
    let Some(hand) = hand else {
        return next_case(desk);
    };
    if hand.is_finished() {
        Case::Post
    } else if desk.may_interrupt() {
        Case::Interrupt
    } else {
        Case::Work
    }
}

// The case where no job is in hand.
#[inline(always)]
fn next_case(desk: &Desk) -> Case
    ensures { IsNextCase result (next_of desk.now.config (state_of desk.now)) }
{
    let next = desk.next();
    match next {
        NextEntry::PickJob | NextEntry::BeginSweep | NextEntry::PickMember { .. } => {
            Case::Pick { next }
        }
        NextEntry::PostMember { .. } | NextEntry::EndSweep { .. } => Case::Skip { next },
        NextEntry::Nothing => Case::Rest,
    }
}
