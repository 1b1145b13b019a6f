// Runs over two flashes, turn by turn.
ghost use Rattle.std.specs.Prelude.{◌≡◌, ◌+◌, true, false, [], ◌∷◌, Some};
ghost use Rattle.block_machine.specs.Words.{EraseJob, Found, Read, Restore, Write};
ghost use Rattle.block_machine.specs.Steps.{after, job_at};
ghost use Rattle.promise_run.specs.JobTurns.{job_turns, job_turns_of_both, pages_of_both, try_of_both};
ghost use Rattle.promise_run.specs.TurnsOfBoth.{KeepsTurnsOfBoth};
ghost use Rattle.promise_run.specs.Cases.{always, one, small};
ghost use Rattle.script_walks.specs.Words.{Cut, CutSecond};
ghost use Rattle.promise_run.specs.UrgentCases.{posted_with};
ghost use Rattle.promise_run.specs.KeptCases.{at_immediate, at_none};
ghost use Rattle.promise_run.specs.BothCases.{ComesIn, CountedInAll, CountsFailedOfBoth, IsInTimeOfBoth, IsSealed, MayBeMadeOfBoth, goes_off, made_untold, makes_five, makes_one, makes_two, seven_turns, two_devices};

/// With a job on a block of the second device in hand an operation is the second flash's: one that failed is counted in its own
/// move, and one of the first flash that failed, or that took a page kept for urgent writes or left a switch at its seal, isn't it.
#[tactic(auto, using(crate::proofs::BothCases::not_told_late, crate::proofs::BothCases::not_by_none, crate::proofs::BothCases::sealed))]
pub fn operations_are_of_the_job_in_hand()
    ensures of_second { CountsFailedOfBoth true 1 1 }
    ensures told_late { CountsFailedOfBoth true 0 1 → ⊥ }
    ensures of_first { CountsFailedOfBoth false 0 1 }
    ensures kept_page { MayBeMadeOfBoth false at_none → ⊥ }
    ensures kept_page_by_urgent { MayBeMadeOfBoth false at_immediate }
    ensures slot_page { MayBeMadeOfBoth true at_none }
    ensures sealed { IsSealed false 0 }
    ensures slot_behind { IsSealed true 0 → ⊥ }
    ensures started_since { IsSealed false 1 → ⊥ }
{}

/// The faults of both flashes are those that the moves tell, and no more.
#[tactic(auto, using(crate::proofs::BothCases::three_counted))]
pub fn faults_of_both_are_counted()
    ensures three { CountedInAll 3 }
    ensures four { CountedInAll 4 → ⊥ }
{}

/// An urgent write of a block of the first device is posted with the eighth turn, and not with the ninth; of one of the second
/// device nothing is said.
#[tactic(auto, using(crate::proofs::BothCases::in_time, crate::proofs::BothCases::not_late))]
pub fn urgent_writes_are_posted_soon_by_the_first()
    ensures eight { IsInTimeOfBoth false (posted_with 0 2) }
    ensures nine { IsInTimeOfBoth false (posted_with 0 3) → ⊥ }
    ensures of_second { IsInTimeOfBoth true (posted_with 0 3) }
{}

/// A cut comes with an operation of the flash that it is planned for, counted by its own operations: one that is planned for the
/// second operation of the second flash comes in it, and none is missed where that flash makes two and one was planned for the first
/// of them. One of the other flash doesn't come in these, and one of three isn't due. A fault may put it off by one.
pub fn cuts_of_both_come()
    ensures comes { ComesIn true (CutSecond 2 0) goes_off }
    ensures missed { ComesIn true (CutSecond 1 0) (makes_two 0) → ⊥ }
    ensures of_first { ComesIn false (Cut 1 0) (makes_two 0) → ⊥ }
    ensures of_the_other { ComesIn true (Cut 1 0) (makes_two 0) }
    ensures of_the_other_one { ComesIn false (CutSecond 1 0) (makes_two 0) }
    ensures later { ComesIn true (CutSecond 3 0) (makes_two 0) }
    ensures at_a_fault { ComesIn true (CutSecond 2 0) (makes_two 1) }
    ensures missed_at_a_fault { ComesIn true (CutSecond 1 0) (makes_two 1) → ⊥ }
{}

/// A write of the second device, whose slot takes five operations, has its turns: its seventh turn posts it. No operation of either
/// flash is left out of the moves.
#[tactic(auto, using(crate::proofs::SevenTurns::kept, crate::proofs::SevenTurns::not_untold))]
pub fn turns_of_both_are_kept()
    ensures seven { KeepsTurnsOfBoth (always 8) seven_turns makes_five seven_turns.course }
    ensures untold { KeepsTurnsOfBoth (always 8) made_untold makes_one made_untold.course → ⊥ }
{}

/// A write of a content of four bytes to a slot takes five turns, as many pages, and one for its Post, beside a switch of the first
/// device's two records, which takes seventeen; a read takes one, and a restore none. Without a second device a job takes as many as over one.
pub fn turns_of_slots()
    ensures of_a_write { job_turns_of_both two_devices (after two_devices (Found [] 0 ∷ [])) (job_at two_devices 1 (Write 2 (Some one) 0)) ≡ 17 + 5 + 1 }
    ensures of_a_read { job_turns_of_both two_devices (after two_devices (Found [] 0 ∷ [])) (job_at two_devices 1 (Read 2 false)) ≡ 17 + 1 + 1 }
    ensures of_a_restore { job_turns_of_both two_devices (after two_devices (Found [] 0 ∷ [])) (job_at two_devices 1 (Restore 2 false)) ≡ 17 + 1 }
    ensures pages { pages_of_both two_devices (record { block = 2; index = 0 }) ≡ 5 }
    ensures of_an_erase { try_of_both two_devices EraseJob (record { block = 2; index = 0 }) ≡ 5 }
    ensures of_one { job_turns_of_both small (after small (Found [] 0 ∷ [])) (job_at small 1 (Write 2 (Some one) 0)) ≡ job_turns small (after small (Found [] 0 ∷ [])) (job_at small 1 (Write 2 (Some one) 0)) }
{}
