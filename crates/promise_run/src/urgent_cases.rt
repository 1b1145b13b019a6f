// Urgent writes.
ghost use Rattle.promise_run.specs.UrgentCases.{roomy, full, half_full, at_another, posted_with, IsInTime, IsInTimeBeside, IsInTimeFrom, IsBehindOthers};

/// An urgent write of a record of four pages, in a bank that has room for it, is posted with the eighth turn, and not with the
/// ninth, unless a fault is counted or the bank is full; a job in hand takes none of these pages. The Post of another job before
/// it isn't counted, but that of a second one is. Beside callers it is posted with the ninth turn, and not with the tenth.
#[tactic(auto, using(crate::proofs::UrgentCases::in_time, crate::proofs::UrgentCases::not_late, crate::proofs::UrgentCases::faulty, crate::proofs::UrgentCases::not_promised, crate::proofs::UrgentCases::not_late_beside, crate::proofs::UrgentCases::not_behind, crate::proofs::UrgentCases::not_behind_two, crate::proofs::UrgentCases::beside, crate::proofs::UrgentCases::not_late_of_callers))]
pub fn urgent_writes_are_posted_soon()
    ensures eight { IsInTime roomy (posted_with 0 2) }
    ensures nine { IsInTime roomy (posted_with 0 3) → ⊥ }
    ensures at_a_fault { IsInTime roomy (posted_with 1 3) }
    ensures without_room { IsInTime full (posted_with 0 3) }
    ensures nine_beside_a_job { IsInTimeFrom half_full at_another (posted_with 0 3) → ⊥ }
    ensures behind_another { IsBehindOthers 1 2 8 }
    ensures late_behind_another { IsBehindOthers 1 3 8 → ⊥ }
    ensures behind_two { IsBehindOthers 2 1 8 }
    ensures late_behind_two { IsBehindOthers 2 2 8 → ⊥ }
    ensures nine_beside_callers { IsInTimeBeside roomy (posted_with 0 3) }
    ensures ten_beside_callers { IsInTimeBeside roomy (posted_with 0 4) → ⊥ }
{}
