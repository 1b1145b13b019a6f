// The most turns of jobs.
ghost use Rattle.std.specs.Prelude.{◌≡◌, ◌+◌, Some, false, [], ◌∷◌, drop};
ghost use Rattle.block_machine.specs.Words.{Read, Write, Restore, Found};
ghost use Rattle.block_machine.specs.Steps.{after, job_at};
ghost use Rattle.promise_run.specs.Cases.{small, one};
ghost use Rattle.promise_run.specs.JobTurns.{job_turns};
ghost use Rattle.promise_run.specs.Turns.{IsPostedWithin};
ghost use Rattle.promise_run.specs.UrgentCases.{fault_at, idle, writes};

/// On banks of one sector, with three records of four pages each, a switch takes twenty-two turns. A write waits for one, and
/// may need another before its own five; a read takes one of its own, and a restore none. Each has one for its Post.
pub fn turns_of_jobs()
    ensures of_a_write { job_turns small (after small (Found [] 0 ∷ [])) (job_at small 1 (Write 2 (Some one) 0)) ≡ 22 + 22 + 5 + 1 }
    ensures of_a_read { job_turns small (after small (Found [] 0 ∷ [])) (job_at small 1 (Read 2 false)) ≡ 22 + 1 + 1 }
    ensures of_a_restore { job_turns small (after small (Found [] 0 ∷ [])) (job_at small 1 (Restore 2 false)) ≡ 22 + 1 }
{}

/// A fault that is counted gives the job in hand its turns anew, two of them here, and not a third one, nor more than it has in all:
/// of two in all the second one posts it, though both count a fault.
#[tactic(auto, using(crate::proofs::OneByOne::renewed, crate::proofs::OneByOne::not_renewed_again, crate::proofs::OneByOne::in_all, crate::proofs::OneByOne::not_for_ever))]
pub fn faults_renew_turns()
    ensures with_the_last_turn { IsPostedWithin 2 2 9 1 0 (idle 1 2 (drop 4 (writes 1))) }
    ensures a_third_turn { IsPostedWithin 2 2 9 2 0 (idle 1 3 (drop 4 (writes 1))) → ⊥ }
    ensures of_three { IsPostedWithin 2 2 3 2 0 (fault_at 1 ∷ fault_at 2 ∷ []) }
    ensures of_two { IsPostedWithin 2 2 2 2 0 (fault_at 1 ∷ fault_at 2 ∷ []) → ⊥ }
{}
