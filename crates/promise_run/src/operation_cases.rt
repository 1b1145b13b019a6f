// Operations of a write.
ghost use Rattle.std.specs.Prelude.{[], ◌∷◌, None};
ghost use Rattle.promise_run.specs.Cases.{ErasesSoOften};
ghost use Rattle.promise_run.specs.OperationLaws.{RunsMakeFew};
ghost use Rattle.promise_run.specs.OperationCases.{HasWorkBehind, HasWorkOver, Tries, operation, started_again, starts_at, written_with};
ghost use Rattle.promise_run.specs.Turns.{AreMovesOf};
ghost use Rattle.script_walks.specs.Words.{Restart};
ghost use Rattle.promise_run.specs.UrgentCases.{at, roomy, half_full, full};

/// A record of four pages takes four operations, where these pages are free, and no switch of banks; where they aren't, one may come
/// before it. An urgent one leaves none free, so four that are free are enough. So a run makes no more operations than its tries and its faults add.
#[tactic(auto, using(crate::proofs::OperationCases::four, crate::proofs::OperationCases::switches, crate::proofs::OperationCases::not_for_nothing, crate::proofs::OperationCases::not_for_the_reserve))]
pub fn operations_are_bounded()
    ensures with_room { HasWorkOver roomy (written_with [] 4) }
    ensures without_room { HasWorkOver full (written_with (operation 4 ∷ []) 5) }
    ensures a_switch_for_nothing { HasWorkOver roomy (written_with (operation 4 ∷ []) 5) → ⊥ }
    ensures a_switch_for_the_reserve { HasWorkOver half_full (written_with (operation 4 ∷ []) 5) → ⊥ }
    ensures runs { RunsMakeFew }
{}

/// Behind a start-up, the first or a further one, no operation comes for nothing, unless a fault was counted: then a switch may go on.
/// A further start-up makes none itself, and its Found tells those of its own moment.
#[tactic(auto, using(crate::proofs::OperationCases::none_behind, crate::proofs::OperationCases::none_behind_another, crate::proofs::OperationCases::fault_behind, crate::proofs::OperationCases::fault_behind_another))]
pub fn start_ups_leave_nothing()
    ensures first { HasWorkOver roomy (operation 1 ∷ []) → ⊥ }
    ensures further { HasWorkOver roomy (started_again 0) → ⊥ }
    ensures first_with_a_fault { HasWorkBehind 1 roomy (record { entry = None; behind = at 1 1 } ∷ []) }
    ensures further_with_a_fault { HasWorkOver roomy (started_again 1) }
    ensures none_within { AreMovesOf Restart (at 0 0) (starts_at 0 0) }
    ensures one_within { AreMovesOf Restart (at 0 0) (starts_at 1 1) → ⊥ }
    ensures told_too_late { AreMovesOf Restart (at 0 0) (starts_at 1 0) → ⊥ }
{}

/// From a blank flash on, with one start-up and no fault, the first sector of a bank is erased once for the generation that is on its
/// way and once for the start-up, and not once more.
#[tactic(auto, using(crate::proofs::EraseCases::twice, crate::proofs::EraseCases::not_thrice))]
pub fn first_sectors_are_erased_for_causes()
    ensures twice { ErasesSoOften 2 }
    ensures once_more { ErasesSoOften 3 → ⊥ }
{}

/// A job of which no further try is configured has one, and not a second one behind its fault: no more begin than the jobs that are picked have.
#[tactic(auto, using(crate::proofs::OperationCases::tries_once, crate::proofs::OperationCases::no_second_try))]
pub fn tries_are_those_configured()
    ensures one { Tries 1 }
    ensures two { Tries 2 → ⊥ }
{}
