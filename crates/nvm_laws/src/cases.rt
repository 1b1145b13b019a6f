// Worked cases of what is due.
ghost use Rattle.std.specs.Prelude.{ℕ, Some};
ghost use Rattle.block_machine.specs.Cases.{mixed_config, urgent_config};
ghost use Rattle.nvm_figures.specs.Cases.{at_rest};
ghost use Rattle.nvm_laws.specs.Due.{IsDue};
ghost use Rattle.nvm_laws.specs.DueCases.{accepted, two_accepted, in_hand, one_waits, behind, finished, ready_for};

/// An immediate write of four pages is due within eight turns of its acceptance and within seven of its Pick, and not sooner;
/// one that waits behind a finished standard job within nine. A second one that waits isn't due yet, nor is a standard job, nor
/// one whose pages aren't ready.
pub fn due_cases()
    ensures accepted { IsDue 1 8 (behind urgent_config accepted (at_rest 0)) }
    ensures not_sooner { ¬ IsDue 1 7 (behind urgent_config accepted (at_rest 0)) }
    ensures picked { IsDue 1 7 (behind urgent_config in_hand (at_rest 0)) }
    ensures picked_not_sooner { ¬ IsDue 1 6 (behind urgent_config in_hand (at_rest 0)) }
    ensures over_a_standard_job { IsDue 3 8 (behind mixed_config one_waits (at_rest 0)) }
    ensures behind_a_post { IsDue 3 9 (finished (behind mixed_config one_waits (at_rest 0))) }
    ensures not_before_the_post { ¬ IsDue 3 8 (finished (behind mixed_config one_waits (at_rest 0))) }
    ensures no_second { (turns : ℕ) → ¬ IsDue 2 turns (behind urgent_config two_accepted (at_rest 0)) }
    ensures no_standard_job { (turns : ℕ) → ¬ IsDue 1 turns (behind mixed_config accepted (at_rest 0)) }
    ensures not_ready { (turns : ℕ) → ¬ IsDue 1 turns (behind urgent_config accepted (ready_for 3)) }
{}
