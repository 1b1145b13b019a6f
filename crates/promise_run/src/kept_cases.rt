// Kept pages, and a switch of banks at its seal.
ghost use Rattle.fls_model.specs.declared.flash.FlashAnswer.TheVariants.{Done, Failed};
ghost use Rattle.promise_run.specs.UrgentCases.{at_another, posted_with};
ghost use Rattle.promise_run.specs.KeptCases.{programmed, at_none, at_immediate, IsInTimeBehind, MayBeMadeIn};

/// A page that is kept for urgent writes is programmed with an immediate job in hand alone, and the page before it with any.
#[tactic(auto, using(crate::proofs::KeptCases::by_immediate, crate::proofs::KeptCases::not_by_standard, crate::proofs::KeptCases::not_by_none, crate::proofs::KeptCases::before_kept))]
pub fn kept_pages_are_for_urgent_writes()
    ensures by_an_immediate_job { MayBeMadeIn (programmed 96 Done) at_immediate }
    ensures by_a_standard_job { MayBeMadeIn (programmed 96 Done) at_another → ⊥ }
    ensures with_no_job { MayBeMadeIn (programmed 96 Done) at_none → ⊥ }
    ensures the_page_before { MayBeMadeIn (programmed 80 Done) at_another }
{}

/// In a full bank an urgent write is posted in time where the last operation programmed the head of a bank, or left a gate in
/// doubt; a head in doubt, a gate that stands, and what was done before the last start-up promise nothing.
#[tactic(auto, using(crate::proofs::KeptCases::in_time, crate::proofs::KeptCases::not_late, crate::proofs::KeptCases::not_late_in_doubt, crate::proofs::KeptCases::head_in_doubt, crate::proofs::KeptCases::gate_stands, crate::proofs::KeptCases::started_since))]
pub fn urgent_writes_go_on_at_the_seal()
    ensures eight { IsInTimeBehind (programmed 160 Done) 0 (posted_with 0 2) }
    ensures nine { IsInTimeBehind (programmed 160 Done) 0 (posted_with 0 3) → ⊥ }
    ensures nine_in_doubt { IsInTimeBehind (programmed 176 Failed) 0 (posted_with 0 3) → ⊥ }
    ensures head_in_doubt { IsInTimeBehind (programmed 160 Failed) 0 (posted_with 0 3) }
    ensures gate_that_stands { IsInTimeBehind (programmed 176 Done) 0 (posted_with 0 3) }
    ensures started_since { IsInTimeBehind (programmed 160 Done) 1 (posted_with 0 3) }
{}
