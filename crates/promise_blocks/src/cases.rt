// What pays for a failed write, which counts a write may leave, and which operations are a job's.
ghost use Rattle.std.specs.Prelude.{true, false};
ghost use Rattle.block_machine.specs.block_config.DemoConfig.{demo_config};
ghost use Rattle.promise_blocks.specs.Payment.{IsPaid, every_block};
ghost use Rattle.promise_blocks.specs.Operations.{AreOfJobs, AreStartsTold};
ghost use Rattle.promise_blocks.specs.Cases.{failed_write, failed_twice, never_worn, worn_from, written_once, picked_again, MayHave, second_below, two_parts};

/// Two faults pay for a write that was tried twice, and four for two, and so does a device that was worn out for it by then.
#[tactic(auto, using(crate::proofs::PaidCases::of_both))]
pub fn failures_that_are_paid()
    ensures faults { IsPaid every_block demo_config never_worn 3 5 failed_write }
    ensures of_both { IsPaid every_block demo_config never_worn 3 7 failed_twice }
    ensures worn { IsPaid every_block demo_config (worn_from 7 true) 3 3 failed_write }
{}

/// One fault doesn't, nor do two or three for two of them, nor does a device that is worn out later, or for jobs alone that aren't
/// urgent, while this write is.
pub fn failures_that_are_not_paid()
    ensures one_fault { IsPaid every_block demo_config never_worn 3 4 failed_write → ⊥ }
    ensures two_for_both { IsPaid every_block demo_config never_worn 3 5 failed_twice → ⊥ }
    ensures three_for_both { IsPaid every_block demo_config never_worn 3 6 failed_twice → ⊥ }
    ensures worn_later { IsPaid every_block demo_config (worn_from 8 true) 3 3 failed_write → ⊥ }
    ensures worn_for_others { IsPaid every_block demo_config (worn_from 7 false) 3 3 failed_write → ⊥ }
{}

/// A write counts one more than was found, also from none, and the last count stands still. While a second one has taken its
/// mark, one more still may be found.
pub fn counts_that_may_be_found()
    ensures written { MayHave written_once 6 7 }
    ensures first { MayHave written_once 0 1 }
    ensures last { MayHave written_once 4294967295 4294967295 }
    ensures none_yet { MayHave picked_again 6 7 }
    ensures one_more { MayHave picked_again 6 8 }
{}

/// A write doesn't leave its count, no count rises where no job took a mark, and none by two.
pub fn counts_that_may_not_be_found()
    ensures left { MayHave written_once 6 6 → ⊥ }
    ensures without_a_mark { MayHave written_once 6 8 → ⊥ }
    ensures by_two { MayHave picked_again 6 9 → ⊥ }
    ensures past_the_last { MayHave written_once 4294967295 4294967296 → ⊥ }
{}

/// The operations of a write on a block of the second part are of that part, from its Pick to its Wrote.
pub fn operations_of_jobs()
    ensures of_its_part { AreOfJobs demo_config written_once (two_parts 10 1 0) (second_below 10) }
{}

/// None of them is of the first part, and none behind its Post is of the second one.
pub fn operations_of_no_job()
    ensures of_the_first { AreOfJobs demo_config written_once (two_parts 10 1 0) (second_below 9) → ⊥ }
    ensures behind_it { AreOfJobs demo_config written_once (two_parts 11 1 0) (second_below 11) → ⊥ }
{}

/// A start-up is told by its Found, and one that failed by a fault of a part.
pub fn start_ups_that_are_told()
    ensures found { AreStartsTold written_once (two_parts 10 1 0) }
    ensures failed { AreStartsTold written_once (two_parts 10 2 1) }
{}

/// None is told without a Found or a fault, and no Found comes without a start-up.
pub fn start_ups_that_are_not_told()
    ensures without_a_fault { AreStartsTold written_once (two_parts 10 2 0) → ⊥ }
    ensures without_a_start_up { AreStartsTold written_once (two_parts 10 0 1) → ⊥ }
{}
