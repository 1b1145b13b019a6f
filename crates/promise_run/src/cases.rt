// Runs that keep the promise, and runs that break it.
ghost use Rattle.std.specs.Prelude.{ℕ, List, ◌<◌, [], ◌∷◌, true, false, Some, None};
ghost use Rattle.nvm_script.specs.Printed.{history_lines};
ghost use Rattle.std.specs.List.{concat};
ghost use Rattle.block_machine.specs.Legal.{IsLegal};
ghost use Rattle.block_machine.specs.nv_base.Count.{last_count, next_count};
ghost use Rattle.promise_blocks.specs.OverDevice.{BeginsBefore, HasOffAt, TellsAtMost};
ghost use Rattle.promise_device.specs.FlashRun.{AreOperations, WentOff};
ghost use Rattle.promise_run.specs.Run.{cap, HasOrder, CutsExplain};
ghost use Rattle.promise_run.specs.Refusals.{RefusesAsAsked};
ghost use Rattle.promise_device.specs.Wear.{OperationsAreDue};
ghost use Rattle.promise_run.specs.Promise.{making_of, BeginsWell, OperationsAre, Promise, StartUpsFind, CutsCount, CutsKeep, ExitKeeps, FailuresArePaid, MayBeKept};
ghost use Rattle.promise_run.specs.TwoFlashes.{OperationsAreBoth, PromiseOfBoth, HasCutsOfBoth};
ghost use Rattle.promise_run.specs.Call.{IsRunOf, text_of};
ghost use Rattle.promise_run.specs.Completeness.{Completeness};
ghost use Rattle.script_walks.specs.Words.{AskStep, Restart, Cut, CutSecond};
ghost use Rattle.block_machine.specs.Words.{Status, Fine, Canceled, BlockSkipped, Post};
ghost use Rattle.promise_run.specs.Run.{FlashFault, HistoryFull};
ghost use Rattle.promise_run.specs.Turns.{BeginsAt, EndsBy, KeepsTurns};
ghost use Rattle.promise_run.specs.Cases.{ahead, six_beside, six_turns, lazy, leaps, at_faults, faulty, PassesBy, PaysFailed, CountsFailed, HadRoomAt, LeftAt, LeftOf, DrainsTo, TurnsOn, WorksAt, EndsWith, mended, posts_on_credit, starts_on_credit, untold, BothBreakBy, CutsAnother, cut_beside, BreaksBy, small, one, two, quiet, quiet_beside, second_of, wiped, empty_at_11, made_up_mark, off_without_a_cut, cut_within, cut_twice, stale_in_play, invented_store, second_found, other_dataset, worn_but_roomy, worn_but_kept, worn_and_full, kept_write, lost_write, two_callers, written_at, always, turned, not_drained, fails_for_nothing, ends_for_nothing, demo_run, demo_call, untold_write, unseen_stale, later_store, full_for_nothing, not_served, worn_long_ago, cut_comes, cut_missed, last_in_two, erased_with_room, erased_when_full, erased_beside_last, off_untold, programmed_over};

/// A start-up alone keeps it, and so do a write that a cut breaks off with a restart behind it, and the requests of two
/// callers.
#[tactic(auto, using(fee_image::proofs::Soundness::blank_is_sound, fee_image::proofs::Soundness::blank_has_erased))]
pub fn runs_that_keep_it()
    ensures quiet { Promise quiet }
    ensures kept_write { Promise kept_write }
    ensures two_callers { Promise two_callers }
{}

/// A start-up alone over two flashes keeps it. Where the bytes of the second one change without an operation, they aren't those
/// of its operations. A cut of the second flash that its own step planned explains an Off in its first operation; one that was
/// planned for the first flash doesn't, nor one that was planned for later, or for other bytes.
pub fn runs_over_two_flashes()
    ensures keeps { PromiseOfBoth (quiet_beside one one) (second_of one one) }
    ensures changes { BothBreakBy (quiet_beside one two) (second_of one two) ((own other : List ℕ) × OperationsAreBoth (quiet_beside one two) (second_of one two) own other) }
    ensures second_is_cut { HasCutsOfBoth (cut_beside (CutSecond 1 16)) (second_of one one) }
    ensures cut_of_first { CutsAnother (Cut 1 16) }
    ensures cut_later { CutsAnother (CutSecond 2 16) }
    ensures cut_of_other_bytes { CutsAnother (CutSecond 1 15) }
{}

/// A run that wipes the flash or ends with a full history before a start-up breaks it by its order, and so does one that
/// takes an old copy or one that nobody stored, or that starts twice beside its callers. So does a run of callers with an old copy
/// that no look showed, with a store that is taken by the write that it waits for, or full where there is room.
pub fn wrong_orders_break_it()
    ensures wiped { BreaksBy wiped (HasOrder wiped wiped.history) }
    ensures empty_at_11 { BreaksBy empty_at_11 (HasOrder empty_at_11 empty_at_11.history) }
    ensures stale_in_play { BreaksBy stale_in_play (HasOrder stale_in_play stale_in_play.history) }
    ensures invented_store { BreaksBy invented_store (HasOrder invented_store invented_store.history) }
    ensures second_found { BreaksBy second_found (HasOrder second_found second_found.history) }
    ensures unseen_stale { BreaksBy unseen_stale (HasOrder unseen_stale unseen_stale.history) }
    ensures later_store { BreaksBy later_store (HasOrder later_store later_store.history) }
    ensures full_for_nothing { BreaksBy full_for_nothing (HasOrder full_for_nothing full_for_nothing.history) }
{}

/// One entry below the cap neither a request nor a start-up was made, and a start-up that is left there is left for a full
/// history, and for no fault. One sooner both have room, and none is left for a full history. So it is at another cap.
pub fn full_histories_end()
    ensures ends_full { LeftAt 99999 HistoryFull }
    ensures ends_by_a_fault { LeftAt 99998 FlashFault }
    ensures asks { HadRoomAt 99998 (AskStep (Status 2)) }
    ensures starts { HadRoomAt 99998 Restart }
    ensures fails_full { LeftAt 99999 FlashFault → ⊥ }
    ensures ends_too_soon { LeftAt 99998 HistoryFull → ⊥ }
    ensures asks_full { HadRoomAt 99999 (AskStep (Status 2)) → ⊥ }
    ensures starts_full { HadRoomAt 99999 Restart → ⊥ }
    ensures ends_full_at_most { LeftOf 4294967295 4294967294 HistoryFull }
    ensures goes_on { LeftOf 4294967295 99999 HistoryFull → ⊥ }
{}

/// A start-up that lists what was never written breaks it by what start-ups find, and an image that holds a mark in another
/// dataset than the one that was written by what the exit keeps.
pub fn wrong_marks_break_it()
    ensures made_up_mark { BreaksBy made_up_mark (StartUpsFind made_up_mark) }
    ensures made_up_early { BeginsWell made_up_mark → ⊥ }
    ensures other_dataset { BreaksBy other_dataset (ExitKeeps other_dataset) }
{}

/// A power cut that nothing brought breaks it by its cuts, and so does one of which fewer bytes were done than the step said, one
/// that comes an operation too soon, and one more than was planned. A failure with a fault too few, over a bank of
/// the last generation that has room, breaks it by its faults, also where a program failed before the last erase, or where only the
/// pages that are kept are free and the write is an immediate one. Over one that has none the failure is paid, and so is that of a
/// standard write where only these are free.
pub fn wrong_causes_break_it()
    ensures off_without_a_cut { BreaksBy off_without_a_cut (CutsExplain off_without_a_cut.course off_without_a_cut.history [] 0 0) }
    ensures let_15_done { BreaksBy (cut_within 1 15) (CutsExplain (cut_within 1 15).course (cut_within 1 15).history (15 ∷ []) 0 0) }
    ensures let_16_done { CutsExplain (cut_within 1 16).course (cut_within 1 16).history (16 ∷ []) 0 0 }
    ensures cut_too_soon { BreaksBy (cut_within 2 16) (CutsExplain (cut_within 2 16).course (cut_within 2 16).history (16 ∷ []) 0 0) }
    ensures cut_twice { BreaksBy cut_twice (CutsExplain cut_twice.course cut_twice.history (16 ∷ 16 ∷ []) 0 0) }
    ensures worn_but_roomy { BreaksBy worn_but_roomy (FailuresArePaid worn_but_roomy) }
    ensures worn_long_ago { BreaksBy worn_long_ago (FailuresArePaid worn_long_ago) }
    ensures immediate_but_kept { BreaksBy (worn_but_kept 0) (FailuresArePaid (worn_but_kept 0)) }
    ensures worn_and_full { FailuresArePaid worn_and_full }
    ensures standard_but_kept { FailuresArePaid (worn_but_kept 1) }
{}

/// An erase beside an active bank that has room for the record breaks it by its wear, and so does one beside a bank of the last
/// generation, which is full, and a program of a page that isn't blank. Beside another bank that is full an erase is due. An operation
/// in which the power went off breaks it where no Off tells that.
pub fn wrong_operations_break_it()
    ensures with_room { BreaksBy erased_with_room (OperationsAreDue (making_of small) erased_with_room.flash) }
    ensures beside_last { BreaksBy erased_beside_last (OperationsAreDue (making_of small) erased_beside_last.flash) }
    ensures over_a_record { BreaksBy programmed_over (OperationsAreDue (making_of small) programmed_over.flash) }
    ensures when_full { OperationsAreDue (making_of small) erased_when_full.flash }
    ensures without_its_off { BreaksBy off_untold ((k : ℕ) → k < last_count → WentOff off_untold.flash k → HasOffAt off_untold.history (next_count k)) }
{}

/// A run that may lose an acknowledged write at a cut breaks it, by its power cut and its counts alone: all other fields hold.
pub fn a_lost_write_breaks_it()
    ensures breaks { BreaksBy lost_write (CutsKeep lost_write) }
    ensures counts { BreaksBy lost_write (CutsCount lost_write) }
    ensures order { HasOrder lost_write lost_write.history }
    ensures found { StartUpsFind lost_write }
    ensures early { BeginsWell lost_write }
    ensures at_exit { ExitKeeps lost_write }
    ensures block_machine { IsLegal small cap lost_write.history }
    ensures faults { FailuresArePaid lost_write }
    ensures wear { OperationsAreDue (making_of small) lost_write.flash }
    ensures refusals { (id : ℕ) → RefusesAsAsked small lost_write.course lost_write.history id }
    ensures off { CutsExplain lost_write.course lost_write.history lost_write.cuts 0 0 }
    ensures operations { AreOperations small.geometry lost_write.flash (MayBeKept lost_write) lost_write.cuts }
    ensures begins { BeginsBefore lost_write.history }
    ensures counted { TellsAtMost 5 lost_write.history }
{}

/// A flash that doesn't tell its operations at the exit, and had room for them at the entry, breaks it by its operations.
pub fn a_list_that_ends_early_breaks_it()
    ensures { BreaksBy untold_write (OperationsAre untold_write) }
{}

/// A call is told by its run where configuration, steps, cap, flash, status and output are the run's, each line is one put, and
/// the run has no second flash.
pub fn runs_of_calls()
    ensures own { IsRunOf (demo_call 0 (text_of demo_run)) demo_run }
    ensures other_status { IsRunOf (demo_call 7 (text_of demo_run)) demo_run → ⊥ }
    ensures no_last_line { IsRunOf (demo_call 0 (history_lines demo_run.history)) demo_run → ⊥ }
    ensures two_lines_in_one { IsRunOf (demo_call 0 (concat (text_of demo_run) ∷ [])) demo_run → ⊥ }
    ensures one_line_in_two { IsRunOf (demo_call 0 last_in_two) demo_run → ⊥ }
    ensures other_configuration { IsRunOf (demo_call 0 (text_of quiet)) quiet → ⊥ }
    ensures other_most { IsRunOf (demo_call 0 (text_of demo_run)) (record demo_run { most = 4294967295 }) → ⊥ }
    ensures two_flashes { IsRunOf (demo_call 0 (text_of demo_run)) (record demo_run { beside = (quiet_beside one one).beside }) → ⊥ }
{}

/// Where nothing fails a job is posted with no result of a failure, and no run ends at a flash fault. A drain leaves no job in
/// hand, nor does a run of callers.
pub fn runs_that_are_served()
    ensures served { Completeness (turned (written_at 4)) (turned (written_at 4)).course }
    ensures not_drained { BreaksBy not_drained (HasOrder not_drained not_drained.history) }
    ensures not_failed { Completeness fails_for_nothing fails_for_nothing.course → ⊥ }
    ensures not_ended { Completeness ends_for_nothing ends_for_nothing.course → ⊥ }
    ensures callers { Completeness two_callers two_callers.course }
    ensures not_served { Completeness not_served not_served.course → ⊥ }
{}

/// A write that its sixth turn posts has its turns. Nine turns that pick a job and make no more of it aren't turns of a job
/// that takes eight at most, and two turns don't make four operations. The turns of a driver beside callers are told likewise, and
/// an entry of one tells no more operations than the flash made. A turn may pass by a request that came within it, and the next one
/// may not. Two faults of a job's own pay for its failure, and
/// two before its Pick don't. Where two were counted before it a third pays for a start-up that fails, and the two don't.
#[tactic(auto, using(crate::proofs::OneByOne::six_kept, crate::proofs::OneByOne::not_lazy, crate::proofs::OneByOne::no_leap, crate::proofs::RunTurns::beside_kept, crate::proofs::RunTurns::not_ahead, crate::proofs::RunTurns::one_passes, crate::proofs::RunTurns::two_pass_not))]
pub fn turns_one_by_one()
    ensures six { KeepsTurns (always 8) six_turns six_turns.course }
    ensures lazy { KeepsTurns (always 8) lazy lazy.course → ⊥ }
    ensures leaps { KeepsTurns (always 8) leaps leaps.course → ⊥ }
    ensures beside { KeepsTurns (always 8) six_beside six_beside.course }
    ensures ahead { KeepsTurns (always 8) ahead ahead.course → ⊥ }
    ensures came_within { PassesBy 1 }
    ensures passed_by { PassesBy 2 → ⊥ }
    ensures own { PaysFailed 4 }
    ensures on_credit { PaysFailed 2 → ⊥ }
    ensures own_end { EndsBy (at_faults 2) (faulty 3) FlashFault }
    ensures end_on_credit { EndsBy (at_faults 2) (faulty 2) FlashFault → ⊥ }
    ensures begins_late { BeginsAt (record { faults = 0; ops = 4; busy = false }) six_turns.history → ⊥ }
{}

/// Behind a drain nothing is open at the device. With nothing open and nothing pending a turn makes no operation, and one that
/// ends a switch does; and a drain makes no turn behind such a one.
pub fn drains_leave_nothing_open()
    ensures closed { DrainsTo false }
    ensures open { DrainsTo true → ⊥ }
    ensures turns_on { TurnsOn true }
    ensures turns_for_nothing { TurnsOn false → ⊥ }
    ensures works_on { WorksAt true }
    ensures works_for_nothing { WorksAt false → ⊥ }
{}

/// Where a WriteAll that was canceled alone is pending a turn posts id 0 as canceled: it doesn't go by, and posts no further
/// member, nor id 0 as done.
pub fn canceled_requests_end()
    ensures ends { EndsWith (Some (Post 0 Canceled None 0 0)) }
    ensures goes_by { EndsWith None → ⊥ }
    ensures goes_on { EndsWith (Some (Post 1 BlockSkipped None 0 0)) → ⊥ }
    ensures as_done { EndsWith (Some (Post 0 Fine None 0 0)) → ⊥ }
{}

/// An operation that failed is counted in its own move and in no later one, and a write that a retry mends has its turns.
/// Its fault pays neither for a further write that is posted as failed, nor for a start-up that fails behind it; and no
/// operation of the flash is left out of the moves.
pub fn failures_are_counted_in_their_moves()
    ensures own { CountsFailed 1 1 }
    ensures told_late { CountsFailed 0 1 → ⊥ }
    ensures mended { KeepsTurns (always 8) mended mended.course }
    ensures posts_on_credit { KeepsTurns (always 8) posts_on_credit posts_on_credit.course → ⊥ }
    ensures starts_on_credit { KeepsTurns (always 8) starts_on_credit starts_on_credit.course → ⊥ }
    ensures untold { KeepsTurns (always 8) untold untold.course → ⊥ }
{}

/// A power cut that is planned for the second operation comes in it. None is missed: with one planned for the first operation no
/// run makes four.
#[tactic(auto, using(crate::proofs::CutsThatCome::comes_kept, crate::proofs::CutsThatCome::not_missed))]
pub fn planned_cuts_come()
    ensures comes { KeepsTurns (always 8) cut_comes cut_comes.course }
    ensures missed { KeepsTurns (always 8) cut_missed cut_missed.course → ⊥ }
{}
