// Worked cases of the definitions.
ghost use Rattle.std.specs.Prelude.{◌≡◌, ◌^◌, ◌-◌, ℕ, true, false, [], ◌∷◌, Some, None, Ok};
ghost use Rattle.nv_base.specs.declared.mark.Mark.TheVariants as mark;
ghost use Rattle.memif.specs.declared.answer.DeviceRefusal.TheVariants.{Busy, Uninit, BadNumber, BadLength};
ghost use Rattle.memif.specs.declared.answer.DeviceTurn.TheVariants.{Worked, Off};
ghost use Rattle.memif.specs.declared.answer.JobResult.TheVariants.{JobOk, JobFailed};
ghost use Rattle.memif.specs.declared.answer.MemStatus.TheVariants as status;
ghost use Rattle.memif.specs.Told.{status_of, slot_at, no_slot, no_part};
ghost use Rattle.memif.specs.Marks.{IsPossible, Keeps, Doubts, SettlesAs, ComesFrom};
ghost use Rattle.memif.specs.Calls.{refusal_of, Reads, Accepts, StartsUp, Turns, FaultsGrow};
ghost use Rattle.memif.specs.Plain.{no_clock};
ghost use Rattle.memif.specs.Run.{known_after, known_by};
ghost use Rattle.memif.specs.Worked.{one_number, old_content, new_content, doubtful, clear, unstarted, at_rest, at_work, at_own_work, started_once_more, the_read, the_write, after_failure, after_success, faulty, planned, without_power, of_two, old_stands, fails_first, silent, behind, writing, known_before};

/// Worked cases of refusals, states and results.
pub fn worked_answers()
    ensures busy_first { refusal_of (at_work the_read doubtful) 200 (Some 9) ≡ Some Busy }
    ensures then_uninit { refusal_of unstarted 200 (Some 9) ≡ Some Uninit }
    ensures then_number { refusal_of (at_rest doubtful) 200 (Some 9) ≡ Some BadNumber }
    ensures then_length { refusal_of (at_rest doubtful) 128 (Some 4) ≡ Some BadLength }
    ensures without_length { refusal_of (at_rest doubtful) 128 None ≡ None }
    ensures own_work { status_of (record (at_rest doubtful) { switching = true }) ≡ status.BusyInternal }
    ensures at_a_job { status_of (record (at_work the_read doubtful) { switching = true }) ≡ status.Busy }
    ensures of_the_number { slot_at one_number (doubtful ∷ []) 128 ≡ doubtful }
    ensures of_no_number { slot_at one_number (doubtful ∷ []) 130 ≡ no_slot }
    ensures content_may_fail { Reads old_content.mark JobFailed [] }
    ensures erased_does_not_fail { ¬ Reads mark.Erased JobFailed [] }
    ensures no_other_content { ¬ Reads old_content.mark JobOk (3 ∷ []) }
{}

/// Worked cases of marks: what a start-up may find, and what a job may not do.
pub fn worked_marks()
    ensures doubt { IsPossible doubtful new_content }
    ensures no_third { ¬ IsPossible doubtful no_slot.settled }
    ensures fails_and_clears { Keeps doubtful (clear old_content) }
    ensures fails_and_settles { ¬ Keeps doubtful (clear new_content) }
    ensures adds_a_doubt { ¬ Keeps (clear old_content) doubtful }
    ensures takes { Doubts new_content.mark (clear old_content) doubtful }
    ensures takes_at_once { ¬ Doubts new_content.mark (clear old_content) (clear new_content) }
    ensures settles { SettlesAs new_content.mark doubtful (clear new_content) }
    ensures leaves_a_doubt { ¬ SettlesAs old_content.mark doubtful doubtful }
    ensures found { ComesFrom doubtful (clear new_content) }
    ensures found_another { ¬ ComesFrom doubtful no_slot }
{}

/// Worked cases of a run: a write of two operations, and a cut at each.
pub fn worked_run()
    ensures at_the_first { (known_by 0 known_before writing).slots 128 ≡ doubtful }
    ensures at_the_second { (known_by 1 known_before writing).slots 128 ≡ doubtful }
    ensures at_the_end { (known_after known_before writing).slots 128 ≡ clear new_content }
{}

/// When a device may stop to tell what its numbers hold: with its first operation, and not before it; and it never begins.
pub fn worked_telling()
    ensures stops_with_an_operation { Turns Worked (at_work the_write doubtful) no_clock (silent after_success) no_clock }
    ensures stops_before_one { ¬ Accepts (record { job = the_read; length = None }) (Ok tt) (at_rest doubtful) no_clock (silent (at_work the_read doubtful)) no_clock }
    ensures begins { ¬ Accepts (record { job = the_read; length = None }) (Ok tt) (silent (behind 1)) no_clock (record (at_work the_read doubtful) { ops = 1 }) no_clock }
{}

/// What no device does: it doesn't go on for ever by faults, fail without a cause or by a fault of another part, let an
/// operation fail that it doesn't count, tell an Off of a planned cut without its operation, do work of its own on the second part, count what its flash didn't,
/// leave a start-up uncounted or turns behind one, open work of its own at a start, or settle what its flash doesn't hold.
pub fn wrong_devices()
    ensures a_fault_leaves_the_job { ¬ Turns Worked (at_work the_write doubtful) no_clock (faulty (at_work the_write doubtful)) no_clock }
    ensures fails_without_a_cause { ¬ Turns Worked (at_work the_write doubtful) no_clock after_failure no_clock }
    ensures fails_by_another_part { ¬ Turns Worked (of_two (at_work the_write doubtful)) no_clock (of_two (faulty after_failure)) no_clock }
    ensures leaves_a_failure_uncounted { ¬ Turns Worked (at_work the_write doubtful) no_clock after_success fails_first }
    ensures tells_an_off_without_its_operation { ¬ Turns Off (planned (at_work the_write doubtful)) no_clock (without_power (at_work the_write doubtful)) no_clock }
    ensures does_own_work_on_the_second_part { ¬ Turns Worked (at_own_work 0) no_clock (at_own_work 1) no_clock }
    ensures counts_what_was_not { ¬ FaultsGrow no_part (record no_part { faults = 1 }) }
    ensures a_start_up_leaves_turns { ¬ StartsUp (Ok tt) unstarted no_clock (record (started_once_more unstarted) { left = 2 ^ 64 - 1 }) no_clock }
    ensures a_start_up_is_not_counted { ¬ StartsUp (Ok tt) unstarted no_clock (record unstarted { started = true }) no_clock }
    ensures a_start_opens_own_work { ¬ Accepts (record { job = the_read; length = None }) (Ok tt) (at_rest doubtful) no_clock (record (at_work the_read doubtful) { switching = true }) no_clock }
    ensures a_start_up_settles_another { ¬ StartsUp (Ok tt) (at_rest doubtful) old_stands (started_once_more (at_rest (clear new_content))) old_stands }
{}
