// Whose operations they are, and whose room it is.
ghost use Rattle.std.specs.Prelude.{◌≡◌, ℕ, [], ◌∷◌, ◌++◌, replicate, true, false};
ghost use Rattle.nv_base.specs.Count.{last_count};
ghost use Rattle.fls_model.specs.Op.{Program, Erase};
ghost use Rattle.fls_model.specs.declared.flash.FlashAnswer.TheVariants.{Done, Failed, Off};
ghost use Rattle.promise_device.specs.FlashRun.{AreSeen, IsChain, CountsAll};
ghost use Rattle.promise_device.specs.Bridge.{may_be_closed};
ghost use Rattle.promise_device.specs.Cases.{blank, other, erase, answered, broken_off, first_byte, program, two_programs, seen_there, never, second, any, counted, Tells, roomy, torn, no_job, urgent_write, standard_write, failed_erase, are_due_there, in_order, erased, erased_at, programmed, programmed_at, appended, first_sector, second_sector, opens, copied, no_bank, full, last, taken_over, in_turn, first_of_three, last_of_three, head_over, gate_over, are_due_wide, no_records, head_again, head_over_gate, elsewhere, head_behind_last, two_banks, wide_banks};
ghost use Rattle.promise_device.specs.Generations.{bank_of_generation};
ghost use Rattle.promise_device.specs.SwitchErases.{seals, begun_again};

/// An erase that the flash saw, and a program of which a planned cut let nothing be done, so that its bytes stay, or one byte, or
/// all; two such cuts take their bytes in order. A program that failed, with its answer.
#[tactic(auto, using(crate::proofs::Parts::kept_back, crate::proofs::Parts::in_part, crate::proofs::Parts::in_half, crate::proofs::Parts::in_order))]
pub fn operations_of_the_flash()
    ensures seen { AreSeen never 0 blank seen_there [] seen_there }
    ensures kept_back { AreSeen second 0 blank (erase program) (0 ∷ []) seen_there }
    ensures in_half { AreSeen second 0 blank (erase program) (1 ∷ []) (erase (broken_off first_byte)) }
    ensures in_part { AreSeen second 0 blank (erase program) (2 ∷ []) (erase (answered Done)) }
    ensures in_order { AreSeen any 0 other two_programs (0 ∷ 1 ∷ []) (broken_off first_byte ∷ []) }
    ensures failed { AreSeen never 0 blank (erase (answered Failed)) [] (erase (answered Failed)) }
{}

/// Without a planned cut none is kept back, and none whose bytes changed. Of one that a cut broke off exactly the bytes are seen
/// that it let be done, and each cut has its operation. Bytes that no operation left are not theirs.
pub fn operations_of_another_flash()
    ensures not_planned { AreSeen never 0 blank (erase program) (0 ∷ []) seen_there → ⊥ }
    ensures changed { AreSeen second 0 other (erase program) (0 ∷ []) seen_there → ⊥ }
    ensures one_byte_more { AreSeen second 0 blank (erase program) (1 ∷ []) (erase (answered Done)) → ⊥ }
    ensures one_byte_fewer { AreSeen second 0 blank (erase program) (2 ∷ []) (erase (broken_off first_byte)) → ⊥ }
    ensures not_kept_back { AreSeen second 0 blank (erase program) (1 ∷ []) seen_there → ⊥ }
    ensures not_in_part { AreSeen second 0 blank (erase program) (0 ∷ []) (erase (broken_off first_byte)) → ⊥ }
    ensures other_part { AreSeen second 0 blank (erase program) (1 ∷ []) (erase (broken_off (255 ∷ 0 ∷ []))) → ⊥ }
    ensures not_in_order { AreSeen any 0 other two_programs (1 ∷ 0 ∷ []) (broken_off first_byte ∷ []) → ⊥ }
    ensures without_its_bytes { AreSeen second 0 blank (erase program) [] seen_there → ⊥ }
    ensures without_operation { AreSeen any 0 blank (erase (answered Done)) (2 ∷ []) (erase (answered Done)) → ⊥ }
    ensures wiped { IsChain other [] blank → ⊥ }
{}

/// Nor has one that failed another answer, whether a cut was planned for it or not, and none is cut without a plan.
pub fn answers_of_another_flash()
    ensures told_done { AreSeen never 0 blank (erase (answered Done)) [] (erase (answered Failed)) → ⊥ }
    ensures planned_but_done { AreSeen second 0 blank (erase (answered Done)) (2 ∷ []) (erase (answered Failed)) → ⊥ }
    ensures failed_alone { AreSeen second 0 blank (erase (answered Failed)) (2 ∷ []) (erase (answered Done)) → ⊥ }
    ensures not_planned { AreSeen never 0 blank (erase program) (2 ∷ []) (erase (answered Failed)) → ⊥ }
{}

/// The flash counts each operation but those of which a planned cut let nothing be done. That a count stands at its end at the exit
/// alone excuses none.
pub fn counts_of_the_flash()
    ensures all { CountsAll (counted 2 (erase (answered Done))) [] }
    ensures in_part { CountsAll (counted 2 (erase program)) (1 ∷ []) }
    ensures kept_back { CountsAll (counted 1 (erase program)) (0 ∷ []) }
    ensures one_missed { CountsAll (counted 1 (erase (answered Done))) [] → ⊥ }
    ensures one_more { CountsAll (counted 2 (erase program)) (0 ∷ []) → ⊥ }
    ensures none_in_part { CountsAll (counted 1 (erase program)) (1 ∷ []) → ⊥ }
    ensures at_its_end { CountsAll (counted last_count (erase program)) [] → ⊥ }
{}

/// Over a bank of eight free pages the four that are kept are ready, also beside the job that takes the other four, which has as
/// many turns as pages.
pub fn room_of_a_bank()
    ensures at_rest { Tells false roomy no_job 4 0 }
    ensures urgent { Tells false roomy urgent_write 4 4 }
    ensures standard { Tells false roomy standard_write 4 4 }
    ensures torn { Tells false torn no_job 0 0 }
{}

/// A standard write leaves what is kept, and without the room for that it needs a switch: besides its four turns an erase, a head and
/// a gate, and the five of a copy where the number has a record. Over a torn bank the gate of a record may be owed too.
pub fn turns_of_a_switch()
    ensures copied { Tells false full standard_write 4 12 }
    ensures torn { Tells false torn standard_write 0 8 }
    ensures none_active { Tells false no_bank standard_write 0 7 }
{}

/// A device that tells of one turn more tells of another switch; but where a program failed, which may have closed the bank.
pub fn turns_of_another_switch()
    ensures copied { Tells false full standard_write 4 13 → ⊥ }
    ensures torn { Tells false torn standard_write 0 9 → ⊥ }
    ensures none_active { Tells false no_bank standard_write 0 8 → ⊥ }
    ensures after_a_failure { Tells true full standard_write 4 13 }
{}

/// A device that tells that nothing is ready, or more than there is, or turns where nothing is open, or more of a job with room
/// than it has pages, is another one; but where a program failed, which may have closed the bank, nothing may be ready.
pub fn room_of_another_bank()
    ensures nothing_ready { Tells false roomy no_job 0 0 → ⊥ }
    ensures beside_a_job { Tells false roomy urgent_write 3 4 → ⊥ }
    ensures too_much { Tells false roomy no_job 9 0 → ⊥ }
    ensures idle_turns { Tells false roomy no_job 4 1 → ⊥ }
    ensures too_many_turns { Tells false roomy standard_write 4 5 → ⊥ }
    ensures after_a_failure { Tells true roomy no_job 0 0 }
{}

/// A program that failed may have closed the bank, whatever was programmed since, until the next erase. An erase that failed
/// closes none.
pub fn banks_that_may_be_closed()
    ensures failed { may_be_closed (erase (answered Failed)) ≡ true }
    ensures long_ago { may_be_closed (answered Failed ∷ answered Done ∷ []) ≡ true }
    ensures done { may_be_closed (erase (answered Done)) ≡ false }
    ensures erased { may_be_closed (answered Failed ∷ erase (answered Done)) ≡ false }
    ensures erase_failed { may_be_closed (failed_erase ∷ []) ≡ false }
{}

/// A bank is erased where none is active, or where the active one has fewer free pages than a record may ask for, or is closed; and
/// behind a program of it that failed, which may have closed it.
pub fn erases_of_a_flash()
    ensures none_active { are_due_there (erased_at 0 Done no_bank ∷ []) ≡ true }
    ensures full { are_due_there (erased full ∷ erased full ∷ []) ≡ true }
    ensures torn { are_due_there (erased torn ∷ []) ≡ true }
    ensures failed { are_due_there (appended Failed roomy ∷ erased roomy ∷ []) ≡ true }
    ensures failed_beside { are_due_there (appended Failed roomy ∷ programmed Done roomy ∷ erased roomy ∷ []) ≡ true }
{}

/// A flash that is erased while its active bank has room, at whatever erase, is another device's, also where a program of the
/// other bank failed, or one of this bank before it was erased; and so is one whose active bank is erased, or two sectors at once, or
/// one beside a bank of the last generation, also where that is full or a program failed.
pub fn erases_of_another_flash()
    ensures with_room { are_due_there (erased roomy ∷ []) ≡ false }
    ensures later { are_due_there (erased full ∷ programmed Done full ∷ erased roomy ∷ []) ≡ false }
    ensures erase_failed { are_due_there (erased_at 160 Failed full ∷ erased roomy ∷ []) ≡ false }
    ensures failed_elsewhere { are_due_there (programmed Failed roomy ∷ erased roomy ∷ []) ≡ false }
    ensures failed_behind { are_due_there (erased roomy ∷ appended Failed roomy ∷ []) ≡ false }
    ensures failed_before { are_due_there (appended Failed roomy ∷ erased roomy ∷ erased_at 0 Done taken_over ∷ []) ≡ false }
    ensures failed_long_ago { are_due_there (programmed Failed full ∷ erased full ∷ erased_at 0 Done taken_over ∷ []) ≡ false }
    ensures the_active_one { are_due_there (erased_at 0 Done full ∷ []) ≡ false }
    ensures not_the_first { are_due_there (erased no_bank ∷ []) ≡ false }
    ensures two_sectors { in_order (record (first_sector Done) { op = Erase 160 160 } ∷ []) ≡ false }
    ensures last { are_due_there (erased last ∷ []) ≡ false }
    ensures last_failed { are_due_there (appended Failed last ∷ erased last ∷ []) ≡ false }
{}

/// Of three banks the next one is erased: the second behind the first, and the first behind the last.
pub fn erases_of_three_banks()
    ensures second { in_turn (erased first_of_three ∷ []) ≡ true }
    ensures first_again { in_turn (erased_at 0 Done last_of_three ∷ []) ≡ true }
    ensures one_left_out { in_turn (erased_at 320 Done first_of_three ∷ []) ≡ false }
    ensures back { in_turn (erased last_of_three ∷ []) ≡ false }
{}

/// The sectors of a bank are erased one behind the other; one that failed is erased again, and a switch that begins again begins
/// with the first.
pub fn sectors_in_order()
    ensures whole { in_order (first_sector Done ∷ second_sector Done ∷ []) ≡ true }
    ensures again { in_order (first_sector Done ∷ second_sector Failed ∷ second_sector Done ∷ []) ≡ true }
    ensures anew { in_order (first_sector Done ∷ second_sector Done ∷ first_sector Done ∷ second_sector Done ∷ []) ≡ true }
{}

/// One that was erased isn't erased again without the first, and none comes before its turn.
pub fn sectors_out_of_order()
    ensures twice { in_order (first_sector Done ∷ second_sector Done ∷ second_sector Done ∷ []) ≡ false }
    ensures alone { in_order (second_sector Done ∷ []) ≡ false }
    ensures behind_a_failure { in_order (first_sector Failed ∷ second_sector Done ∷ []) ≡ false }
    ensures behind_a_cut { in_order (first_sector Off ∷ second_sector Done ∷ []) ≡ false }
{}

/// A page is programmed where it is blank, or again right behind its program that failed.
pub fn programs_of_a_flash()
    ensures blank { are_due_there (appended Done roomy ∷ programmed Done last ∷ []) ≡ true }
    ensures again { are_due_there (appended Failed roomy ∷ appended Done torn ∷ []) ≡ true }
    ensures again_beside { are_due_there (appended Failed roomy ∷ programmed Done torn ∷ appended Done torn ∷ []) ≡ true }
{}

/// A flash whose page is programmed where it isn't blank is another device's, also behind a program that was done or cut, behind
/// another page of its bank, or with other bytes.
pub fn programs_of_another_flash()
    ensures not_blank { are_due_there (appended Done torn ∷ []) ≡ false }
    ensures done { are_due_there (appended Done roomy ∷ appended Done torn ∷ []) ≡ false }
    ensures cut { are_due_there (appended Off roomy ∷ appended Done torn ∷ []) ≡ false }
    ensures another_page { are_due_there (programmed_at 48 Failed roomy ∷ appended Done torn ∷ []) ≡ false }
    ensures behind_another { are_due_there (appended Failed roomy ∷ programmed_at 48 Done torn ∷ appended Done torn ∷ []) ≡ false }
    ensures two_pages { are_due_there (record (appended Done roomy) { op = Program 32 (replicate 32 0) } ∷ []) ≡ false }
    ensures other_bytes { are_due_there (record (appended Failed roomy) { op = Program 32 (replicate 16 1) } ∷ appended Done torn ∷ []) ≡ false }
{}

/// A bank takes over with its records where it has as many pages free as a switch leaves: here seven of 20.
pub fn banks_that_take_over()
    ensures empty { opens (replicate 288 255) ≡ true }
    ensures copied { opens (copied ++ replicate 224 255) ≡ true }
    ensures copied_twice { opens (copied ++ copied ++ replicate 160 255) ≡ true }
    ensures too_many { opens (copied ++ copied ++ copied ++ replicate 96 255) ≡ false }
    ensures closed { opens (copied ++ 0 ∷ replicate 223 255) ≡ false }
    ensures failed_gate { are_due_wide (head_over 1 Done no_records ∷ gate_over Failed no_records ∷ gate_over Done no_records ∷ []) ≡ true }
    ensures no_head { are_due_wide (gate_over Done no_records ∷ []) ≡ false }
    ensures other_page { are_due_wide (head_over 1 Done no_records ∷ record (gate_over Done no_records) { op = Program 16 (replicate 16 1) } ∷ []) ≡ false }
    ensures failed_head { are_due_wide (head_over 1 Failed no_records ∷ gate_over Done no_records ∷ []) ≡ false }
    ensures second_generation { are_due_wide (head_over 2 Done no_records ∷ []) ≡ false }
    ensures head_again { are_due_wide (head_over 1 Failed no_records ∷ head_again no_records ∷ []) ≡ false }
    ensures over_a_gate { are_due_wide (head_over_gate no_records ∷ []) ≡ false }
    ensures beside_a_gate { are_due_wide (head_over 1 Done no_records ∷ gate_over Failed no_records ∷ elsewhere no_records ∷ []) ≡ true }
    ensures gate_behind_another { are_due_wide (head_over 1 Done no_records ∷ gate_over Failed no_records ∷ elsewhere no_records ∷ gate_over Done no_records ∷ []) ≡ false }
    ensures behind_the_last { are_due_there (head_behind_last ∷ []) ≡ false }
{}

/// Of three banks each generation has the next one, so of the first eight the third bank has two; a switch that begins twice began
/// again once, but for one whose erase failed.
pub fn generations_of_three_banks()
    ensures first { bank_of_generation 3 1 ≡ 0 }
    ensures fourth { bank_of_generation 3 4 ≡ 0 }
    ensures second_bank { seals 3 1 8 ≡ 3 }
    ensures third_bank { seals 3 2 8 ≡ 2 }
    ensures again { begun_again two_banks false (erased full ∷ erased full ∷ []) ≡ 1 }
    ensures failed { begun_again two_banks false (erased_at 160 Failed full ∷ erased full ∷ []) ≡ 0 }
    ensures ended { begun_again wide_banks false (record (head_over 1 Done no_records) { op = Erase 0 320 } ∷ gate_over Done no_records ∷ record (head_over 1 Done no_records) { op = Erase 320 320 } ∷ []) ≡ 0 }
    ensures cut { begun_again wide_banks false (record (head_over 1 Done no_records) { op = Erase 0 320 } ∷ gate_over Off no_records ∷ record (head_over 1 Done no_records) { op = Erase 0 320 } ∷ []) ≡ 1 }
{}
