// Histories that a run may have.
ghost use Rattle.std.specs.Prelude.{[], ◌∷◌, ◌≡◌, None, Some, true, ◌++◌};
ghost use Rattle.block_config.specs.DemoConfig.{demo_config};
ghost use Rattle.block_machine.specs.Words.{Content, Erased, Ask, BlockSkipped, CancelWriteAll, Canceled, Fine, Found, GetIndex, HistoryFull, IndexIs, IntegrityFailed, NotOk, NotStarted, Off, Post, Protected, PutRam, ReadAll, ReadAllJob, ReadJob, Restored, SetIndex, SetLock, SetRam, Sync, Write, WriteAll, WriteAllJob};
ghost use Rattle.block_machine.specs.Accepted.{AsksFor};
ghost use Rattle.block_machine.specs.Legal.{IsLegal};
ghost use Rattle.block_machine.specs.History.{IsAllowedAt};
ghost use Rattle.block_machine.specs.Prices.{prices_in_faults, prices_in_refusals};
ghost use Rattle.block_machine.specs.Cases.{cap, at, bytes_1, bytes_2, write_then_read, faults_use_up_the_tries, redundant_read_from_copy_1, redundant_config, dataset_and_rom, dataset_config, cancel_config, all_copies_refused, sync_config, readall_writeall, copy_in_refused, copy_in_config, id_from_copy_1, mixed_config, stale_write, guarded_config, config_of, four, give, ok, pick, pick_write, post, read, refused, write, wrote, cut_and_found, id_is_read};
ghost use Rattle.block_config.specs.Block.{plain_block};

/// Writes and reads of the demo's blocks, on blank and on written flash.
pub fn simple_cases_are_legal()
    ensures write_then_read { IsLegal demo_config cap write_then_read }
{}

/// Cuts, faults and start-ups.
pub fn cases_with_faults_are_legal()
    ensures cut_before_commit_gate { IsLegal demo_config cap (cut_and_found bytes_1) }
    ensures cut_keeps_commit_gate { IsLegal demo_config cap (cut_and_found bytes_2) }
    ensures faults_use_up_the_tries { IsLegal demo_config cap faults_use_up_the_tries }
    ensures redundant_read_from_copy_1 { IsLegal redundant_config cap redundant_read_from_copy_1 }
{}

/// The order of jobs.
pub fn cases_of_order_are_legal()
    ensures dataset_and_rom { IsLegal dataset_config cap dataset_and_rom }
{}

/// RAM and sweeps.
pub fn cases_of_ram_are_legal()
    ensures readall_writeall { IsLegal demo_config cap readall_writeall }
    ensures all_copies_refused { IsLegal sync_config cap all_copies_refused }
    ensures copy_in_refused { IsLegal copy_in_config cap copy_in_refused }
{}

/// Further histories that are legal: what no printed case shows.
pub fn corner_cases_are_legal()
    ensures id_is_same { IsLegal demo_config cap (id_is_read Fine Fine ++ ok WriteAll ∷ pick 0 WriteAllJob 0 ∷ post 2 BlockSkipped 0 ∷ post 1 BlockSkipped 0 ∷ post 0 Fine 0 ∷ []) }
    ensures id_from_copy_1 { IsLegal demo_config cap id_from_copy_1 }
    ensures canceled_early { IsLegal demo_config cap (Found [] 0 ∷ ok (write 2 bytes_1) ∷ ok WriteAll ∷ ok CancelWriteAll ∷ pick_write 2 bytes_1 0 ∷ wrote 2 0 bytes_1 10 ∷ post 2 Fine 10 ∷ pick 0 WriteAllJob 10 ∷ post 0 Canceled 10 ∷ []) }
    ensures interrupted_between_copies { IsLegal mixed_config cap (Found [] 0 ∷ ok (PutRam 2 bytes_1) ∷ ok (Write 2 None 0) ∷ pick_write 2 bytes_1 0
        ∷ wrote 2 0 bytes_1 10 ∷ ok (write 3 bytes_2) ∷ pick_write 3 bytes_2 11 ∷ wrote 3 0 bytes_2 15 ∷ post 3 Fine 15 ∷ pick_write 2 bytes_1 15
        ∷ wrote 2 0 bytes_1 19 ∷ wrote 2 1 bytes_1 23 ∷ post 2 Fine 23 ∷ []) }
    ensures member_copy_refused { IsLegal (config_of (record (plain_block 4) { ram = Sync; repeats = 1; defaults = Some bytes_2; readall = true }
        ∷ [])) cap (Found [] 0 ∷ ok ReadAll ∷ pick 0 ReadAllJob 0 ∷ pick 1 ReadJob 0 ∷ give 1 Restored (0 ∷ 1 ∷ []) 0 ∷ Post 2 NotOk None 2 0
        ∷ post 0 NotOk 0 ∷ []) }
    ensures stale_write { IsLegal sync_config cap stale_write }
    ensures guarded { IsLegal guarded_config cap (Found ((at 2 0, Content bytes_1) ∷ []) 0 ∷ refused (write 2 bytes_2) Protected ∷ ok (SetLock 3 true)
        ∷ ok (SetIndex 3 1) ∷ Off 0 ∷ refused (read 2) NotStarted ∷ Found ((at 2 0, Content bytes_1) ∷ []) 0 ∷ Ask 0 (GetIndex 3) (IndexIs 0)
        ∷ ok (SetIndex 3 1) ∷ ok (SetRam 3 true) ∷ ok WriteAll ∷ pick 0 WriteAllJob 0 ∷ post 3 BlockSkipped 0 ∷ post 1 BlockSkipped 0 ∷ post 0 Fine 0 ∷ []) }
    ensures history_full { IsLegal cancel_config 6 (Found [] 0 ∷ ok (read 2) ∷ refused (write 3 (four 1)) HistoryFull ∷ pick 2 ReadJob 0 ∷ post 2 IntegrityFailed 0 ∷ []) }
{}

/// What the failures of the cases cost in faults and in refused copies.
pub fn failures_have_their_price()
    ensures none { prices_in_faults demo_config write_then_read ≡ 0 }
    ensures both_tries { prices_in_faults demo_config faults_use_up_the_tries ≡ 2 }
    ensures copy_0 { prices_in_faults redundant_config redundant_read_from_copy_1 ≡ 1 }
    ensures id_from_copy_1 { prices_in_faults demo_config id_from_copy_1 ≡ 2 }
    ensures copies_out { prices_in_refusals sync_config 2 all_copies_refused ≡ 2 }
    ensures no_fault { prices_in_faults sync_config all_copies_refused ≡ 0 }
    ensures copies_in { prices_in_refusals copy_in_config 2 copy_in_refused ≡ 1 }
    ensures other_block { prices_in_refusals copy_in_config 1 copy_in_refused ≡ 0 }
{}

/// Which marks may stand when the flash was asked for so many operations: before a Wrote the old one and the new one,
/// from the Wrote on the new one alone.
pub fn marks_at_a_cut()
    ensures old { IsAllowedAt demo_config (cut_and_found bytes_1) 13 (at 2 0) (Content bytes_1) }
    ensures new { IsAllowedAt demo_config (cut_and_found bytes_1) 13 (at 2 0) (Content bytes_2) }
    ensures not_erased { ¬ IsAllowedAt demo_config (cut_and_found bytes_1) 13 (at 2 0) Erased }
    ensures blank { IsAllowedAt demo_config write_then_read 9 (at 2 0) Erased }
    ensures first { IsAllowedAt demo_config write_then_read 9 (at 2 0) (Content bytes_1) }
    ensures settled { IsAllowedAt demo_config write_then_read 10 (at 2 0) (Content bytes_1) }
    ensures no_longer { ¬ IsAllowedAt demo_config write_then_read 10 (at 2 0) Erased }
    ensures unknown { ¬ IsAllowedAt demo_config write_then_read 10 (at 9 0) Erased }
{}

/// A request to write a content asks for that one, of its block alone.
pub fn marks_that_are_asked_for()
    ensures own { AsksFor (Write 2 (Some bytes_1) 0) 2 (Content bytes_1) }
    ensures other_content { ¬ AsksFor (Write 2 (Some bytes_1) 0) 2 (Content bytes_2) }
    ensures other_block { ¬ AsksFor (Write 2 (Some bytes_1) 0) 3 (Content bytes_1) }
    ensures erased { ¬ AsksFor (Write 2 (Some bytes_1) 0) 2 Erased }
{}
