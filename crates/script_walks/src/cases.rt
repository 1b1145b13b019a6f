// Worked cases: histories that are legal, and walks of their scripts.
ghost use Rattle.std.specs.Prelude.{[], ◌∷◌, None, Some, false, replicate, true, ◌++◌, flat_map};
ghost use Rattle.block_machine.specs.block_config.DemoConfig.{demo_config};
ghost use Rattle.nvm_script.specs.declared.step.StepKind.TheVariants.{Turn, Restart, Cut, Refuse};
ghost use Rattle.block_machine.specs.Words.{CancelWriteAll, Ask, BlockPending, Canceled, Content, Erase, EraseJob, Erased, Fine, Found, IntegrityFailed, Invalid, Invalidate, InvalidateJob, Invalidated, NothingToCancel, Off, Pick, PutRam, QueueFull, ReadAll, ReadJob, Restore, RestoreJob, Restored, SetIndex, SetRam, Status, StatusIs, TookContent, Write, WriteAll, WriteAllJob, WriteJob, Wrote};
ghost use Rattle.block_machine.specs.Cases.{write_then_read, queue_config, faults_use_up_the_tries, redundant_read_from_copy_1, redundant_config, dataset_and_rom, dataset_config, cancel_config, all_copies_refused, sync_config, readall_writeall, copy_in_refused, copy_in_config, at, bytes_1, bytes_2, config_of, four, give, ok, one_write, pick, pick_write, post, put_all, read, refused, small, write, wrote, cut_and_found};
ghost use Rattle.script_walks.specs.Cases.{IsWalkIn, asks, cut_script, refuse_script, IsWorked, does, drain};
ghost use Rattle.block_machine.specs.block_config.Block.{plain_block};

/// Writes and reads on blank and on written flash.
pub fn simple_cases_are_walks()
    ensures write_then_read { IsWalkIn demo_config (asks (write 2 bytes_1) ∷ drain ∷ asks (read 2) ∷ drain ∷ []) (1 ∷ 3 ∷ 1 ∷ 2 ∷ []) write_then_read }
    ensures read_blank { IsWorked demo_config (asks (read 2) ∷ drain ∷ asks (read 3) ∷ drain ∷ []) (1 ∷ 2 ∷ 1 ∷ 2 ∷ []) (Found [] 0 ∷ ok (read 2) ∷ pick 2 ReadJob 0 ∷ post 2 IntegrityFailed 0 ∷ ok (read 3) ∷ pick 3 ReadJob 0 ∷ give 3 Restored (replicate 20 0xa5) 0 ∷ []) }
    ensures second_write_is_pending { IsWorked demo_config (asks (write 2 bytes_1) ∷ asks (write 2 bytes_2) ∷ drain ∷ []) (1 ∷ 1 ∷ 3 ∷ []) (Found [] 0 ∷ ok (write 2 bytes_1) ∷ refused (write 2 bytes_2) BlockPending ∷ pick_write 2 bytes_1 0 ∷ wrote 2 0 bytes_1 10 ∷ post 2 Fine 10 ∷ []) }
    ensures invalidate { IsWorked demo_config
        (asks (write 2 bytes_1) ∷ drain ∷ asks (Invalidate 2) ∷ drain ∷ asks (read 2) ∷ drain ∷ []) (1 ∷ 3 ∷ 1 ∷ 3 ∷ 1 ∷ 2 ∷ [])
        (one_write ++ ok (Invalidate 2) ∷ pick 2 InvalidateJob 10 ∷ Wrote (at 2 0) Invalid 13 ∷ post 2 Fine 13 ∷ ok (read 2) ∷ pick 2 ReadJob 13
        ∷ post 2 Invalidated 13 ∷ []) }
    ensures nothing_to_cancel { IsWorked demo_config (asks CancelWriteAll ∷ []) (1 ∷ []) (Found [] 0 ∷ refused CancelWriteAll NothingToCancel ∷ []) }
{}

/// Cuts, faults and start-ups.
pub fn cases_with_faults_are_walks()
    ensures cut_before_commit_gate { IsWalkIn demo_config (cut_script 0) (1 ∷ 3 ∷ 1 ∷ 0 ∷ 2 ∷ 1 ∷ 1 ∷ 2 ∷ []) (cut_and_found bytes_1) }
    ensures cut_keeps_commit_gate { IsWalkIn demo_config (cut_script 16) (1 ∷ 3 ∷ 1 ∷ 0 ∷ 2 ∷ 1 ∷ 1 ∷ 2 ∷ []) (cut_and_found bytes_2) }
    ensures torn_header_closes_the_bank { IsWorked demo_config
        (asks (write 2 bytes_1) ∷ drain ∷ asks (write 2 bytes_2) ∷ does (Cut 1 5) ∷ drain ∷ does Restart ∷ asks (write 2 (four 0x99)) ∷ drain ∷ [])
        (1 ∷ 3 ∷ 1 ∷ 0 ∷ 2 ∷ 1 ∷ 1 ∷ 3 ∷ [])
        (one_write ++ ok (write 2 bytes_2) ∷ pick_write 2 bytes_2 10 ∷ Off 11 ∷ Found ((at 2 0, Content bytes_1) ∷ []) 11 ∷ ok (write 2 (four 0x99))
        ∷ pick_write 2 (four 0x99) 11 ∷ wrote 2 0 (four 0x99) 25 ∷ post 2 Fine 25 ∷ []) }
    ensures restart_in_the_middle { IsWorked demo_config
        (asks (write 2 bytes_1) ∷ does (Turn 8) ∷ does Restart ∷ asks (read 2) ∷ drain ∷ []) (1 ∷ 1 ∷ 1 ∷ 1 ∷ 2 ∷ [])
        (Found [] 0 ∷ ok (write 2 bytes_1) ∷ pick_write 2 bytes_1 0 ∷ Found [] 7 ∷ ok (read 2) ∷ pick 2 ReadJob 7 ∷ post 2 IntegrityFailed 7 ∷ []) }
    ensures faults_use_up_the_tries { IsWalkIn demo_config (asks (write 2 bytes_1) ∷ drain ∷ asks (write 2 bytes_2) ∷ drain ∷ asks (read 2) ∷ drain ∷ does Restart ∷ []) (1 ∷ 3 ∷ 1 ∷ 2 ∷ 1 ∷ 2 ∷ 1 ∷ []) faults_use_up_the_tries }
    ensures redundant_read_from_copy_1 { IsWalkIn redundant_config (asks (write 2 (four 10)) ∷ drain ∷ asks (write 2 (four 11)) ∷ does (Cut 5 0) ∷ drain ∷ does Restart ∷ asks (read 2) ∷ drain ∷ []) (1 ∷ 4 ∷ 1 ∷ 0 ∷ 3 ∷ 1 ∷ 1 ∷ 2 ∷ []) redundant_read_from_copy_1 }
{}

/// The order of jobs.
pub fn cases_of_order_are_walks()
    ensures immediate_write_interrupts { IsWorked (config_of (record (plain_block 976) { priority = 10 } ∷ record (plain_block 16) { priority = 0 } ∷ []))
        (asks (write 2 (replicate 976 0x5a)) ∷ does (Turn 20) ∷ asks (write 3 (replicate 16 0x11)) ∷ drain ∷ []) (1 ∷ 1 ∷ 1 ∷ 6 ∷ [])
        (Found [] 0 ∷ ok (write 2 (replicate 976 0x5a)) ∷ pick_write 2 (replicate 976 0x5a) 0 ∷ ok (write 3 (replicate 16 0x11))
        ∷ pick_write 3 (replicate 16 0x11) 19 ∷ wrote 3 0 (replicate 16 0x11) 23 ∷ post 3 Fine 23 ∷ pick_write 2 (replicate 976 0x5a) 23
        ∷ wrote 2 0 (replicate 976 0x5a) 87 ∷ post 2 Fine 87 ∷ []) }
    ensures queue_full { IsWorked queue_config
        (asks (write 2 (small 2)) ∷ asks (write 3 (small 3)) ∷ asks (write 4 (small 4)) ∷ does (Turn 1) ∷ asks (write 4 (small 4)) ∷ [])
        (1 ∷ 1 ∷ 1 ∷ 1 ∷ 1 ∷ [])
        (Found [] 0 ∷ ok (write 2 (small 2)) ∷ ok (write 3 (small 3)) ∷ refused (write 4 (small 4)) QueueFull ∷ pick_write 2 (small 2) 0
        ∷ ok (write 4 (small 4)) ∷ []) }
    ensures dataset_and_rom { IsWalkIn dataset_config (asks (SetIndex 2 2) ∷ asks (write 2 (1 ∷ 2 ∷ [])) ∷ drain ∷ asks (SetIndex 2 3) ∷ asks (write 2 (3 ∷ 4 ∷ [])) ∷ asks (read 2) ∷ drain ∷ asks (SetIndex 2 5) ∷ []) (1 ∷ 1 ∷ 3 ∷ 1 ∷ 1 ∷ 1 ∷ 2 ∷ 1 ∷ []) dataset_and_rom }
    ensures restore_and_erase { IsWorked (config_of (record (plain_block 2) { priority = 0; defaults = Some (10 ∷ 11 ∷ []) } ∷ []))
        (asks (Restore 2 false) ∷ drain ∷ asks (Erase 2) ∷ drain ∷ asks (read 2) ∷ drain ∷ []) (1 ∷ 2 ∷ 1 ∷ 3 ∷ 1 ∷ 2 ∷ [])
        (Found [] 0 ∷ ok (Restore 2 false) ∷ pick 2 RestoreJob 0 ∷ give 2 Fine (10 ∷ 11 ∷ []) 0 ∷ ok (Erase 2) ∷ pick 2 EraseJob 0 ∷ Wrote (at 2 0) Erased 9
        ∷ post 2 Fine 9 ∷ ok (read 2) ∷ pick 2 ReadJob 9 ∷ give 2 Restored (10 ∷ 11 ∷ []) 9 ∷ []) }
{}

/// RAM and sweeps.
pub fn cases_of_ram_are_walks()
    ensures canceled_writeall { IsWorked cancel_config
        (flat_map (λ n. asks (PutRam n (small n)) ∷ asks (SetRam n true) ∷ []) (2 ∷ 3 ∷ 4 ∷ 5 ∷ 6 ∷ []) ++ asks WriteAll ∷ does (Turn 15) ∷ asks CancelWriteAll
        ∷ drain ∷ asks (Status 0) ∷ asks (Status 4) ∷ []) (1 ∷ 1 ∷ 1 ∷ 1 ∷ 1 ∷ 1 ∷ 1 ∷ 1 ∷ 1 ∷ 1 ∷ 1 ∷ 5 ∷ 1 ∷ 3 ∷ 1 ∷ 1 ∷ [])
        (put_all ++ ok WriteAll ∷ pick 0 WriteAllJob 0 ∷ pick_write 2 (small 2) 0 ∷ wrote 2 0 (small 2) 10 ∷ post 2 Fine 10 ∷ pick_write 3 (small 3) 10
        ∷ ok CancelWriteAll ∷ wrote 3 0 (small 3) 14 ∷ post 3 Fine 14 ∷ post 0 Canceled 14 ∷ Ask 0 (Status 0) (StatusIs Canceled)
        ∷ Ask 0 (Status 4) (StatusIs Fine) ∷ []) }
    ensures readall_writeall { IsWalkIn demo_config (asks ReadAll ∷ drain ∷ asks WriteAll ∷ drain ∷ []) (1 ∷ 5 ∷ 1 ∷ 7 ∷ []) readall_writeall }
    ensures all_copies_refused { IsWalkIn sync_config (refuse_script 2) (0 ∷ 0 ∷ 1 ∷ 2 ∷ []) all_copies_refused }
    ensures one_copy_refused { IsWorked sync_config (refuse_script 1) (0 ∷ 0 ∷ 1 ∷ 3 ∷ []) (Found [] 0 ∷ ok (Write 2 None 1) ∷ Pick 2 WriteJob (TookContent (1 ∷ 2 ∷ 3 ∷ 4 ∷ []) 1) 0 ∷ wrote 2 0 (1 ∷ 2 ∷ 3 ∷ 4 ∷ []) 10 ∷ post 2 Fine 10 ∷ []) }
    ensures copy_in_refused { IsWalkIn copy_in_config (does (Refuse 2 1) ∷ asks (Restore 2 true) ∷ drain ∷ []) (0 ∷ 1 ∷ 2 ∷ []) copy_in_refused }
{}
