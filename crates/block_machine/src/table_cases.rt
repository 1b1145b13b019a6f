// Tables: each refusal, each row of the results and of RAM, members of sweeps, the order of jobs.
ghost use Rattle.std.specs.Prelude.{◌≡◌, [], ◌∷◌, map, true, false, Some, None};
ghost use Rattle.block_config.specs.Block.{plain_block};
ghost use Rattle.block_config.specs.DemoConfig.{demo_config};
ghost use Rattle.block_machine.specs.Words.{Fine, NotOk, IntegrityFailed, BlockSkipped, Invalidated, Canceled, RedundancyFailed, Restored, Read, Write, Restore, Erase, Invalidate, SetIndex, GetIndex, SetProtection, SetLock, SetRam, PutRam, Status, ReadAll, WriteAll, CancelWriteAll, Accepted, Refused, StatusIs, UnknownBlock, NotStarted, WrongType, BadIndex, BadLength, NoRam, NoDefaults, NotImmediate, WriteOnce, MultiPending, BlockPending, Locked, Protected, RomIndex, NothingToCancel, QueueFull, ReadJob, WriteJob, RestoreJob, EraseJob, InvalidateJob, WriteAllJob, WroteMark, ReadContent, FoundErased, FoundInvalid, Failed, FromNowhere, FromDevice, FromDefaults, FromRom, Dataset, Off, Found, Erased, Invalid};
ghost use Rattle.block_machine.specs.Blocks.{mark_by, no_block, block_at, names_rom};
ghost use Rattle.block_machine.specs.Order.{goes_before};
ghost use Rattle.block_machine.specs.ResultTable.{table, unpicked};
ghost use Rattle.block_machine.specs.Results.{checked_id};
ghost use Rattle.block_machine.specs.Sweeps.{members_of, may_be_written, may_be_read, spoils, sweep_at, sweep_result};
ghost use Rattle.block_machine.specs.Reply.{needed, reserved_entries};
ghost use Rattle.block_machine.specs.Steps.{after, ended};
ghost use Rattle.block_machine.specs.Cases.{Replies, first, with_queues, flags_after, rank, ok, write, read, pick, pick_write, post, bytes_1, dataset_config, mixed_config, redundant_config, sync_config, once_config, urgent_config, guarded_config, readall_writeall, write_then_read, id_is_read};

/// Each refusal where it holds, and where it just doesn't.
pub fn requests_are_refused_by_the_table()
    ensures no_block_0 { Replies demo_config first (read 0) (Refused UnknownBlock) }
    ensures no_block_4 { Replies demo_config first (read 4) (Refused UnknownBlock) }
    ensures status_of_all { Replies demo_config first (Status 0) (StatusIs Fine) }
    ensures status_of_the_last { Replies demo_config first (Status 3) (StatusIs Fine) }
    ensures no_status_4 { Replies demo_config first (Status 4) (Refused UnknownBlock) }
    ensures off { Replies demo_config (Found [] 0 ∷ Off 0 ∷ []) (read 2) (Refused NotStarted) }
    ensures index_of_native { Replies demo_config first (SetIndex 2 0) (Refused WrongType) }
    ensures no_index_of_native { Replies demo_config first (GetIndex 2) (Refused WrongType) }
    ensures restore_of_dataset { Replies dataset_config first (Restore 2 false) (Refused WrongType) }
    ensures write_of_block_1 { Replies demo_config first (write 1 (0 ∷ 1 ∷ [])) (Refused WrongType) }
    ensures restore_of_block_1 { Replies demo_config first (Restore 1 false) Accepted }
    ensures index_beyond { Replies dataset_config first (SetIndex 2 5) (Refused BadIndex) }
    ensures last_index { Replies dataset_config first (SetIndex 2 4) Accepted }
    ensures short_write { Replies demo_config first (write 2 (1 ∷ [])) (Refused BadLength) }
    ensures short_ram { Replies demo_config first (PutRam 2 (1 ∷ [])) (Refused BadLength) }
    ensures ram_of_none { Replies demo_config first (Write 3 None 0) (Refused NoRam) }
    ensures ram_of_block_1 { Replies demo_config first (Read 1 true) (Refused NoRam) }
    ensures synchronized_is_not_put { Replies sync_config first (PutRam 2 bytes_1) (Refused NoRam) }
    ensures synchronized_is_read { Replies sync_config first (Read 2 true) Accepted }
    ensures no_defaults { Replies demo_config first (Restore 2 false) (Refused NoDefaults) }
    ensures erase_of_standard { Replies demo_config first (Erase 2) (Refused NotImmediate) }
    ensures erase_of_immediate { Replies demo_config first (Erase 3) Accepted }
    ensures write_once_stays_protected { Replies once_config first (SetProtection 2 false) (Refused WriteOnce) }
    ensures read_in_sweep { Replies demo_config (Found [] 0 ∷ ok ReadAll ∷ []) (read 2) (Refused MultiPending) }
    ensures put_while_pending { Replies demo_config (Found [] 0 ∷ ok (read 2) ∷ []) (PutRam 2 bytes_1) (Refused BlockPending) }
    ensures other_while_pending { Replies demo_config (Found [] 0 ∷ ok (read 2) ∷ []) (read 3) Accepted }
    ensures locked { Replies demo_config (Found [] 0 ∷ ok (SetLock 2 true) ∷ []) (write 2 bytes_1) (Refused Locked) }
    ensures locked_is_read { Replies demo_config (Found [] 0 ∷ ok (SetLock 2 true) ∷ []) (read 2) Accepted }
    ensures protected { Replies demo_config (Found [] 0 ∷ ok (SetProtection 2 true) ∷ []) (Invalidate 2) (Refused Protected) }
    ensures erase_of_protected { Replies demo_config (Found [] 0 ∷ ok (SetProtection 3 true) ∷ []) (Erase 3) (Refused Protected) }
    ensures unprotected { Replies demo_config (Found [] 0 ∷ ok (SetProtection 2 true) ∷ ok (SetProtection 2 false) ∷ []) (write 2 bytes_1) Accepted }
    ensures protected_from_the_start { Replies guarded_config first (write 4 bytes_1) (Refused Protected) }
    ensures last_rom { Replies dataset_config (Found [] 0 ∷ ok (SetIndex 2 4) ∷ []) (write 2 (1 ∷ 2 ∷ [])) (Refused RomIndex) }
    ensures last_stored { Replies dataset_config (Found [] 0 ∷ ok (SetIndex 2 2) ∷ []) (write 2 (1 ∷ 2 ∷ [])) Accepted }
    ensures cancel_of_readall { Replies demo_config (Found [] 0 ∷ ok ReadAll ∷ []) CancelWriteAll (Refused NothingToCancel) }
    ensures cancel_twice { Replies demo_config (Found [] 0 ∷ ok WriteAll ∷ ok CancelWriteAll ∷ []) CancelWriteAll (Refused NothingToCancel) }
    ensures immediate_queue_full { Replies (with_queues 8 1 urgent_config) (Found [] 0 ∷ ok (write 2 bytes_1) ∷ []) (write 3 bytes_1) (Refused QueueFull) }
    ensures other_queue_not { Replies (with_queues 8 1 urgent_config) (Found [] 0 ∷ ok (write 2 bytes_1) ∷ []) (read 3) Accepted }
    ensures picked_frees_the_queue { Replies (with_queues 8 1 urgent_config) (Found [] 0 ∷ ok (write 2 bytes_1) ∷ pick_write 2 bytes_1 0 ∷ []) (write 3 bytes_1) Accepted }
{}

/// The entries that a request reserves, and those that are reserved after a history.
pub fn entries_are_reserved()
    ensures read { needed demo_config (read 2) ≡ 2 }
    ensures restore { needed demo_config (Restore 3 false) ≡ 2 }
    ensures write { needed demo_config (write 2 bytes_1) ≡ 3 }
    ensures immediate { needed demo_config (Write 3 None 0) ≡ 5 }
    ensures erase { needed demo_config (Erase 3) ≡ 3 }
    ensures redundant { needed redundant_config (Invalidate 2) ≡ 4 }
    ensures readall { needed demo_config ReadAll ≡ 6 }
    ensures writeall { needed demo_config WriteAll ≡ 9 }
    ensures status { needed demo_config (Status 2) ≡ 0 }
    ensures one_off { reserved_entries demo_config (after demo_config first) ≡ 1 }
    ensures none_off { reserved_entries demo_config (after demo_config (Found [] 0 ∷ Off 0 ∷ [])) ≡ 0 }
    ensures interrupted { reserved_entries mixed_config (after mixed_config (Found [] 0 ∷ ok (write 2 bytes_1) ∷ pick_write 2 bytes_1 0 ∷ ok (write 3 bytes_1) ∷ pick_write 3 bytes_1 0 ∷ [])) ≡ 8 }
    ensures sweep { reserved_entries demo_config (after demo_config (Found [] 0 ∷ ok WriteAll ∷ [])) ≡ 10 }
    ensures under_way { reserved_entries demo_config (after demo_config (Found [] 0 ∷ ok WriteAll ∷ pick 0 WriteAllJob 0 ∷ [])) ≡ 9 }
    ensures member_left_out { reserved_entries demo_config (after demo_config (Found [] 0 ∷ ok WriteAll ∷ pick 0 WriteAllJob 0 ∷ post 2 BlockSkipped 0 ∷ [])) ≡ 6 }
{}

/// Each row of the table of results.
pub fn results_by_the_table()
    ensures content { table false ReadJob (ReadContent ∷ []) ≡ (Fine, FromDevice) }
    ensures invalid { table true ReadJob (FoundInvalid ∷ []) ≡ (Invalidated, FromNowhere) }
    ensures erased { table true ReadJob (FoundErased ∷ []) ≡ (Restored, FromDefaults) }
    ensures erased_bare { table false ReadJob (FoundErased ∷ []) ≡ (IntegrityFailed, FromNowhere) }
    ensures failed { table true ReadJob (Failed ∷ []) ≡ (Restored, FromDefaults) }
    ensures failed_bare { table false ReadJob (Failed ∷ []) ≡ (NotOk, FromNowhere) }
    ensures rom { table false ReadJob ([]) ≡ (Fine, FromRom) }
    ensures copy_0 { table true ReadJob (ReadContent ∷ Failed ∷ []) ≡ (Fine, FromDevice) }
    ensures copy_0_invalid { table true ReadJob (FoundInvalid ∷ ReadContent ∷ []) ≡ (Invalidated, FromNowhere) }
    ensures copy_1 { table true ReadJob (FoundErased ∷ ReadContent ∷ []) ≡ (Fine, FromDevice) }
    ensures copy_1_saves { table true ReadJob (Failed ∷ ReadContent ∷ []) ≡ (RedundancyFailed, FromDevice) }
    ensures erased_invalid { table true ReadJob (FoundErased ∷ FoundInvalid ∷ []) ≡ (Invalidated, FromNowhere) }
    ensures failed_invalid { table true ReadJob (Failed ∷ FoundInvalid ∷ []) ≡ (Invalidated, FromNowhere) }
    ensures both_erased { table false ReadJob (FoundErased ∷ FoundErased ∷ []) ≡ (IntegrityFailed, FromNowhere) }
    ensures both_erased_restored { table true ReadJob (FoundErased ∷ FoundErased ∷ []) ≡ (Restored, FromDefaults) }
    ensures both_failed { table false ReadJob (Failed ∷ Failed ∷ []) ≡ (NotOk, FromNowhere) }
    ensures erased_failed { table false ReadJob (FoundErased ∷ Failed ∷ []) ≡ (NotOk, FromNowhere) }
    ensures failed_erased { table true ReadJob (Failed ∷ FoundErased ∷ []) ≡ (Restored, FromDefaults) }
    ensures failed_erased_bare { table false ReadJob (Failed ∷ FoundErased ∷ []) ≡ (NotOk, FromNowhere) }
    ensures restored { table true RestoreJob ([]) ≡ (Fine, FromDefaults) }
    ensures written { table true WriteJob (WroteMark ∷ []) ≡ (Fine, FromNowhere) }
    ensures not_written { table true EraseJob (Failed ∷ []) ≡ (NotOk, FromNowhere) }
    ensures both_written { table false InvalidateJob (WroteMark ∷ WroteMark ∷ []) ≡ (Fine, FromNowhere) }
    ensures copy_0_written { table false WriteJob (WroteMark ∷ Failed ∷ []) ≡ (RedundancyFailed, FromNowhere) }
    ensures copy_1_written { table false WriteJob (Failed ∷ WroteMark ∷ []) ≡ (RedundancyFailed, FromNowhere) }
    ensures neither_written { table false WriteJob (Failed ∷ Failed ∷ []) ≡ (NotOk, FromNowhere) }
    ensures erases { mark_by EraseJob None ≡ Some Erased }
    ensures invalidates { mark_by InvalidateJob None ≡ Some Invalid }
    ensures skipped { unpicked true true ≡ (BlockSkipped, FromNowhere) }
    ensures offered { unpicked false true ≡ (Restored, FromDefaults) }
    ensures nothing_to_offer { unpicked false false ≡ (IntegrityFailed, FromNowhere) }
    ensures same_id { checked_id (Some (0 ∷ 1 ∷ [])) (RedundancyFailed, Some (0 ∷ 1 ∷ [])) ≡ (RedundancyFailed, Some (0 ∷ 1 ∷ [])) }
    ensures other_id { checked_id (Some (0 ∷ 1 ∷ [])) (Fine, Some (0 ∷ 2 ∷ [])) ≡ (Restored, Some (0 ∷ 1 ∷ [])) }
    ensures no_id { checked_id (Some (0 ∷ 1 ∷ [])) (Invalidated, None) ≡ (Restored, Some (0 ∷ 1 ∷ [])) }
{}

/// RAM and its flags after each job, and after the requests that change them.
pub fn ram_by_the_table()
    ensures read_0 { flags_after false ReadJob Fine ≡ (true, false) }
    ensures read_7 { flags_after false ReadJob RedundancyFailed ≡ (true, false) }
    ensures read_8 { flags_after false ReadJob Restored ≡ (true, true) }
    ensures restore_0 { flags_after false RestoreJob Fine ≡ (true, true) }
    ensures write_0 { flags_after false WriteJob Fine ≡ (true, false) }
    ensures write_7 { flags_after false WriteJob RedundancyFailed ≡ (true, false) }
    ensures read_1 { flags_after true ReadJob NotOk ≡ (false, false) }
    ensures read_3 { flags_after true ReadJob IntegrityFailed ≡ (false, false) }
    ensures read_5 { flags_after true ReadJob Invalidated ≡ (false, false) }
    ensures read_over_changed { flags_after true ReadJob Fine ≡ (true, false) }
    ensures write_over_changed { flags_after true WriteJob Fine ≡ (true, false) }
    ensures write_1_as_before { flags_after true WriteJob NotOk ≡ (true, true) }
    ensures write_1_as_new { flags_after false WriteJob NotOk ≡ (false, false) }
    ensures restore_1_as_before { flags_after true RestoreJob NotOk ≡ (true, true) }
    ensures restore_1_as_new { flags_after false RestoreJob NotOk ≡ (false, false) }
    ensures skipped_as_before { flags_after true WriteJob BlockSkipped ≡ (true, true) }
    ensures skipped_as_new { flags_after false WriteJob BlockSkipped ≡ (false, false) }
    ensures erase_as_before { flags_after true EraseJob Fine ≡ (true, true) }
    ensures erase_as_new { flags_after false EraseJob Fine ≡ (false, false) }
    ensures put { (block_at (after demo_config (Found [] 0 ∷ ok (PutRam 2 bytes_1) ∷ [])) 2).ram ≡ bytes_1 }
    ensures put_is_not_valid { (block_at (after demo_config (Found [] 0 ∷ ok (PutRam 2 bytes_1) ∷ [])) 2).valid ≡ false }
    ensures put_is_not_changed { (block_at (after demo_config (Found [] 0 ∷ ok (PutRam 2 bytes_1) ∷ [])) 2).changed ≡ false }
    ensures unset { (block_at (after demo_config (Found [] 0 ∷ ok (SetRam 2 true) ∷ ok (SetRam 2 false) ∷ [])) 2).changed ≡ false }
    ensures zeros_at_first { (block_at (after demo_config first) 2).ram ≡ (0 ∷ 0 ∷ 0 ∷ 0 ∷ []) }
    ensures manager_ram { (block_at (after demo_config readall_writeall) 1).ram ≡ (0 ∷ 1 ∷ []) }
    ensures read_to_buffer { (block_at (after demo_config write_then_read) 2).ram ≡ (0 ∷ 0 ∷ 0 ∷ 0 ∷ []) }
    ensures read_to_ram { (block_at (after demo_config (id_is_read Fine Fine)) 2).ram ≡ bytes_1 }
    ensures write_protects_once { (ended (record (plain_block 4) { once = true }) false WriteJob false RedundancyFailed None no_block).protected ≡ true }
    ensures failed_write_protects_not { (ended (record (plain_block 4) { once = true }) false WriteJob false NotOk None no_block).protected ≡ false }
{}

/// Which members a sweep has, which it picks, and how it ends.
pub fn sweeps_by_their_members()
    ensures written { may_be_written true true false false false ≡ true }
    ensures invalid_is_skipped { may_be_written false true false false false ≡ false }
    ensures unchanged_is_skipped { may_be_written true false false false false ≡ false }
    ensures locked_is_skipped { may_be_written true true true false false ≡ false }
    ensures protected_is_skipped { may_be_written true true false true false ≡ false }
    ensures at_rom_is_skipped { may_be_written true true false false true ≡ false }
    ensures id_is_read { may_be_read 1 false false ≡ true }
    ensures same_is_read { may_be_read 2 true false ≡ true }
    ensures resistant_is_read { may_be_read 2 false true ≡ true }
    ensures other_is_not_read { may_be_read 2 false false ≡ false }
    ensures readall_begins_with_1 { members_of demo_config false ≡ 1 ∷ 2 ∷ [] }
    ensures writeall_ends_with_1 { members_of demo_config true ≡ 2 ∷ 1 ∷ [] }
    ensures spoiled { map spoils (Fine ∷ NotOk ∷ IntegrityFailed ∷ BlockSkipped ∷ Invalidated ∷ Canceled ∷ RedundancyFailed ∷ Restored ∷ []) ≡ false ∷ true ∷ true ∷ false ∷ true ∷ false ∷ true ∷ false ∷ [] }
    ensures canceled_before_spoiled { sweep_result (record (sweep_at demo_config 0 true) { canceled = true; spoiled = true }) ≡ Canceled }
    ensures rom_from_nv_on { map (λ index. names_rom (record (plain_block 2) { kind = Dataset; nv = 3 }) (record no_block { index = index })) (2 ∷ 3 ∷ 4 ∷ []) ≡ false ∷ true ∷ true ∷ [] }
{}

/// Immediate jobs by acceptance, then standard ones by priority and acceptance.
pub fn jobs_in_order()
    ensures immediate_first { goes_before (rank true 0 9) (rank false 1 3) ≡ true }
    ensures standard_not_first { goes_before (rank false 0 3) (rank true 0 9) ≡ false }
    ensures immediate_by_number { goes_before (rank true 0 3) (rank true 0 9) ≡ true }
    ensures immediate_not_by_number { goes_before (rank true 0 9) (rank true 0 3) ≡ false }
    ensures by_priority { goes_before (rank false 10 9) (rank false 100 3) ≡ true }
    ensures not_by_priority { goes_before (rank false 100 3) (rank false 10 9) ≡ false }
    ensures by_number { goes_before (rank false 10 3) (rank false 10 9) ≡ true }
    ensures not_by_number { goes_before (rank false 10 9) (rank false 10 3) ≡ false }
{}
