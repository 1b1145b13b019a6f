// Histories that no run may have, each one step from a legal one.
ghost use Rattle.std.specs.Prelude.{[], ◌∷◌, ◌++◌, replicate, None, true};
ghost use Rattle.block_config.specs.DemoConfig.{demo_config};
ghost use Rattle.block_machine.specs.Words.{Fine, NotOk, Pending, IntegrityFailed, BlockSkipped, RedundancyFailed, Restored, Content, Invalid, Erased, Read, Write, SetIndex, SetLock, SetRam, PutRam, Status, ReadAll, WriteAll, CancelWriteAll, Accepted, StatusIs, BadLength, Locked, HistoryFull, ReadJob, WriteJob, ReadAllJob, WriteAllJob, TookContent, TookRefused, TookStale, Ask, Pick, Post, Off, Found};
ghost use Rattle.block_machine.specs.Legal.{IsLegal};
ghost use Rattle.block_machine.specs.Cases.{cap, FailsAtLast, ok, refused, write, read, pick, pick_write, at, wrote, post, give, bytes_1, bytes_2, four, small, one_write, put_all, open_write, queue_config, dataset_config, mixed_config, redundant_config, sync_config, cancel_config, sync_plain, once_config, urgent_config, config_of};
ghost use Rattle.block_config.specs.Block.{plain_block};

/// Jobs: their order, what they take, what they write.
pub fn wrong_jobs_are_refuted()
    ensures standard_before_immediate { FailsAtLast demo_config cap (Found [] 0 ∷ ok (write 2 bytes_1) ∷ ok (write 3 (replicate 20 1)) ∷ pick_write 2 bytes_1 0 ∷ []) }
    ensures copy_1_before_copy_0 { FailsAtLast redundant_config cap (Found [] 0 ∷ ok (write 2 (four 10)) ∷ pick_write 2 (four 10) 0 ∷ wrote 2 1 (four 10) 10 ∷ wrote 2 0 (four 10) 14 ∷ []) }
    ensures immediate_interrupted { FailsAtLast urgent_config cap (Found [] 0 ∷ ok (write 2 bytes_1) ∷ pick_write 2 bytes_1 0 ∷ ok (write 3 bytes_2) ∷ pick_write 3 bytes_2 4 ∷ []) }
    ensures lower_priority_first { FailsAtLast (config_of (record (plain_block 4) { priority = 100 } ∷ record (plain_block 4) { priority = 10 } ∷ [])) cap (Found [] 0 ∷ ok (write 2 bytes_1) ∷ ok (write 3 bytes_1) ∷ pick_write 2 bytes_1 0 ∷ []) }
    ensures later_request_first { FailsAtLast queue_config cap (Found [] 0 ∷ ok (write 2 bytes_1) ∷ ok (write 3 bytes_1) ∷ pick_write 3 bytes_1 0 ∷ []) }
    ensures standard_interrupts { FailsAtLast queue_config cap (Found [] 0 ∷ ok (write 2 bytes_1) ∷ ok (write 3 bytes_1) ∷ pick_write 2 bytes_1 0 ∷ pick_write 3 bytes_1 0 ∷ []) }
    ensures takes_ram_again { FailsAtLast mixed_config cap (Found [] 0 ∷ ok (PutRam 2 bytes_1) ∷ ok (Write 2 None 0) ∷ pick_write 2 bytes_1 0 ∷ wrote 2 0 bytes_1 10 ∷ ok (write 3 bytes_2) ∷ pick_write 3 bytes_2 11 ∷ wrote 3 0 bytes_2 15 ∷ post 3 Fine 15 ∷ pick_write 2 bytes_2 15 ∷ []) }
    ensures copy_not_written_again { FailsAtLast mixed_config cap (Found [] 0 ∷ ok (PutRam 2 bytes_1) ∷ ok (Write 2 None 0) ∷ pick_write 2 bytes_1 0
        ∷ wrote 2 0 bytes_1 10 ∷ ok (write 3 bytes_2) ∷ pick_write 3 bytes_2 11 ∷ wrote 3 0 bytes_2 15 ∷ post 3 Fine 15 ∷ pick_write 2 bytes_1 15
        ∷ wrote 2 1 bytes_1 19 ∷ post 2 Fine 19 ∷ []) }
    ensures other_mark_written { FailsAtLast demo_config cap (Found [] 0 ∷ ok (write 2 bytes_1) ∷ pick_write 2 bytes_1 0 ∷ wrote 2 0 bytes_2 10 ∷ []) }
    ensures written_twice { FailsAtLast demo_config cap (open_write ++ wrote 2 0 bytes_1 10 ∷ []) }
    ensures read_writes { FailsAtLast demo_config cap (Found [] 0 ∷ ok (read 2) ∷ pick 2 ReadJob 0 ∷ wrote 2 0 bytes_1 10 ∷ []) }
    ensures written_while_off { FailsAtLast demo_config cap (Found [] 0 ∷ ok (write 2 bytes_1) ∷ pick_write 2 bytes_1 0 ∷ Off 5 ∷ wrote 2 0 bytes_1 10 ∷ []) }
    ensures finished_interrupted { ¬ IsLegal demo_config cap (open_write ++ ok (write 3 (replicate 20 1)) ∷ pick_write 3 (replicate 20 1) 10 ∷ []) }
{}

/// Jobs: what they end with.
pub fn wrong_posts_are_refuted()
    ensures post_before_wrote { FailsAtLast demo_config cap (Found [] 0 ∷ ok (write 2 bytes_1) ∷ pick_write 2 bytes_1 0 ∷ post 2 Fine 10 ∷ []) }
    ensures read_of_older { FailsAtLast demo_config cap (one_write ++ ok (write 2 bytes_2) ∷ pick_write 2 bytes_2 10 ∷ wrote 2 0 bytes_2 14 ∷ post 2 Fine 14 ∷ ok (read 2) ∷ pick 2 ReadJob 14 ∷ give 2 Fine bytes_1 14 ∷ []) }
    ensures one_copy_posted_ok { FailsAtLast redundant_config cap (Found [] 0 ∷ ok (write 2 (four 10)) ∷ pick_write 2 (four 10) 0 ∷ wrote 2 0 (four 10) 10 ∷ post 2 Fine 18 ∷ []) }
    ensures defaults_from_nowhere { FailsAtLast demo_config cap (Found [] 0 ∷ ok (read 2) ∷ pick 2 ReadJob 0 ∷ give 2 Restored bytes_1 0 ∷ []) }
    ensures refused_without_copies { FailsAtLast demo_config cap (one_write ++ ok (Read 2 true) ∷ pick 2 ReadJob 10 ∷ Post 2 NotOk None 1 10 ∷ []) }
    ensures posted_before_pick { FailsAtLast demo_config cap (Found [] 0 ∷ ok (read 2) ∷ post 2 IntegrityFailed 0 ∷ []) }
    ensures failed_though_written { FailsAtLast demo_config cap (open_write ++ post 2 NotOk 10 ∷ []) }
    ensures invalid_posted_as_failed { FailsAtLast demo_config cap (Found ((at 2 0, Invalid) ∷ []) 0 ∷ ok (read 2) ∷ pick 2 ReadJob 0 ∷ post 2 NotOk 0 ∷ []) }
    ensures refused_with_nothing_to_give { FailsAtLast sync_plain cap (Found ((at 2 0, Invalid) ∷ []) 0 ∷ ok (Read 2 true) ∷ pick 2 ReadJob 0 ∷ Post 2 NotOk None 1 0 ∷ []) }
    ensures copy_1_as_failed { FailsAtLast redundant_config cap (Found ((at 2 1, Content bytes_1) ∷ []) 0 ∷ ok (read 2) ∷ pick 2 ReadJob 0 ∷ give 2 RedundancyFailed bytes_1 0 ∷ []) }
    ensures write_gives { FailsAtLast demo_config cap (open_write ++ give 2 Fine bytes_1 10 ∷ []) }
    ensures other_rom_given { FailsAtLast dataset_config cap (Found [] 0 ∷ ok (SetIndex 2 4) ∷ ok (read 2) ∷ pick 2 ReadJob 0 ∷ give 2 Fine (0xaa ∷ 0xbb ∷ []) 0 ∷ []) }
{}

/// Start-ups, and what comes at the wrong time.
pub fn wrong_start_ups_are_refuted()
    ensures found_unwritten { FailsAtLast demo_config cap (one_write ++ Found ((at 2 0, Content bytes_2) ∷ []) 10 ∷ []) }
    ensures found_without_acknowledged { FailsAtLast demo_config cap (one_write ++ Found [] 10 ∷ []) }
    ensures found_unknown { FailsAtLast demo_config cap (Found ((at 9 0, Content bytes_1) ∷ []) 0 ∷ []) }
    ensures found_other_length { FailsAtLast demo_config cap (Found ((at 2 0, Content (1 ∷ [])) ∷ []) 0 ∷ []) }
    ensures pick_while_off { FailsAtLast demo_config cap (Found [] 0 ∷ ok (write 2 bytes_1) ∷ Off 0 ∷ pick_write 2 bytes_1 0 ∷ []) }
    ensures ops_fall { FailsAtLast demo_config cap (Found [] 0 ∷ ok (write 2 bytes_1) ∷ pick_write 2 bytes_1 4 ∷ wrote 2 0 bytes_1 3 ∷ []) }
    ensures ask_before_found { FailsAtLast demo_config cap (ok (write 2 bytes_1) ∷ []) }
    ensures off_twice { FailsAtLast demo_config cap (Found [] 0 ∷ Off 0 ∷ Off 0 ∷ []) }
    ensures found_older { FailsAtLast demo_config cap (one_write ++ ok (write 2 bytes_2) ∷ pick_write 2 bytes_2 10 ∷ wrote 2 0 bytes_2 14 ∷ Found ((at 2 0, Content bytes_1) ∷ []) 14 ∷ []) }
    ensures found_out_of_order { FailsAtLast queue_config cap (Found ((at 3 0, Content bytes_1) ∷ (at 2 0, Content bytes_1) ∷ []) 0 ∷ []) }
    ensures found_one_twice { FailsAtLast demo_config cap (Found ((at 2 0, Content bytes_1) ∷ (at 2 0, Content bytes_2) ∷ []) 0 ∷ []) }
    ensures found_erased { FailsAtLast demo_config cap (Found ((at 2 0, Erased) ∷ []) 0 ∷ []) }
    ensures found_past_cap { FailsAtLast demo_config 3 (Found [] 0 ∷ Found [] 0 ∷ Found [] 0 ∷ []) }
{}

/// Replies.
pub fn wrong_replies_are_refuted()
    ensures other_block_pending { FailsAtLast demo_config cap (Found [] 0 ∷ ok (write 2 bytes_1) ∷ Ask 0 (Status 3) (StatusIs Pending) ∷ []) }
    ensures refused_but_pending { FailsAtLast demo_config cap (Found [] 0 ∷ refused (write 2 (1 ∷ [])) BadLength ∷ Ask 0 (Status 2) (StatusIs Pending) ∷ []) }
    ensures second_write_accepted { FailsAtLast demo_config cap (Found [] 0 ∷ ok (write 2 bytes_1) ∷ ok (write 2 bytes_2) ∷ []) }
    ensures once_written_twice { FailsAtLast once_config cap (one_write ++ ok (write 2 bytes_2) ∷ []) }
    ensures ask_past_cap { FailsAtLast demo_config 3 (Found [] 0 ∷ Ask 0 (Status 2) (StatusIs Fine) ∷ Ask 0 (Status 2) (StatusIs Fine) ∷ []) }
    ensures accepted_while_off { FailsAtLast demo_config cap (Found [] 0 ∷ Off 0 ∷ ok (write 2 bytes_1) ∷ []) }
    ensures caller_16 { FailsAtLast demo_config cap (Found [] 0 ∷ Ask 16 (Status 2) (StatusIs Fine) ∷ []) }
    ensures store_of_plain_ram { FailsAtLast demo_config cap (Found [] 0 ∷ Ask 0 (Write 2 None 1) Accepted ∷ []) }
    ensures full_too_early { FailsAtLast demo_config cap (Found [] 0 ∷ refused (write 2 bytes_1) HistoryFull ∷ []) }
    ensures locked_after_start_up { FailsAtLast demo_config cap (Found [] 0 ∷ ok (SetLock 2 true) ∷ Found [] 0 ∷ refused (write 2 bytes_1) Locked ∷ []) }
{}

/// Copies of RAM.
pub fn wrong_copies_are_refuted()
    ensures stale_store { FailsAtLast sync_config cap (Found [] 0 ∷ ok (Write 2 None 2) ∷ Pick 2 WriteJob (TookContent (1 ∷ 2 ∷ 3 ∷ 4 ∷ []) 1) 0 ∷ []) }
    ensures other_than_ram { FailsAtLast demo_config cap (Found [] 0 ∷ ok (PutRam 2 bytes_1) ∷ ok (Write 2 None 0) ∷ pick_write 2 bytes_2 0 ∷ []) }
    ensures refused_more_than_tried { FailsAtLast sync_plain cap (Found [] 0 ∷ ok (Write 2 None 1) ∷ Pick 2 WriteJob (TookRefused 2) 0 ∷ []) }
    ensures stale_as_new { FailsAtLast sync_plain cap (Found [] 0 ∷ ok (Write 2 None 1) ∷ Pick 2 WriteJob (TookStale 1 1 1) 0 ∷ []) }
    ensures refused_of_plain_ram { FailsAtLast demo_config cap (Found [] 0 ∷ ok (Write 2 None 0) ∷ Pick 2 WriteJob (TookRefused 1) 0 ∷ []) }
    ensures none_taken_posted_ok { FailsAtLast sync_plain cap (Found [] 0 ∷ ok (Write 2 None 1) ∷ Pick 2 WriteJob (TookRefused 1) 0 ∷ post 2 Fine 0 ∷ []) }
{}

/// Requests on all blocks.
pub fn wrong_sweeps_are_refuted()
    ensures sweep_without_member { FailsAtLast demo_config cap (Found [] 0 ∷ ok ReadAll ∷ pick 0 ReadAllJob 0 ∷ pick 1 ReadJob 0 ∷ give 1 Restored (0 ∷ 1 ∷ []) 0 ∷ post 0 Fine 0 ∷ []) }
    ensures sweep_past_member { FailsAtLast cancel_config cap (put_all ++ ok WriteAll ∷ pick 0 WriteAllJob 0 ∷ pick_write 3 (small 3) 0 ∷ []) }
    ensures canceled_posted_ok { FailsAtLast cancel_config cap (put_all ++ ok WriteAll ∷ pick 0 WriteAllJob 0 ∷ pick_write 2 (small 2) 0 ∷ ok CancelWriteAll ∷ wrote 2 0 (small 2) 10 ∷ post 2 Fine 10 ∷ post 0 Fine 10 ∷ []) }
    ensures member_after_cancel { FailsAtLast cancel_config cap (put_all ++ ok WriteAll ∷ pick 0 WriteAllJob 0 ∷ pick_write 2 (small 2) 0 ∷ ok CancelWriteAll ∷ wrote 2 0 (small 2) 10 ∷ post 2 Fine 10 ∷ pick_write 3 (small 3) 10 ∷ []) }
    ensures sweep_beside_a_job { FailsAtLast demo_config cap (Found [] 0 ∷ ok (write 2 bytes_1) ∷ ok ReadAll ∷ pick 0 ReadAllJob 0 ∷ []) }
    ensures member_read_without_id { FailsAtLast demo_config cap (Found [] 0 ∷ ok ReadAll ∷ pick 0 ReadAllJob 0 ∷ pick 1 ReadJob 0 ∷ give 1 Restored (0 ∷ 1 ∷ []) 0 ∷ pick 2 ReadJob 0 ∷ []) }
    ensures wrong_id_read { FailsAtLast demo_config cap (Found ((at 1 0, Content (0 ∷ 2 ∷ [])) ∷ (at 1 1, Content (0 ∷ 2 ∷ [])) ∷ []) 0 ∷ ok ReadAll ∷ pick 0 ReadAllJob 0 ∷ pick 1 ReadJob 0 ∷ give 1 Fine (0 ∷ 2 ∷ []) 0 ∷ []) }
    ensures unchanged_member_written { FailsAtLast demo_config cap (Found [] 0 ∷ ok (PutRam 2 bytes_1) ∷ ok WriteAll ∷ pick 0 WriteAllJob 0 ∷ pick_write 2 bytes_1 0 ∷ []) }
    ensures changed_member_skipped { FailsAtLast demo_config cap (Found [] 0 ∷ ok (PutRam 2 bytes_1) ∷ ok (SetRam 2 true) ∷ ok WriteAll ∷ pick 0 WriteAllJob 0 ∷ post 2 BlockSkipped 0 ∷ []) }
    ensures spoiled_posted_ok { FailsAtLast demo_config cap (Found [] 0 ∷ ok ReadAll ∷ pick 0 ReadAllJob 0 ∷ pick 1 ReadJob 0 ∷ give 1 Restored (0 ∷ 1 ∷ []) 0 ∷ post 2 IntegrityFailed 0 ∷ post 0 Fine 0 ∷ []) }
{}
