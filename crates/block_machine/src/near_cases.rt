// Histories with one thing wrong in an entry that could stand there otherwise, and legal ones close to them.
ghost use Rattle.std.specs.Prelude.{◌≡◌, [], ◌∷◌, Some, None, true, false};
ghost use Rattle.block_config.specs.Block.{plain_block};
ghost use Rattle.block_config.specs.DemoConfig.{demo_config};
ghost use Rattle.block_machine.specs.Words.{Fine, NotOk, IntegrityFailed, BlockSkipped, Content, Write, Restore, SetIndex, ReadAll, WriteAll, Accepted, ReadJob, WriteJob, RestoreJob, ReadAllJob, WriteAllJob, TookContent, TookStale, Ask, Pick, Post, Off, Found};
ghost use Rattle.block_machine.specs.Blocks.{no_block};
ghost use Rattle.block_machine.specs.Steps.{ended};
ghost use Rattle.block_machine.specs.Legal.{IsLegal};
ghost use Rattle.block_machine.specs.History.{IsAllowedAt};
ghost use Rattle.block_machine.specs.Prices.{prices_in_faults, prices_in_refusals};
ghost use Rattle.block_machine.specs.Cases.{cap, FailsAtLast, Replies, with_queues, guarded_config, ok, write, read, pick, pick_write, at, wrote, post, give, bytes_1, bytes_2, four, queue_config, dataset_config, mixed_config, redundant_config, sync_config, copy_in_config, dataset_and_rom, redundant_read_from_copy_1, stale_write, copy_in_refused};

/// A Pick names the next job, and takes what it may.
pub fn wrong_picks_are_refuted()
    ensures other_block { FailsAtLast queue_config cap (Found [] 0 ∷ ok (read 2) ∷ pick 3 ReadJob 0 ∷ []) }
    ensures other_kind { FailsAtLast demo_config cap (Found [] 0 ∷ ok (Restore 3 false) ∷ pick 3 ReadJob 0 ∷ []) }
    ensures read_takes { FailsAtLast demo_config cap (Found [] 0 ∷ ok (read 2) ∷ Pick 2 ReadJob (TookContent bytes_1 0) 0 ∷ []) }
    ensures readall_as_writeall { FailsAtLast demo_config cap (Found [] 0 ∷ ok ReadAll ∷ pick 0 WriteAllJob 0 ∷ []) }
    ensures sweep_takes { FailsAtLast demo_config cap (Found [] 0 ∷ ok WriteAll ∷ Pick 0 WriteAllJob (TookContent [] 0) 0 ∷ []) }
    ensures sweep_of_a_block { FailsAtLast demo_config cap (Found [] 0 ∷ ok WriteAll ∷ pick 2 WriteAllJob 0 ∷ []) }
    ensures sweep_beside_the_job_in_hand { FailsAtLast demo_config cap (Found [] 0 ∷ ok (read 2) ∷ ok ReadAll ∷ pick 2 ReadJob 0 ∷ pick 0 ReadAllJob 0 ∷ []) }
    ensures store_with_own_content { FailsAtLast sync_config cap (Found [] 0 ∷ Ask 0 (Write 2 (Some bytes_1) 1) Accepted ∷ []) }
    ensures short_copy { FailsAtLast sync_config cap (Found [] 0 ∷ ok (Write 2 None 1) ∷ Pick 2 WriteJob (TookContent (1 ∷ []) 1) 0 ∷ []) }
    ensures no_copy { FailsAtLast sync_config cap (Found [] 0 ∷ ok (Write 2 None 1) ∷ pick 2 WriteJob 0 ∷ []) }
    ensures other_store_asked { FailsAtLast sync_config cap (Found [] 0 ∷ ok (Write 2 None 3) ∷ Pick 2 WriteJob (TookStale 2 1 2) 0 ∷ []) }
    ensures stale_at_one_try { FailsAtLast sync_config cap (Found [] 0 ∷ ok (Write 2 None 3) ∷ Pick 2 WriteJob (TookStale 3 2 1) 0 ∷ []) }
{}

/// A Wrote names an instance that the job writes.
pub fn wrong_writes_are_refuted()
    ensures other_block { FailsAtLast queue_config cap (Found [] 0 ∷ ok (write 2 bytes_1) ∷ pick_write 2 bytes_1 0 ∷ wrote 3 0 bytes_1 10 ∷ []) }
    ensures no_copy_1 { FailsAtLast demo_config cap (Found [] 0 ∷ ok (write 2 bytes_1) ∷ pick_write 2 bytes_1 0 ∷ wrote 2 1 bytes_1 10 ∷ []) }
    ensures other_index { FailsAtLast dataset_config cap (Found [] 0 ∷ ok (SetIndex 2 1) ∷ ok (write 2 (1 ∷ 2 ∷ [])) ∷ pick_write 2 (1 ∷ 2 ∷ []) 0 ∷ wrote 2 2 (1 ∷ 2 ∷ []) 10 ∷ []) }
{}

/// A Post names the job in hand, or what is next in a sweep, and tells of refused copies only where there were some.
pub fn misplaced_posts_are_refuted()
    ensures other_block { FailsAtLast queue_config cap (Found [] 0 ∷ ok (read 2) ∷ pick 2 ReadJob 0 ∷ post 3 IntegrityFailed 0 ∷ []) }
    ensures other_member { FailsAtLast demo_config cap (Found [] 0 ∷ ok WriteAll ∷ pick 0 WriteAllJob 0 ∷ post 1 BlockSkipped 0 ∷ []) }
    ensures sweep_as_block_2 { FailsAtLast demo_config cap (Found [] 0 ∷ ok WriteAll ∷ pick 0 WriteAllJob 0 ∷ post 2 BlockSkipped 0 ∷ post 1 BlockSkipped 0 ∷ post 2 Fine 0 ∷ []) }
    ensures sweep_gives { FailsAtLast demo_config cap (Found [] 0 ∷ ok WriteAll ∷ pick 0 WriteAllJob 0 ∷ post 2 BlockSkipped 0 ∷ post 1 BlockSkipped 0 ∷ give 0 Fine [] 0 ∷ []) }
    ensures sweep_with_refusals { FailsAtLast demo_config cap (Found [] 0 ∷ ok WriteAll ∷ pick 0 WriteAllJob 0 ∷ post 2 BlockSkipped 0 ∷ post 1 BlockSkipped 0 ∷ Post 0 Fine None 1 0 ∷ []) }
    ensures refusal_beside_the_table { FailsAtLast demo_config cap (Found [] 0 ∷ ok (read 2) ∷ pick 2 ReadJob 0 ∷ Post 2 IntegrityFailed None 1 0 ∷ []) }
    ensures refusal_to_a_buffer { FailsAtLast copy_in_config cap (Found [] 0 ∷ ok (Restore 2 false) ∷ pick 2 RestoreJob 0 ∷ Post 2 NotOk None 1 0 ∷ []) }
    ensures refused_and_fine { FailsAtLast copy_in_config cap (Found [] 0 ∷ ok (Restore 2 true) ∷ pick 2 RestoreJob 0 ∷ Post 2 Fine None 1 0 ∷ []) }
    ensures more_refusals_than_tries { FailsAtLast copy_in_config cap (Found [] 0 ∷ ok (Restore 2 true) ∷ pick 2 RestoreJob 0 ∷ Post 2 NotOk None 2 0 ∷ []) }
{}

/// Nothing comes before the first start-up, and a start-up doesn't count back.
pub fn wrong_times_are_refuted()
    ensures off_before_found { FailsAtLast demo_config cap (Off 0 ∷ []) }
    ensures found_counts_back { FailsAtLast demo_config cap (Found [] 5 ∷ Found [] 4 ∷ []) }
{}

/// A read is interrupted too, a job before a sweep doesn't spoil it, only a ReadAll checks the id of block 1, and a
/// content of one's own is of no store.
pub fn near_histories_are_legal()
    ensures read_is_interrupted { IsLegal mixed_config cap (Found [] 0 ∷ ok (read 2) ∷ pick 2 ReadJob 0 ∷ ok (write 3 bytes_2) ∷ pick_write 3 bytes_2 0 ∷ wrote 3 0 bytes_2 4 ∷ post 3 Fine 4 ∷ pick 2 ReadJob 4 ∷ post 2 IntegrityFailed 4 ∷ []) }
    ensures failure_before_a_sweep { IsLegal demo_config cap (Found [] 0 ∷ ok (read 2) ∷ ok WriteAll ∷ pick 2 ReadJob 0 ∷ post 2 IntegrityFailed 0 ∷ pick 0 WriteAllJob 0 ∷ post 2 BlockSkipped 0 ∷ post 1 BlockSkipped 0 ∷ post 0 Fine 0 ∷ []) }
    ensures block_1_is_read_alone { IsLegal demo_config cap (Found ((at 1 0, Content (0 ∷ 2 ∷ [])) ∷ (at 1 1, Content (0 ∷ 2 ∷ [])) ∷ []) 0 ∷ ok (read 1) ∷ pick 1 ReadJob 0 ∷ give 1 Fine (0 ∷ 2 ∷ []) 0 ∷ []) }
    ensures own_content { IsLegal sync_config cap (Found [] 0 ∷ ok (write 2 bytes_1) ∷ pick_write 2 bytes_1 0 ∷ wrote 2 0 bytes_1 10 ∷ post 2 Fine 10 ∷ []) }
{}

/// A job puts in doubt, and settles, no instance but its own; and what a copy costs.
pub fn other_instances_stay()
    ensures own_index { IsAllowedAt dataset_config dataset_and_rom 9 (at 2 2) (Content (1 ∷ 2 ∷ [])) }
    ensures other_index { ¬ IsAllowedAt dataset_config dataset_and_rom 9 (at 2 0) (Content (1 ∷ 2 ∷ [])) }
    ensures copy_0_is_written { ¬ IsAllowedAt redundant_config redundant_read_from_copy_1 18 (at 2 0) (Content (four 10)) }
    ensures copy_1_is_not { IsAllowedAt redundant_config redundant_read_from_copy_1 18 (at 2 1) (Content (four 10)) }
    ensures stale_copies_tell_no_refusal { prices_in_refusals sync_config 2 stale_write ≡ 0 }
    ensures refused_copies_tell_no_fault { prices_in_faults copy_in_config copy_in_refused ≡ 0 }
{}

/// What a job or a start-up of another block leaves as it was.
pub fn other_blocks_stay()
    ensures read_keeps_protection { (ended (plain_block 4) false ReadJob false Fine None (record no_block { protected = true })).protected ≡ true }
    ensures write_once_by_its_own_marks { Replies guarded_config (Found ((at 3 0, Content (7 ∷ 8 ∷ [])) ∷ []) 0 ∷ []) (write 2 bytes_1) Accepted }
    ensures interrupted_job_leaves_the_queue { Replies (with_queues 1 1 mixed_config) (Found [] 0 ∷ ok (write 2 bytes_1) ∷ pick_write 2 bytes_1 0 ∷ ok (write 3 bytes_2) ∷ pick_write 3 bytes_2 0 ∷ []) (read 1) Accepted }
{}
