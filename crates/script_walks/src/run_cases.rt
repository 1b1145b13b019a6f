// Histories that are walks or runs, and histories that are none.
ghost use Rattle.std.specs.Prelude.{[], ◌∷◌, ◌++◌, take, None};
ghost use Rattle.block_machine.specs.block_config.DemoConfig.{demo_config};
ghost use Rattle.nvm_script.specs.declared.step.StepKind.TheVariants.{Ask as AskStep, Store, Turn, Await};
ghost use Rattle.block_machine.specs.Words.{Write, Status, WriteJob, Accepted, TookContent, TookStale, Ask, Pick, Found};
ghost use Rattle.block_machine.specs.Legal.{IsLegal};
ghost use Rattle.block_machine.specs.Cases.{cap, ok, read, write, pick_write, bytes_1, bytes_2, four, sync_config, sync_plain};
ghost use Rattle.script_walks.specs.Looks.{AreInOrder};
ghost use Rattle.script_walks.specs.Runs.{IsRun, IsWholeRun, IsNextAsk, IsFullRun};
ghost use Rattle.script_walks.specs.Cases.{IsWalkIn, IsWorked, synced_member, stores_and_writes_all, member_takes, by, does, asks, drain, store_run, store_run_script, two_callers, callers_script, impatient_caller, stale_steps, stored_pick, saw, stores_and_writes, takes, writes_and_stores, takes_later_store, writes_twice, takes_twice, both_write, pending_again, immediate_config, full_script, full_run};

/// Callers beside each other: their requests in order, and their waits.
pub fn runs_keep_the_callers_order()
    ensures store_run_is_legal { IsLegal sync_config cap store_run }
    ensures two_callers_is_legal { IsLegal demo_config cap two_callers }
    ensures impatient_caller_is_legal { IsLegal demo_config cap impatient_caller }
    ensures store_run { IsWholeRun sync_config store_run_script (saw 2 1) store_run }
    ensures two_callers { IsWholeRun demo_config callers_script [] two_callers }
    ensures impatient_caller { ¬ IsRun demo_config callers_script [] impatient_caller }
    ensures restarted { ¬ IsRun demo_config callers_script [] (Found [] 0 ∷ Found [] 0 ∷ []) }
    ensures other_store { ¬ IsRun sync_config store_run_script (saw 2 1) (stored_pick bytes_2 1) }
{}

/// In `run` a copy is the store that a look in that very Pick showed, none is stale, and no later look shows an older one.
pub fn copies_are_shown()
    ensures stale_is_legal { IsLegal sync_plain cap (takes (TookStale 1 0 1)) }
    ensures stale { ¬ IsRun sync_plain stores_and_writes (saw 2 0) (takes (TookStale 1 0 1)) }
    ensures in_another_entry { ¬ IsRun sync_plain stores_and_writes (saw 1 1) (takes (TookContent bytes_1 1)) }
    ensures shown_another { ¬ IsRun sync_plain stores_and_writes (saw 2 0) (takes (TookContent bytes_1 1)) }
    ensures content_without_a_look { ¬ IsRun sync_plain stores_and_writes [] (takes (TookContent bytes_1 1)) }
    ensures goes_back { ¬ AreInOrder (saw 2 1 ++ saw 6 0) }
{}

/// A store is taken only once its caller can have made it: its requests before it were made, and its waits over.
pub fn stores_come_before_they_are_taken()
    ensures behind_its_write { IsRun sync_plain (writes_and_stores []) (saw 2 1) takes_later_store }
    ensures behind_a_wait { ¬ IsRun sync_plain (writes_and_stores (by 1 (Await 2) ∷ [])) (saw 2 1) takes_later_store }
    ensures behind_a_request { ¬ IsRun sync_plain (writes_and_stores (by 1 (AskStep (Status 2)) ∷ [])) (saw 2 1) takes_later_store }
    ensures once_it_was_over { IsRun sync_plain writes_twice (saw 2 0 ++ saw 6 1) takes_twice }
{}

/// A wait that was over lets the next request come, though the block is PENDING again; none that wasn't does.
pub fn waits_stay_over()
    ensures over { IsNextAsk demo_config both_write pending_again 1 (read 2) }
    ensures too_early { ¬ IsNextAsk demo_config both_write (take 4 pending_again) 1 (read 2) }
{}

/// At a full history one caller ends, and the others go on: none of them stops where it has room, and no job stays pending.
pub fn full_histories_end_callers_one_by_one()
    ensures full { IsFullRun 8 immediate_config full_script [] full_run }
    ensures all_stop { ¬ IsFullRun 8 immediate_config full_script [] (take 5 full_run) }
    ensures job_in_hand { ¬ IsFullRun 8 immediate_config full_script [] (take 3 full_run) }
    ensures has_room { ¬ IsFullRun 9 immediate_config full_script [] full_run }
{}

/// A write carries its own caller's last store, and takes the content of a store that was made before.
pub fn walks_take_stores()
    ensures own_store { IsWalkIn sync_plain (by 1 (Store 2 bytes_1) ∷ by 2 (Store 2 bytes_2) ∷ by 1 (AskStep (Write 2 None 0)) ∷ []) (0 ∷ 0 ∷ 1 ∷ []) (Found [] 0 ∷ Ask 1 (Write 2 None 1) Accepted ∷ []) }
    ensures no_store { IsWalkIn sync_plain (by 1 (Store 2 bytes_1) ∷ by 2 (AskStep (Write 2 None 0)) ∷ []) (0 ∷ 1 ∷ []) (Found [] 0 ∷ Ask 2 (Write 2 None 0) Accepted ∷ []) }
    ensures other_callers_store { ¬ IsWalkIn sync_plain (by 1 (Store 2 bytes_1) ∷ by 2 (AskStep (Write 2 None 0)) ∷ []) (0 ∷ 1 ∷ []) (Found [] 0 ∷ Ask 2 (Write 2 None 1) Accepted ∷ []) }
    ensures stored { IsWalkIn sync_plain stale_steps (0 ∷ 1 ∷ 1 ∷ []) (Found [] 0 ∷ ok (Write 2 None 1) ∷ Pick 2 WriteJob (TookContent bytes_1 1) 0 ∷ []) }
    ensures other_content { ¬ IsWalkIn sync_plain stale_steps (0 ∷ 1 ∷ 1 ∷ []) (Found [] 0 ∷ ok (Write 2 None 1) ∷ Pick 2 WriteJob (TookContent bytes_2 1) 0 ∷ []) }
    ensures stale { ¬ IsWalkIn sync_plain stale_steps (0 ∷ 1 ∷ 1 ∷ []) (Found [] 0 ∷ ok (Write 2 None 1) ∷ Pick 2 WriteJob (TookStale 1 0 1) 0 ∷ []) }
    ensures later_store { ¬ IsWalkIn sync_plain (asks (Write 2 None 0) ∷ does (Turn 1) ∷ does (Store 2 bytes_1) ∷ []) (1 ∷ 1 ∷ 0 ∷ []) (Found [] 0 ∷ ok (Write 2 None 0) ∷ Pick 2 WriteJob (TookContent bytes_1 1) 0 ∷ []) }
{}

/// In `play` a copy takes the last store of its block, also that of a member of a WriteAll, whose request asks for none.
pub fn copies_take_the_last_store()
    ensures last_store { IsWorked synced_member stores_and_writes_all (0 ∷ 1 ∷ 1 ∷ 6 ∷ []) (member_takes (four 10) 1) }
    ensures older_is_legal { IsLegal synced_member cap (member_takes (four 0) 0) }
    ensures older_store { ¬ IsWalkIn synced_member stores_and_writes_all (0 ∷ 1 ∷ 1 ∷ 6 ∷ []) (member_takes (four 0) 0) }
    ensures not_the_later_one { ¬ IsWalkIn sync_plain (does (Store 2 bytes_1) ∷ asks (Write 2 None 0) ∷ does (Store 2 bytes_2) ∷ does (Turn 1) ∷ []) (0 ∷ 1 ∷ 0 ∷ 1 ∷ []) (Found [] 0 ∷ ok (Write 2 None 1) ∷ Pick 2 WriteJob (TookContent bytes_1 1) 0 ∷ []) }
{}

/// A turn doesn't go by while a job waits, N turns add at most N entries, and a drain leaves no job.
pub fn wrong_walks_are_refuted()
    ensures idle_turn { ¬ IsWalkIn demo_config (asks (write 2 bytes_1) ∷ does (Turn 1) ∷ []) (1 ∷ 0 ∷ []) (Found [] 0 ∷ ok (write 2 bytes_1) ∷ []) }
    ensures too_many { ¬ IsWalkIn demo_config (asks (write 2 bytes_1) ∷ does (Turn 1) ∷ []) (1 ∷ 2 ∷ []) (Found [] 0 ∷ ok (write 2 bytes_1) ∷ pick_write 2 bytes_1 0 ∷ pick_write 2 bytes_1 0 ∷ []) }
    ensures short_drain { ¬ IsWalkIn demo_config (asks (write 2 bytes_1) ∷ drain ∷ []) (1 ∷ 1 ∷ []) (Found [] 0 ∷ ok (write 2 bytes_1) ∷ pick_write 2 bytes_1 0 ∷ []) }
    ensures entry_left { ¬ IsWalkIn demo_config (asks (write 2 bytes_1) ∷ []) (1 ∷ []) (Found [] 0 ∷ ok (write 2 bytes_1) ∷ pick_write 2 bytes_1 0 ∷ []) }
{}
