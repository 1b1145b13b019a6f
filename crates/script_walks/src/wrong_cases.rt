// Runs and walks with one thing wrong.
ghost use Rattle.std.specs.Prelude.{[], ◌∷◌, None};
ghost use Rattle.block_machine.specs.block_config.DemoConfig.{demo_config};
ghost use Rattle.nvm_script.specs.declared.step.StepKind.TheVariants.{Store, Turn, Restart};
ghost use Rattle.block_machine.specs.Words.{Fine, Write, Status, Accepted, StatusIs, WriteJob, TookContent, Ask, Pick, Off, Found};
ghost use Rattle.block_machine.specs.Cases.{ok, read, write, pick_write, wrote, bytes_1, four, sync_config, sync_plain};
ghost use Rattle.script_walks.specs.Runs.{IsWholeRun};
ghost use Rattle.script_walks.specs.Cases.{IsWalkIn, does, asks, drain, store_run_script, stored_pick, saw};

/// A whole run leaves nothing pending.
pub fn unfinished_runs_are_refuted()
    ensures job_in_hand { ¬ IsWholeRun sync_config store_run_script (saw 2 1) (stored_pick (four 10) 1) }
{}

/// A step adds its own entries alone.
pub fn other_pieces_are_refuted()
    ensures other_caller { ¬ IsWalkIn demo_config (asks (read 2) ∷ []) (1 ∷ []) (Found [] 0 ∷ Ask 1 (read 2) Accepted ∷ []) }
    ensures other_request { ¬ IsWalkIn demo_config (asks (read 2) ∷ []) (1 ∷ []) (Found [] 0 ∷ ok (read 3) ∷ []) }
    ensures asked_twice { ¬ IsWalkIn demo_config (asks (read 2) ∷ []) (2 ∷ []) (Found [] 0 ∷ ok (read 2) ∷ ok (read 3) ∷ []) }
    ensures asked_in_a_turn { ¬ IsWalkIn demo_config (does (Turn 1) ∷ []) (1 ∷ []) (Found [] 0 ∷ Ask 0 (Status 2) (StatusIs Fine) ∷ []) }
    ensures found_in_a_turn { ¬ IsWalkIn demo_config (does (Turn 1) ∷ []) (1 ∷ []) (Found [] 0 ∷ Found [] 0 ∷ []) }
    ensures found_in_a_drain { ¬ IsWalkIn demo_config (drain ∷ []) (1 ∷ []) (Found [] 0 ∷ Found [] 0 ∷ []) }
    ensures off_before_the_pick { ¬ IsWalkIn demo_config (asks (write 2 bytes_1) ∷ does (Turn 1) ∷ []) (1 ∷ 1 ∷ []) (Found [] 0 ∷ ok (write 2 bytes_1) ∷ Off 0 ∷ []) }
    ensures no_restart { ¬ IsWalkIn demo_config (does Restart ∷ []) (0 ∷ []) (Found [] 0 ∷ []) }
    ensures store_adds { ¬ IsWalkIn sync_plain (does (Store 2 bytes_1) ∷ []) (1 ∷ []) (Found [] 0 ∷ Off 0 ∷ []) }
    ensures no_start_up { ¬ IsWalkIn demo_config (asks (read 2) ∷ []) (1 ∷ []) (ok (read 2) ∷ []) }
{}

/// A turn may add nothing where nothing is pending, and store 0 is zeros where the block has no defaults.
pub fn near_walks_are_walks()
    ensures idle_turns { IsWalkIn demo_config (does (Turn 3) ∷ drain ∷ []) (0 ∷ 0 ∷ []) (Found [] 0 ∷ []) }
    ensures turn_in_a_job { IsWalkIn demo_config (asks (write 2 bytes_1) ∷ does (Turn 1) ∷ does (Turn 1) ∷ does (Turn 4) ∷ []) (1 ∷ 1 ∷ 0 ∷ 1 ∷ []) (Found [] 0 ∷ ok (write 2 bytes_1) ∷ pick_write 2 bytes_1 0 ∷ wrote 2 0 bytes_1 10 ∷ []) }
    ensures before_the_first_store { IsWalkIn sync_plain (asks (Write 2 None 0) ∷ does (Turn 1) ∷ []) (1 ∷ 1 ∷ []) (Found [] 0 ∷ ok (Write 2 None 0) ∷ Pick 2 WriteJob (TookContent (four 0) 0) 0 ∷ []) }
{}
