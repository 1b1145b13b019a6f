// Worked programs.
ghost use Rattle.std.specs.Prelude.{◌≡◌, [], ◌∷◌, ◌++◌, None};
ghost use Rattle.block_machine.specs.block_config.DemoConfig.{demo_config};
ghost use Rattle.block_machine.specs.Words.{Write, Status};
ghost use Rattle.block_machine.specs.Cases.{read, write, bytes_1, bytes_2, sync_plain};
ghost use Rattle.nvm_script.specs.declared.step.StepKind.TheVariants.{Ask as AskStep, Store as StoreStep, Await as AwaitStep};
ghost use Rattle.script_walks.specs.Cases.{by, callers_script};
ghost use Rattle.script_callers.specs.declared.deed.Deed.TheVariants.{Ask, Store, Await};
ghost use Rattle.script_callers.specs.Programs.{programs_of};
ghost use Rattle.script_callers.specs.Cases.{program, both_script};

/// Each caller has its own steps, in order; a wait stands between its requests; a write of synchronized RAM has the
/// number of the store before it; and where nobody does anything there is no program.
pub fn programs_of_callers()
    ensures beside_each_other { programs_of demo_config callers_script ≡ program 1 (Ask 0 (write 2 bytes_1) ∷ Await 0 2 ∷ Ask 0 (read 2) ∷ []) ∷ program 2 (Ask 0 (Status 3) ∷ []) ∷ [] }
    ensures stores { programs_of sync_plain both_script ≡ program 1 (Store 0 2 1 bytes_1 ∷ Ask 0 (Write 2 None 1) ∷ Store 0 2 2 bytes_2 ∷ Ask 0 (Write 2 None 2) ∷ []) ∷ program 3 (Await 0 2 ∷ []) ∷ [] }
    ensures nobody { programs_of demo_config [] ≡ [] }
{}
