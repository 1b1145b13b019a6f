// Worked cases of what can't be played.
ghost use Rattle.std.specs.Prelude.{[], ◌∷◌, Some, None};
ghost use Rattle.block_config.specs.DemoConfig.{demo_config};
ghost use Rattle.nv_base.specs.declared.request.Request.TheVariants.{Write};
ghost use Rattle.nvm_script.specs.declared.step.StepKind.TheVariants.{Ask, Store, Turn, CutSecond, Refuse, Await};
ghost use Rattle.nvm_script.specs.Played.{CanBePlayed};

/// The demo has no synchronized block and no second device, nobody waits, and a store has its number from the stack.
pub fn other_steps_are_not_played()
    ensures waits { ¬ CanBePlayed demo_config (Await 2) }
    ensures no_turn { ¬ CanBePlayed demo_config (Turn 0) }
    ensures no_second { ¬ CanBePlayed demo_config (CutSecond 1 0) }
    ensures refuses { ¬ CanBePlayed demo_config (Refuse 2 1) }
    ensures stores { ¬ CanBePlayed demo_config (Store 2 (1 ∷ [])) }
    ensures numbers { ¬ CanBePlayed demo_config (Ask (Write 2 None 1)) }
{}
