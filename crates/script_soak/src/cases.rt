// Worked draws and steps.
ghost use Rattle.std.specs.Prelude.{◌≡◌, [], ◌∷◌, false, true};
ghost use Rattle.block_config.specs.DemoConfig.{demo_config};
ghost use Rattle.nv_base.specs.declared.request.Request.TheVariants.{Read};
ghost use Rattle.nvm_script.specs.declared.step.StepKind.TheVariants.{Ask, Turn, Drain, Restart};
ghost use Rattle.script_soak.specs.Draws.{draw};
ghost use Rattle.script_soak.specs.Soak.{soak, step_at};
ghost use Rattle.script_soak.specs.Cases.{seven};

/// What the generator draws.
pub fn draws_are_drawn()
    ensures first { draw 1 1 ≡ 908834774 }
    ensures of_two { draw 2 1 ≡ 1649717740 }
    ensures third { draw 0 3 ≡ 1299921937 }
    ensures greatest_seed { draw 4294967295 1 ≡ 69501759 }
{}

/// The steps that seeds draw for the demo.
pub fn drawn_steps()
    ensures none { soak demo_config 1 0 ≡ [] }
    ensures a_drain { soak demo_config 1 1 ≡ step_at 0 Drain ∷ step_at 1 Drain ∷ [] }
    ensures a_read { soak demo_config 2 1 ≡ step_at 0 (Ask (Read 2 false)) ∷ step_at 1 Drain ∷ [] }
    ensures writes { soak demo_config 7 3 ≡ seven }
    ensures turns { soak demo_config 13 1 ≡ step_at 0 (Turn 151) ∷ step_at 1 Drain ∷ [] }
    ensures a_turn { soak demo_config 1315 1 ≡ step_at 0 (Turn 1) ∷ step_at 1 Drain ∷ [] }
    ensures a_start_up { soak demo_config 71 1 ≡ step_at 0 Restart ∷ step_at 1 Drain ∷ [] }
{}
