// Ends of commands and of the program, and what is none.
ghost use Rattle.std.specs.Prelude.{◌≡◌, [], ◌∷◌, Some, None, Ok, Err, codes};
ghost use Rattle.nvm_flash.specs.fls_model.Memory.{in_memory};
ghost use Rattle.nvm_flash.specs.promise_run.Cases.{blank, quiet};
ghost use Rattle.nvm_lines.specs.declared.status.Status.TheVariants as status;
ghost use Rattle.nvm_lines.specs.declared.stop.Stop.TheVariants as stop;
ghost use Rattle.nvm_top.specs.Causes.{HasCauses};
ghost use Rattle.nvm_top.specs.Commands.{IsRefused};
ghost use Rattle.nvm_top.specs.Dump.{KeepsFlash};
ghost use Rattle.nvm_top.specs.Play.{IsBeforeAttach, IsBeforeStart, IsRightSize};
ghost use Rattle.nvm_top.specs.Program.{flash_of};
ghost use Rattle.nvm_top.specs.Promised.{EndsAt};
ghost use Rattle.nvm_top.specs.EndCases.{ComesBackAs, FollowsTwo, IsServedOff, Stopped, asks_status, bytes, cut_planned, holding, off, on_image, opened, other_shape, quiet_to, refused_with};

/// At the exit of a run the flash has the configuration's shape, isn't off with the power on, and has no cut planned while it is on. At
/// its entry it had no bytes or as many as asked.
pub fn flashes_of_runs()
    ensures ends { EndsAt quiet }
    ensures off { EndsAt (quiet_to off) → ⊥ }
    ensures cut_planned { EndsAt (quiet_to cut_planned) → ⊥ }
    ensures other_shape { EndsAt (quiet_to other_shape) → ⊥ }
    ensures empty { IsRightSize 320 (Some (bytes [])) }
    ensures whole { IsRightSize 2 (Some (bytes (12 ∷ 8 ∷ []))) }
    ensures other_size { IsRightSize 320 (Some (bytes (12 ∷ 8 ∷ []))) → ⊥ }
{}

/// A dump writes nothing, and makes an empty flash as large as its configuration asks for. A call that stops before its run leaves the
/// bytes.
pub fn flashes_that_stay()
    ensures made { KeepsFlash quiet.configuration.geometry (holding [] 7) (holding blank 7) }
    ensures made_smaller { KeepsFlash quiet.configuration.geometry (holding [] 7) (holding (255 ∷ []) 7) → ⊥ }
    ensures written { KeepsFlash quiet.configuration.geometry (holding (12 ∷ []) 7) (holding (8 ∷ []) 7) → ⊥ }
    ensures counted { KeepsFlash quiet.configuration.geometry (holding blank 7) (holding blank 8) → ⊥ }
    ensures stopped { Stopped status.BadScript (12 ∷ []) (8 ∷ []) → ⊥ }
{}

/// A call that ends well has read all of its input, faults are counted, and words of no command take nothing of the input and leave
/// the flash. Five statuses stand before the attach, and a wrong size before the start-up.
pub fn causes_of_statuses()
    ensures input_left { HasCauses status.Ok 0 0 0 0 (Some (1 ∷ [])) → ⊥ }
    ensures no_read_fault { HasCauses status.ReadFault 3 3 0 0 None → ⊥ }
    ensures no_write_fault { HasCauses status.WriteFault 0 0 3 3 None → ⊥ }
    ensures input_taken { IsRefused stop.BadWords (refused_with (Some []) (holding blank 0) status.BadWords) → ⊥ }
    ensures flash_touched { IsRefused stop.BadWords (refused_with (Some (1 ∷ [])) (holding blank 1) status.BadWords) → ⊥ }
    ensures words { IsBeforeAttach status.BadWords }
    ensures configuration { IsBeforeAttach status.BadConfig }
    ensures script { IsBeforeAttach status.BadScript }
    ensures read_fault { IsBeforeAttach status.ReadFault }
    ensures too_long { IsBeforeAttach status.TooLong }
    ensures size { IsBeforeStart status.WrongSize }
    ensures size_behind { IsBeforeAttach status.WrongSize → ⊥ }
{}

/// Callers that leave out a request of theirs, or ask for another one, don't follow their script; and requests aren't served up to a
/// power cut that wasn't counted.
#[tactic(auto, using(crate::proofs::EndCases::left_out, crate::proofs::EndCases::asks_another, crate::proofs::EndCases::not_cut))]
pub fn runs_that_end_early()
    ensures left_out { FollowsTwo (asks_status 2 ∷ asks_status 2 ∷ []) → ⊥ }
    ensures asks_another { FollowsTwo (asks_status 1 ∷ asks_status 2 ∷ []) → ⊥ }
    ensures not_cut { IsServedOff → ⊥ }
{}

/// Words name the flash in their image file, to be read alone for a dump, and one of no bytes in memory for `mem` and where the command
/// leaves the flash alone. The flash in a file comes back as it was left; that none was opened is for want of memory.
pub fn flashes_of_words()
    ensures play { flash_of opened (on_image (codes "unit.img") (codes "play")) ≡ holding (codes "unit.img") 0 }
    ensures dump { flash_of opened (on_image (codes "unit.img") (codes "dump")) ≡ holding (codes "unit.img") 1 }
    ensures check { flash_of opened (on_image (codes "unit.img") (codes "check")) ≡ (in_memory [] 0).told }
    ensures memory { flash_of opened (on_image (codes "mem") (codes "play")) ≡ (in_memory [] 0).told }
    ensures another { flash_of opened (on_image (codes "unit.img") (codes "play")) ≡ holding (codes "unit.new") 0 → ⊥ }
    ensures left { ComesBackAs status.Ok (holding blank 4) (Ok (holding blank 4)) }
    ensures left_otherwise { ComesBackAs status.Ok (holding blank 4) (Ok (holding blank 0)) → ⊥ }
    ensures not_opened { ComesBackAs status.Ok (holding blank 4) (Err tt) → ⊥ }
{}
