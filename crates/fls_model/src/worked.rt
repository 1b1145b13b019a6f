// Worked cases of the definitions.
ghost use Rattle.std.specs.Prelude.{◌≡◌, [], ◌∷◌, Some, None, false, true};
ghost use Rattle.nv_base.specs.Count.{Rose, WereCounted, last_count};
ghost use Rattle.nv_base.specs.Held.{more_writes};
ghost use Rattle.fls_model.specs.Op.{after_op, MayLeave, Program, Erase};
ghost use Rattle.nv_base.specs.Plan.{Planning, planned, no_planning};
ghost use Rattle.fls_model.specs.Plan.{PlanGoes};
ghost use Rattle.fls_model.specs.Read.{IsRead};
ghost use Rattle.fls_model.specs.Step.{HasCause, IsChanged};
ghost use Rattle.fls_model.specs.Worked.{cut_so_often, planned_at, planning_to_keep, behind, listing, one_change};
ghost use Rattle.fls_model.specs.declared.flash.FlashAnswer.TheVariants.{Done, Off};

/// Worked cases of what operations do, and of what a cut may and may not leave.
pub fn worked_cases()
    ensures clears_bits { after_op (Program 1 (12 ∷ 10 ∷ [])) (255 ∷ 10 ∷ 7 ∷ 1 ∷ []) ≡ 255 ∷ 8 ∷ 2 ∷ 1 ∷ [] }
    ensures clears_more { after_op (Program 0 (60 ∷ [])) (after_op (Program 0 (15 ∷ [])) (255 ∷ [])) ≡ 12 ∷ [] }
    ensures sets_all_bits { after_op (Erase 1 2) (1 ∷ 2 ∷ 3 ∷ 4 ∷ []) ≡ 1 ∷ 255 ∷ 255 ∷ 4 ∷ [] }
    ensures torn_program { MayLeave (Program 1 (0 ∷ [])) (255 ∷ 255 ∷ []) (255 ∷ 77 ∷ []) }
    ensures torn_to_no_byte { ¬ MayLeave (Program 0 (0 ∷ [])) (12 ∷ []) (300 ∷ []) }
    ensures torn_erase { MayLeave (Erase 0 1) (12 ∷ 5 ∷ []) (13 ∷ 5 ∷ []) }
    ensures no_bit_cleared { ¬ MayLeave (Erase 0 1) (12 ∷ []) (8 ∷ []) }
    ensures no_byte_beside { ¬ MayLeave (Program 0 (0 ∷ [])) (12 ∷ 5 ∷ []) (0 ∷ 4 ∷ []) }
{}

/// Worked cases of planned cuts.
pub fn planned_cases()
    ensures taken { planned 2 7 (record no_planning { takes = 1 }) ≡ planned_at 2 }
    ensures replaced { planned 1 7 (record (planned_at 2) { takes = 1 }) ≡ planned_at 1 }
    ensures not_taken { planned 2 7 no_planning ≡ no_planning }
    ensures nears { PlanGoes Done (planned_at 2) (planned_at 1) }
    ensures comes { PlanGoes Off (planned_at 1) (behind 7 0) }
    ensures with_nothing_done { PlanGoes Off (planning_to_keep 0) (behind 0 1) }
    ensures not_with_more_done { ¬ PlanGoes Off (planned_at 1) (behind 8 0) }
    ensures not_unlisted { ¬ PlanGoes Off (planned_at 1) no_planning }
    ensures not_later { (after : Planning) → ¬ PlanGoes Done (planned_at 1) after }
    ensures not_earlier { ¬ PlanGoes Off (planned_at 2) no_planning }
    ensures not_by_itself { ¬ PlanGoes Off no_planning no_planning }
{}

/// Worked cases of the list of changes: an operation takes one place of its room at most, and while there is room it is told.
pub fn room_cases()
    ensures told { IsChanged (Program 0 []) Done (listing (Some []) 1) (listing (Some one_change) 0) }
    ensures full { IsChanged (Program 0 []) Done (listing (Some []) 0) (listing None 0) }
    ensures not_told { ¬ IsChanged (Program 0 []) Done (listing (Some []) 1) (listing None 0) }
    ensures two_places { ¬ IsChanged (Program 0 []) Done (listing (Some []) 2) (listing (Some one_change) 0) }
{}

/// Worked cases of counts and of answers: a count of faults that stands didn't rise, and what it was before counts for nothing; the
/// power goes off with a cut that is counted, and while it is off nothing is read.
pub fn answer_cases()
    ensures rises { Rose 3 4 }
    ensures stands { ¬ Rose 3 3 }
    ensures two { WereCounted 2 3 5 }
    ensures one_of_two { ¬ WereCounted 2 3 4 }
    ensures at_its_end { WereCounted 2 3 last_count }
    ensures cut { HasCause Off (cut_so_often 3 false) (cut_so_often 4 true) }
    ensures without_a_cut { ¬ HasCause Off (cut_so_often 3 false) (cut_so_often 3 true) }
    ensures read { IsRead 0 (cut_so_often 3 false) [] Done [] (cut_so_often 3 false) }
    ensures read_while_off { ¬ IsRead 0 (cut_so_often 3 true) [] Done [] (cut_so_often 3 true) }
    ensures writes { more_writes 1 7 ≡ 8 }
    ensures last_write { more_writes 1 4294967295 ≡ 4294967295 }
    ensures past_the_last { more_writes 1 4294967296 ≡ 4294967296 }
{}
