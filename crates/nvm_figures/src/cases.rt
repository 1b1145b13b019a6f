// Worked cases of the definitions.
ghost use Rattle.std.specs.Prelude.{◌≡◌, Some, None, [], ◌∷◌};
ghost use Rattle.block_machine.specs.Words.{ReadJob, WriteJob, WroteMark, ReadContent, FoundErased, Failed};
ghost use Rattle.nvm_figures.specs.Left.{stack_left, most_turns};
ghost use Rattle.nvm_figures.specs.Urgent.{urgent_turns};
ghost use Rattle.nvm_figures.specs.Cases.{fixed, at_rest, writing, plain_write, copies};

/// A write of nine turns with one retry: at its Pick both tries and the Post; with its job open what is left of that, the
/// other try and the Post. A redundant one has both copies. A read needs no second copy behind a content.
pub fn left_cases()
    ensures at_pick { stack_left (Some (plain_write 0)) (at_rest 0) ≡ 19 }
    ensures beside_own_work { stack_left (Some (plain_write 0)) (at_rest 5) ≡ 24 }
    ensures at_first_try { stack_left (Some (plain_write 0)) (writing 128 9) ≡ 19 }
    ensures behind_a_failure { stack_left (Some (plain_write 1)) (at_rest 5) ≡ 15 }
    ensures at_last_try { stack_left (Some (plain_write 1)) (writing 128 3) ≡ 4 }
    ensures copies_at_pick { stack_left (Some (copies WriteJob [] 0)) (at_rest 0) ≡ 29 }
    ensures second_copy { stack_left (Some (copies WriteJob (Failed ∷ []) 0)) (at_rest 0) ≡ 15 }
    ensures at_second_copy { stack_left (Some (copies WriteJob (WroteMark ∷ []) 0)) (writing 193 7) ≡ 15 }
    ensures copies_over { stack_left (Some (copies WriteJob (WroteMark ∷ WroteMark ∷ []) 0)) (at_rest 0) ≡ 1 }
    ensures read_at_pick { stack_left (Some (copies ReadJob [] 0)) (at_rest 0) ≡ 5 }
    ensures read_settled { stack_left (Some (copies ReadJob (ReadContent ∷ []) 0)) (at_rest 0) ≡ 1 }
    ensures read_goes_on { stack_left (Some (copies ReadJob (FoundErased ∷ []) 0)) (at_rest 0) ≡ 3 }
    ensures own_work_alone { stack_left None (at_rest 7) ≡ 7 }
    ensures nothing { stack_left None (at_rest 0) ≡ 0 }
    ensures most_of_a_write { most_turns fixed (plain_write 0) ≡ 31 }
    ensures most_of_copies { most_turns fixed (copies WriteJob [] 0) ≡ 41 }
{}

/// An urgent write of one record of four pages is posted within eight turns, one of two records within twelve.
pub fn urgent_cases()
    ensures one { urgent_turns fixed (plain_write 0) ≡ 8 }
    ensures two { urgent_turns fixed (copies WriteJob [] 0) ≡ 12 }
{}
