// Worked logs of the bank of the worked images. Their functions do nothing.
ghost use Rattle.std.specs.Prelude.{◌≡◌, ◌++◌, ℕ, List, [], ◌∷◌, Some};
ghost use Rattle.nv_base.specs.declared.instance.DeviceNumber.{DeviceNumber};
ghost use Rattle.nv_base.specs.declared.mark.Mark.TheVariants.{Content};
ghost use Rattle.fee_image.specs.Cases.{new_bank, pages, torn_header, content_1, content_2, body, after_new};
ghost use Rattle.nv_base.specs.Held.{Held};
ghost use Rattle.fee_image.specs.declared.place.Place.TheVariants.{Content as ContentPlace};
ghost use Rattle.fee_image.specs.May.{May, exactly};
ghost use Rattle.fee_image.specs.Places.{held_at};
ghost use Rattle.fee_image.specs.Log.{Tail, Open, Writes, Owes, Closed, Log, free_of, HoldsLog};
ghost use Rattle.fee_image.specs.LogLaws.{loaded_log, erased_log};
ghost use Rattle.fee_image.specs.Step.{page_due, bytes_due, log_done, may_done, log_failed, log_given_up};
ghost use Rattle.fee_image.specs.LogCases.{numbers, head_128, first_log, second, second_log, behind_second, wrong_log};

/// What is loaded from a blank bank, and from the one that the first write left.
pub fn loaded_logs()
    ensures blank { loaded_log new_bank numbers (pages 24 0xff) Open ≡ erased_log numbers }
    ensures first { loaded_log new_bank numbers (after_new (pages 4 0xff)) Open ≡ first_log Open }
    ensures content { held_at new_bank (after_new (pages 4 0xff)) 4 (ContentPlace 2 1) ≡ record { mark = Content content_1; count = 1 } }
    ensures free { free_of new_bank (first_log Open) ≡ 6 }
{}

/// The last two pages of a second write: its body, and the commit gate behind which its mark alone may be found.
pub fn second_write()
    ensures body_page { page_due (second 2) ≡ 8 }
    ensures body_bytes { bytes_due 16 (second 2) ≡ body content_2 }
    ensures goes_on { log_done 16 numbers (second 2) ≡ second 3 }
    ensures gate_page { page_due (second 3) ≡ 9 }
    ensures gate_bytes { bytes_due 16 (second 3) ≡ pages 1 0 }
    ensures commits { log_done 16 numbers (second 3) ≡ second_log }
    ensures settled { (may : May) → may_done 16 may (second 3) 128 4 ≡ Some (record { mark = Content content_2; count = 2 } ∷ []) }
    ensures others_stay { (may : May) → may_done 16 may (second 3) 129 7 ≡ may 129 7 }
{}

/// The same write where a page fails, or where it is given up: a failed header or header gate closes the bank, a
/// header that is given up owes its gate, and behind that gate the next record goes behind this one.
pub fn second_write_given_up()
    ensures header_fails { log_failed 16 (second 0) ≡ first_log Closed }
    ensures gate_fails { log_failed 16 (second 1) ≡ first_log Closed }
    ensures body_fails { log_failed 16 (second 2) ≡ behind_second }
    ensures none_stands { log_given_up 16 (second 0) ≡ first_log Open }
    ensures gate_owed { log_given_up 16 (second 1) ≡ first_log (Owes head_128) }
    ensures owed_bytes { bytes_due 16 (first_log (Owes head_128)) ≡ pages 1 0 }
    ensures owed_done { log_done 16 numbers (first_log (Owes head_128)) ≡ behind_second }
    ensures body_stands { log_given_up 16 (second 3) ≡ behind_second }
{}

/// What isn't held: a bank shows no content that may not be found, a log isn't open over a torn header, and no number has
/// the place of a record that isn't its own.
pub fn refused_logs()
    ensures other_content { (ns : List (DeviceNumber × ℕ)) (log : Log) → HoldsLog new_bank ns (after_new (pages 4 0xff)) (λ number length. Some (record { mark = Content content_2; count = 1 } ∷ [])) log → ⊥ }
    ensures torn_header { (ns : List (DeviceNumber × ℕ)) (may : May) → HoldsLog new_bank ns (after_new (torn_header ++ pages 3 0xff)) may (first_log Open) → ⊥ }
    ensures wrong_place { HoldsLog new_bank numbers (after_new (pages 4 0xff)) (exactly new_bank (after_new (pages 4 0xff))) wrong_log → ⊥ }
{}
