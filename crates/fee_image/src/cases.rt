// Worked images. Their functions do nothing.
ghost use Rattle.std.specs.Prelude.{◌≡◌, ◌≢◌, ◌++◌, ℕ, [], ◌∷◌, length, true, false, Some, None};
ghost use Rattle.nv_base.specs.declared.instance.DeviceNumber.{DeviceNumber};
ghost use Rattle.nv_base.specs.declared.mark.Mark.TheVariants.{Content, Erased};
ghost use Rattle.fls_model.specs.Bytes.{Grown};
ghost use Rattle.fee_format.specs.declared.bank_head.BankHead.{BankHead};
ghost use Rattle.fee_format.specs.declared.rec_head.RecordKind.TheVariants as kind;
ghost use Rattle.fee_image.specs.RecordList.{records_of, end_of, IsClosed, IsTailBlank};
ghost use Rattle.nv_base.specs.Held.{Held};
ghost use Rattle.fee_image.specs.Image.{head_of_bank, active_of, found_mark, found_held, found_list};
ghost use Rattle.fee_image.specs.Sound.{is_sound_image};
ghost use Rattle.fee_image.specs.Cases.{small, small_bank, new_bank, new_head_page, counted_header, after_new, ring, pages, head_page, torn_gate, header, torn_header, content_1, content_2, record_1, body, after_first, two_banks, three_banks};

/// The image that the first write of `11 22 33 44` to the number 128 leaves, byte for byte.
pub fn first_write()
    ensures size { length (after_first (pages 4 0xff)) ≡ 384 }
    ensures active { active_of small (after_first (pages 4 0xff)) ≡ Some (0, record { format = 1; generation = 1 }) }
    ensures records { records_of small_bank (after_first (pages 4 0xff)) ≡ record_1 ∷ [] }
    ensures end { end_of small_bank (after_first (pages 4 0xff)) ≡ 6 }
    ensures content { found_mark small (after_first (pages 4 0xff)) 128 4 ≡ Content content_1 }
    ensures other_number { (number length : ℕ) → number ≢ 128 → found_mark small (after_first (pages 4 0xff)) number length ≡ Erased }
    ensures other_length { (length : ℕ) → length ≢ 4 → found_mark small (after_first (pages 4 0xff)) 128 length ≡ Erased }
    ensures list { found_list small ((record { 0 = 128 }, 4) ∷ (record { 0 = 129 }, 7) ∷ []) (after_first (pages 4 0xff)) ≡ (record { block = 2; index = 0 }, Content content_1) ∷ [] }
    ensures tail { IsTailBlank small_bank (after_first (pages 4 0xff)) 6 }
{}

/// The image that it leaves in format 2, and a second write behind it, cut at its last page and whole: each has its count.
pub fn counted_writes()
    ensures active { active_of small (after_new (pages 4 0xff)) ≡ Some (0, record { format = 2; generation = 1 }) }
    ensures first { found_held small (after_new (pages 4 0xff)) 128 4 ≡ record { mark = Content content_1; count = 1 } }
    ensures cut { found_held small (after_new (counted_header 2 ++ pages 1 0 ++ body content_2 ++ torn_gate)) 128 4 ≡ record { mark = Content content_1; count = 1 } }
    ensures second { found_held small (after_new (counted_header 2 ++ pages 1 0 ++ body content_2 ++ pages 1 0)) 128 4 ≡ record { mark = Content content_2; count = 2 } }
    ensures old_header { records_of new_bank (new_head_page ++ pages 1 0 ++ header ++ pages 1 0 ++ body content_1 ++ pages 19 0) ≡ record { at = 2; head = record { number = record { 0 = 128 }; kind = kind.Content; length = 4; count = 4294967295 }; committed = true; payload = content_1 } ∷ [] }
{}

/// A second write that was cut at each of its pages leaves the first content, and the second one only once its last
/// page stands. A torn header closes the bank.
pub fn second_write_cut()
    ensures header { found_mark small (after_first (torn_header ++ pages 3 0xff)) 128 4 ≡ Content content_1 }
    ensures end { end_of small_bank (after_first (torn_header ++ pages 3 0xff)) ≡ 6 }
    ensures closed { IsClosed small_bank (after_first (torn_header ++ pages 3 0xff)) 6 }
    ensures header_gate { found_mark small (after_first (header ++ torn_gate ++ pages 2 0xff)) 128 4 ≡ Content content_1 }
    ensures body { found_mark small (after_first (header ++ pages 1 0 ++ pages 2 0xff)) 128 4 ≡ Content content_1 }
    ensures body_end { end_of small_bank (after_first (header ++ pages 1 0 ++ pages 2 0xff)) ≡ 10 }
    ensures commit_gate { found_mark small (after_first (header ++ pages 1 0 ++ body content_2 ++ torn_gate)) 128 4 ≡ Content content_1 }
    ensures whole { found_mark small (after_first (header ++ pages 1 0 ++ body content_2 ++ pages 1 0)) 128 4 ≡ Content content_2 }
{}

/// A bank whose head or gate a cut program left half written doesn't stand.
pub fn torn_programs()
    ensures head { active_of small (two_banks (head_page 1 0xff) (pages 1 0xff)) ≡ None }
    ensures gate { active_of small (head_page 1 0xfe ++ torn_gate ++ pages 22 0xff) ≡ None }
{}

/// Generation 1 after a torn erase that turned a bit of it to one: the bank doesn't stand any more, and the other one
/// is active.
pub fn torn_erase()
    ensures torn { Grown (head_page 1 0xfe) (head_page 3 0xfe) }
    ensures none { head_of_bank small (two_banks (head_page 3 0xfe) (head_page 2 0xfd)) 0 ≡ None }
    ensures active { active_of small (two_banks (head_page 3 0xfe) (head_page 2 0xfd)) ≡ Some (1, record { format = 1; generation = 2 }) }
{}

/// Sound images: two banks that stand, also after that torn erase. One in which a bit turned to one makes a bank stand
/// isn't sound.
pub fn sound_or_not()
    ensures standing { is_sound_image small (two_banks (head_page 1 0xfe) (head_page 2 0xfd)) ≡ true }
    ensures torn { is_sound_image small (two_banks (head_page 3 0xfe) (head_page 2 0xfd)) ≡ true }
    ensures not_sound { is_sound_image small (two_banks (head_page 0 0xfe) (head_page 2 0xfd)) ≡ false }
    ensures first_of_the_other { is_sound_image small (two_banks (head_page 2 0xfd) (head_page 0 0xfe)) ≡ false }
{}

/// Of two standing banks the one with the greater generation is active, on a tie bank 0.
pub fn active_of_two()
    ensures newer { active_of small (two_banks (head_page 1 0xfe) (head_page 2 0xfd)) ≡ Some (1, record { format = 1; generation = 2 }) }
    ensures older { active_of small (two_banks (head_page 2 0xfd) (head_page 1 0xfe)) ≡ Some (0, record { format = 1; generation = 2 }) }
    ensures tie { active_of small (two_banks (head_page 1 0xfe) (head_page 1 0xfe)) ≡ Some (0, record { format = 1; generation = 1 }) }
{}

/// Of three standing banks the one with the greatest generation is active, on a tie that of the least number.
pub fn active_of_three()
    ensures last { active_of ring (three_banks (head_page 1 0xfe) (head_page 2 0xfd) (head_page 3 0xfc)) ≡ Some (2, record { format = 1; generation = 3 }) }
    ensures between { active_of ring (three_banks (head_page 1 0xfe) (head_page 3 0xfc) (head_page 2 0xfd)) ≡ Some (1, record { format = 1; generation = 3 }) }
    ensures tie { active_of ring (three_banks (head_page 1 0xfe) (head_page 2 0xfd) (head_page 2 0xfd)) ≡ Some (1, record { format = 1; generation = 2 }) }
{}
