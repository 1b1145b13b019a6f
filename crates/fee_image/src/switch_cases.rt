// A worked switch of the small flash of the worked images. Its functions do nothing.
ghost use Rattle.std.specs.Prelude.{◌≡◌, ℕ, List, [], ◌∷◌, Some};
ghost use Rattle.nv_base.specs.declared.instance.DeviceNumber.{DeviceNumber};
ghost use Rattle.nv_base.specs.declared.mark.Mark.TheVariants.{Content};
ghost use Rattle.fee_image.specs.Cases.{small, pages, torn_gate, content_1, content_2};
ghost use Rattle.fee_image.specs.Image.{active_of, found_held};
ghost use Rattle.fee_image.specs.LogCases.{numbers, first_log};
ghost use Rattle.fee_image.specs.LogLaws.{erased_log};
ghost use Rattle.fee_image.specs.Log.{Open};
ghost use Rattle.fee_image.specs.Banks.{NoBank, Idle, Sealing, Holds};
ghost use Rattle.fee_image.specs.Copies.{copied_of, may_of, marked, cleared, need};
ghost use Rattle.fee_image.specs.BankLaws.{found_alone};
ghost use Rattle.fee_image.specs.SwitchCases.{head_of, stood, sealing, uncopied, in_switch, flags};

/// A blank flash is held, with no old bank and any target.
pub fn blank_flash()
    ensures { Holds small numbers (pages 24 0xff) (record { old = NoBank; target = 0; phase = Idle; may = found_alone small (pages 24 0xff); copied = found_alone small (pages 24 0xff) }) }
{}

/// The bank gate of a target that holds a copy of the one record: before it and where it is cut the old bank is active, and
/// once it stands the target is. The same content is found each time, and the flash is held before it.
pub fn sealed_copy()
    ensures before { active_of small (sealing (pages 1 0xff)) ≡ Some (0, record { format = 2; generation = 1 }) }
    ensures cut { active_of small (sealing torn_gate) ≡ Some (0, record { format = 2; generation = 1 }) }
    ensures done { active_of small (sealing (pages 1 0)) ≡ Some (1, record { format = 2; generation = 2 }) }
    ensures found_before { found_held small (sealing torn_gate) 128 4 ≡ record { mark = Content content_1; count = 1 } }
    ensures found_after { found_held small (sealing (pages 1 0)) 128 4 ≡ record { mark = Content content_1; count = 1 } }
    ensures held { Holds small numbers (sealing (pages 1 0xff)) (in_switch (sealing (pages 1 0xff)) (Sealing (first_log Open))) }
{}

/// Two numbers with four pages each, of which one is copied, and then written again before the seal.
pub fn copied_flags()
    ensures need_both { need 16 flags ≡ 8 }
    ensures need_one { need 16 (marked 128 flags) ≡ 4 }
    ensures need_again { need 16 (cleared 128 (marked 128 flags)) ≡ 8 }
    ensures shown { copied_of (marked 128 flags) 128 4 ≡ Some (record { mark = Content content_1; count = 1 } ∷ []) }
    ensures doubted { may_of flags (λ number. record { mark = Content content_2; count = 2 } ∷ []) 128 4 ≡ Some (record { mark = Content content_1; count = 1 } ∷ record { mark = Content content_2; count = 2 } ∷ []) }
{}

/// What isn't held: a seal of a target to which the one content isn't copied, and an old bank that another one stands
/// before.
pub fn refused_banks()
    ensures uncopied { (ns : List (DeviceNumber × ℕ)) → Holds small ns (uncopied (pages 1 0xff)) (in_switch (uncopied (pages 1 0xff)) (Sealing (erased_log ns))) → ⊥ }
    ensures another_first { (ns : List (DeviceNumber × ℕ)) (bytes : List ℕ) → Holds small ns (stood (head_of 1 0xfe) (head_of 2 0xfd)) (in_switch bytes Idle) → ⊥ }
{}
