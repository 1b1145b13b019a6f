// Worked slots. Their functions do nothing.
ghost use Rattle.std.specs.Prelude.{◌≡◌, ◌≢◌, ◌++◌, ℕ, true, false, Some, None};
ghost use Rattle.nv_base.specs.declared.mark.Mark.TheVariants.{Content, Erased};
ghost use Rattle.nv_base.specs.Held.{Held, never_written};
ghost use Rattle.fls_model.specs.Bytes.{Grown};
ghost use Rattle.ea_image.specs.declared.which.Which.TheVariants.{Slot0, Slot1};
ghost use Rattle.ea_image.specs.Slots.{slot_bytes, standing, newest_of, found_at, is_sound_image};
ghost use Rattle.ea_image.specs.Cases.{small, pages, head_page, head, content_1, content_2, torn_gate, slot, blank_slot, first};

/// The image that the first write of `11 22 33 44` leaves: it stands in slot 0, and nothing else is written.
pub fn first_write()
    ensures blank { found_at small (blank_slot ++ blank_slot) 0 4 ≡ never_written }
    ensures stands { newest_of 16 4 (slot_bytes small (first ++ blank_slot) 0) ≡ Some (Slot0, head 1) }
    ensures content { found_at small (first ++ blank_slot) 0 4 ≡ record { mark = Content content_1; count = 1 } }
    ensures other_length { (length : ℕ) → length ≢ 4 → found_at small (first ++ blank_slot) 0 length ≡ never_written }
{}

/// A second write, to slot 1, that was cut at each of its steps leaves the first content, and the second one only once its
/// gate stands open.
pub fn second_write_cut()
    ensures body { found_at small (first ++ slot (pages 1 0xff) (pages 1 0xff) content_2) 0 4 ≡ record { mark = Content content_1; count = 1 } }
    ensures head { found_at small (first ++ slot (head_page 2 0xff) (pages 1 0xff) content_2) 0 4 ≡ record { mark = Content content_1; count = 1 } }
    ensures gate { found_at small (first ++ slot (head_page 2 0xfd) torn_gate content_2) 0 4 ≡ record { mark = Content content_1; count = 1 } }
    ensures whole { found_at small (first ++ slot (head_page 2 0xfd) (pages 1 0) content_2) 0 4 ≡ record { mark = Content content_2; count = 2 } }
{}

/// Of two slots that stand the one with the greater sequence counts, on a tie slot 0.
pub fn both_stand()
    ensures newer { newest_of 16 4 (slot_bytes small (first ++ slot (head_page 2 0xfd) (pages 1 0) content_2) 0) ≡ Some (Slot1, head 2) }
    ensures older { newest_of 16 4 (slot_bytes small (slot (head_page 2 0xfd) (pages 1 0) content_2 ++ first) 0) ≡ Some (Slot0, head 2) }
    ensures tie { newest_of 16 4 (slot_bytes small (first ++ slot (head_page 1 0xfe) (pages 1 0) content_2) 0) ≡ Some (Slot0, head 1) }
{}

/// Sequence 1 behind a torn erase that turned a bit of it to one: the slot doesn't stand any more.
pub fn torn_head()
    ensures torn { Grown (head_page 1 0xfe) (head_page 3 0xfe) }
    ensures none { standing 16 4 (slot_bytes small (slot (head_page 3 0xfe) (pages 1 0) content_1 ++ blank_slot) 0 Slot0) ≡ None }
    ensures found { found_at small (slot (head_page 3 0xfe) (pages 1 0) content_1 ++ blank_slot) 0 4 ≡ never_written }
{}

/// Sound images: slots that stand, also behind that torn erase, and heads that aren't whole before gates that aren't open.
/// One in which a bit turned to one makes a slot stand isn't sound.
pub fn sound_or_not()
    ensures blank { is_sound_image small 1 (blank_slot ++ blank_slot) ≡ true }
    ensures standing { is_sound_image small 1 (first ++ slot (head_page 2 0xfd) (pages 1 0) content_2) ≡ true }
    ensures torn { is_sound_image small 1 (slot (head_page 3 0xfe) (pages 1 0) content_1 ++ blank_slot) ≡ true }
    ensures not_sound { is_sound_image small 1 (slot (head_page 0 0xfe) (pages 1 0) content_1 ++ blank_slot) ≡ false }
    ensures in_slot_1 { is_sound_image small 1 (blank_slot ++ slot (head_page 0 0xfe) (pages 1 0) content_1) ≡ false }
    ensures shut { is_sound_image small 1 (slot (head_page 0 0xfe) (pages 1 0xff) content_1 ++ blank_slot) ≡ true }
{}
