// Worked cases of the definitions.
ghost use Rattle.std.specs.Prelude.{◌≡◌, [], ◌∷◌, true, false, Some, None};
ghost use Rattle.ram_blocks.specs.Plain.{fresh_block, refused, refusing};
ghost use Rattle.ram_blocks.specs.Tries.{Spends};

/// Of three copies that are to be refused two tries spend two, and two tries more are one that is refused and one that is made.
/// Two tries aren't all refused where one is to be, nor made where two are; and refused copies are spent. Where nothing is told of
/// what is to be refused, each may be.
pub fn copies_to_refuse()
    ensures both { Spends true 2 (Some 3) (Some 1) }
    ensures first_alone { Spends false 2 (Some 1) (Some 0) }
    ensures none { Spends false 2 (Some 0) (Some 0) }
    ensures one_too_many { ¬ Spends true 2 (Some 1) (Some 0) }
    ensures one_too_few { ¬ Spends false 2 (Some 2) (Some 0) }
    ensures not_spent { ¬ Spends true 2 (Some 3) (Some 3) }
    ensures left_behind_a_copy { ¬ Spends false 2 (Some 1) (Some 1) }
    ensures untold { Spends true 2 None None }
{}

/// What was asked for adds up, and each refused copy takes one of it.
pub fn asked_refusals()
    ensures twice { (refusing 1 (refusing 2 (fresh_block []))).to_refuse ≡ 3 }
    ensures one_fewer { (refused (refusing 2 (fresh_block []))).to_refuse ≡ 1 }
    ensures counted { (refused (refusing 2 (fresh_block []))).refusals ≡ 1 }
    ensures asked_later { (refusing 2 (refused (refusing 1 (fresh_block [])))).to_refuse ≡ 2 }
{}
