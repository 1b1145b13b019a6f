// Marks, for proofs alone.
ghost use Rattle.std.specs.Prelude.{◌≡◌, List};
ghost use Rattle.nv_base.specs.declared.instance.Instance.{Instance};
ghost use Rattle.nv_base.specs.declared.mark.Mark.{Mark};
ghost use Rattle.nv_recorder.specs.FoundMarks.{found_in};

use crate::FoundMarks;
use std::marker::Model;

/// Marks that stand for proofs alone: none of them is kept. Contracts read them as `items`.
#[derive(Drop)]
pub struct ToldMarks {
    pub ghost items: { List (Instance × Mark) },
}

impl Model for ToldMarks {
    ghost use base.Fml.{ftrue};

    ghost also_owns = { λ _. ftrue };
}

// They own nothing.
unsafe impl Send for ToldMarks {}

impl ToldMarks {
    /// Those that were found.
    pub fn of(found: &FoundMarks) -> ToldMarks
        ensures { result.items ≡ found_in found.now }
    {
        marks_told(found)
    }

    // The marks that a proof picks.
    fn picked() -> ToldMarks
        ghost items: { List (Instance × Mark) }
        ensures { result.items ≡ items }
    {
        ToldMarks {}
    }
}

fn marks_told(found: &FoundMarks) -> ToldMarks
    ghost items: { List (Instance × Mark) }
    requires { items ≡ found_in found.now }
    ensures { result.items ≡ found_in found.now }
{
    ToldMarks::picked()
}
