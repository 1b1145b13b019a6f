// What a start-up listed.
ghost use Rattle.std.specs.Prelude.{◌≡◌, ◌↔◌, IsTrue, option_copied, find, option_map};
ghost use Rattle.block_machine.specs.Blocks.{same_instance};
ghost use Rattle.block_machine.specs.StartUp.{listed_mark};

use block_machine::nv_base::{Instance, Mark, Marks};

/// Whether this mark is listed for an instance, which is Erased where none is.
pub fn is_listed(marks: &Marks, instance: Instance, mark: &Mark) -> bool
    ensures { IsTrue result ↔ (mark.now ≡ listed_mark marks.now instance) }
{
    match find_mark(marks, instance) {
        Some(listed) => mark == listed,
        None => matches!(mark, Mark::Erased),
    }
}

// The mark that is listed for an instance, if one is.
pub fn find_mark(marks: &Marks, instance: Instance) -> Option<&Mark>
    ensures { option_copied result ≡ option_map (λ x. x.1) (find (λ x. same_instance instance x.0) marks.now) }
{
    for i in 0..marks.len() {
        if let Some((listed, mark)) = marks.get(i)
            && instance == listed
        {
            return Some(mark);
        }
    }
    None
}
