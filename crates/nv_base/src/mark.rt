// The mark of an instance.
ghost use Rattle.std.specs.Prelude.{◌↔◌, IsTrue};
ghost use Rattle.nv_base.specs.Marks.{IsStored};

use crate::Bytes;

/// What an instance holds: a content, the mark of an invalidated instance, or nothing.
#[derive(Clone, PartialEq, Eq, Drop)]
pub enum Mark {
    Content(Bytes),
    Invalid,
    Erased,
}

impl Mark {
    /// Whether an instance can be listed with it: a content of at least one byte, or Invalid.
    pub fn is_stored(&self) -> bool
        ensures { IsTrue result ↔ IsStored self.now }
    {
        match self {
            Mark::Content(bytes) => bytes.len() > 0,
            Mark::Invalid => true,
            Mark::Erased => false,
        }
    }
}
