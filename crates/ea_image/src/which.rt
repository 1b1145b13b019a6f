// The slots of an instance.
ghost use Rattle.std.specs.Prelude.{◌≡◌};
ghost use Rattle.ea_image.specs.Slots.{other};

/// One of the two slots of an instance.
#[derive(Clone, Copy, PartialEq, Eq)]
pub enum Which {
    Slot0,
    Slot1,
}

impl Which {
    /// The other one.
    pub fn other(self) -> Which
        ensures { result ≡ other self }
    {
        match self {
            Which::Slot0 => Which::Slot1,
            Which::Slot1 => Which::Slot0,
        }
    }
}
