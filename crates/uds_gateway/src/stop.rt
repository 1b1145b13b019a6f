// Why a request has no answer.
use std::alloc::AllocError;

/// Why a request has no answer: the power is off, its Ask doesn't fit into the history, or no memory was found.
#[derive(Clone, Copy)]
pub enum ServeStop {
    Off,
    NoRoom,
    Memory,
}

impl From<AllocError> for ServeStop {
    ghost use Rattle.std.specs.Prelude.{◌≡◌};
    ghost use Rattle.uds_gateway.specs.declared.stop.ServeStop.TheVariants.{Memory};

    ghost from_gives = { λ _ stop. stop ≡ Memory };

    fn from(_error: AllocError) -> ServeStop {
        ServeStop::Memory
    }
}
