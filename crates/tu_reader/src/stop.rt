use std::alloc::AllocError;
use tu_base::Memory;

/// Why a function of the reader found nothing.
#[derive(Clone, Copy, Debug, PartialEq, Eq)]
pub enum Stop {
    /// The next token fits nothing.
    Unexpected,
    /// Want of memory.
    Memory,
}

impl From<AllocError> for Stop {
    ghost use Rattle.std.specs.Prelude.{◌≡◌};
    ghost use Rattle.tu_reader.specs.declared.stop.Stop.TheVariants.{Memory as stop_memory};

    ghost from_gives = { λ _ e. e ≡ stop_memory };

    fn from(_: AllocError) -> Self {
        Stop::Memory
    }
}

impl From<Memory> for Stop {
    ghost use Rattle.std.specs.Prelude.{◌≡◌};
    ghost use Rattle.tu_reader.specs.declared.stop.Stop.TheVariants.{Memory as stop_memory};

    ghost from_gives = { λ _ e. e ≡ stop_memory };

    fn from(_: Memory) -> Self {
        Stop::Memory
    }
}
