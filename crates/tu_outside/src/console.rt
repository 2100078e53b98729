ghost use Rattle.std.specs.Prelude.{◌≡◌, ℕ, List, Option, OnOk, OnErr, IfOk};
ghost use Rattle.tu_base.specs.declared.event.Event.{Event};
ghost use Rattle.tu_outside.specs.Causes.{HasCause};
ghost use Rattle.tu_outside.specs.Told.{with_more, HasSomeOf};
ghost use Rattle.tu_outside.specs.Events.{puts, got, Takes};

/// The console failed. Its fault count has risen.
#[derive(Clone, Copy, Debug, PartialEq, Eq, Drop)]
pub struct ConsoleFault;

/// Where a program writes and reads bytes.
pub trait Console {
    /// The input still to come, where it is told.
    ghost left: { Self → Option (List ℕ) };

    /// What was written and read so far, where it is told.
    ghost events: { Self → Option (List Event) };

    /// How often the console has failed.
    ghost faults: { Self → ℕ };

    /// Writes bytes, in their order. At a fault a first part of them may have been written.
    fn put(&mut self, bytes: &[u8]) -> Result<(), ConsoleFault>
        ensures written { OnOk result (events self.new ≡ with_more (events self.old) (puts bytes.now)) }
        ensures cut { HasSomeOf (events self.old) (events self.new) (puts bytes.now) }
        ensures left { left self.new ≡ left self.old }
        ensures cause { HasCause (faults self.old) (faults self.new) result };

    /// Reads a byte. None is the end of the input.
    fn get(&mut self) -> Result<Option<u8>, ConsoleFault>
        ensures read { IfOk result (λ byte. events self.new ≡ with_more (events self.old) (got byte)) }
        ensures taken { IfOk result (λ byte. Takes (left self.old) byte (left self.new)) }
        ensures same_events { OnErr result (events self.new ≡ events self.old) }
        ensures same_left { OnErr result (left self.new ≡ left self.old) }
        ensures cause { HasCause (faults self.old) (faults self.new) result };
}
