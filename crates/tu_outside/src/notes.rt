ghost use Rattle.std.specs.Prelude.{◌≡◌, ℕ, List, [], ◌∷◌, Option, OnOk, OnErr};
ghost use Rattle.tu_outside.specs.Causes.{HasCause};
ghost use Rattle.tu_outside.specs.Told.{with_more};

/// A note was not taken. The fault count has risen.
#[derive(Clone, Copy, Debug, PartialEq, Eq, Drop)]
pub struct NoteFault;

/// Where a program says, line by line, how it went.
pub trait Notes {
    /// The lines so far, where they are told.
    ghost lines: { Self → Option (List (List ℕ)) };

    /// How often a line was refused.
    ghost faults: { Self → ℕ };

    /// Appends a line, given without its line end. At a fault no line that is told is added.
    fn line(&mut self, text: &[u8]) -> Result<(), NoteFault>
        ensures written { OnOk result (lines self.new ≡ with_more (lines self.old) (text.now ∷ [])) }
        ensures same { OnErr result (lines self.new ≡ lines self.old) }
        ensures cause { HasCause (faults self.old) (faults self.new) result };
}
