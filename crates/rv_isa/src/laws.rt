ghost use Rattle.std.specs.Prelude.{◌≡◌, ◌<◌, Some, ℕ};
ghost use Rattle.rv_isa.specs.declared.instr.Instr.{Instr};
ghost use Rattle.rv_isa.specs.Encoding.{Fits, encoding, decoding};
ghost use Rattle.rv_isa.specs.Step.{Space, Cpu, step};
ghost use Rattle.rv_isa.specs.Fixed.{HoldsText, left_memory};

/// Decoding gives back what was encoded.
#[tactic(auto, using(crate::proofs::RoundTrip::again))]
pub fn decodes_again()
    ensures { (op : Instr) → Fits op → decoding (encoding op) ≡ Some op }
{}

/// What is decoded fits, and is encoded by its word.
pub fn decoded_fits()
    ensures { (w : ℕ) → w < 4294967296 → (op : Instr) → decoding w ≡ Some op →
        Fits op × (encoding op ≡ w) }
{}

/// An instruction leaves the words of the text as they stand in memory.
#[tactic(auto, using(crate::proofs::TextStays::step_keeps))]
pub fn text_stays()
    ensures { (s : Space) (c : Cpu) → HoldsText s.text c.memory →
        HoldsText s.text (left_memory (step s c)) }
{}
