ghost use Rattle.rv_layout.specs.Held.{LaidCodeKeepsStep};

/// The machine keeps step with linear code that is laid out and ready.
#[tactic(auto, using(crate::proofs::Chain::ticks_lock))]
pub fn laid_code_keeps_step()
    ensures { LaidCodeKeepsStep }
{}
