ghost use Rattle.std.specs.Prelude.{◌≡◌, ◌+◌, ℕ};
ghost use Rattle.rv_isa.specs.Step.{Space, Cpu};
ghost use Rattle.rv_image.specs.Steps.{steps};
ghost use Rattle.rv_image.specs.Streams.{Folder, World};
ghost use Rattle.rv_image.specs.Run.{run, rests};

/// A run with the services of a host goes on from where the machine rests.
#[tactic(auto, using(crate::proofs::Runs::run_rests))]
pub fn runs_rest()
    ensures { (folder : Folder) (s : Space) (n k : ℕ) (c : Cpu) (w : World) → run folder s n k c w ≡ rests folder s (k + n) w (steps s n k c) }
{}
