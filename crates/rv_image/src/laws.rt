ghost use Rattle.std.specs.Prelude.{◌≡◌, Ok};
ghost use Rattle.rv_image.specs.Picture.{Picture, InRange, spelling};
ghost use Rattle.rv_image.specs.Reading.{reading};

/// Reading gives back what was spelled.
#[tactic(auto, using(crate::proofs::RoundTrip::again))]
pub fn reads_again()
    ensures { (p : Picture) → InRange p → reading (spelling p) ≡ Ok p }
{}

/// Bytes spell one image at most.
#[tactic(auto, using(crate::proofs::RoundTrip::once))]
pub fn spelled_once()
    ensures { (p q : Picture) → InRange p → InRange q → spelling p ≡ spelling q → p ≡ q }
{}
