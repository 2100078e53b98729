// The pass that makes an image.

ghost use Rattle.std.specs.Prelude.{◌≡◌};
ghost use Rattle.rv_alloc.specs.Assigned.{placed_code};
ghost use Rattle.rv_text.specs.Text.{image_of};
ghost use Rattle.tu_agree.specs.Keep.{Instructions};
ghost use Rattle.tu_agree.specs.Outcomes.{image_meant};
ghost use Rattle.tu_compile.specs.Meant.{assigned_meant};
ghost use Rattle.tu_compile.specs.Ready.{IsReadyAssigned};

use rv_alloc::Assigned;
use rv_emit::{emit, text_is_bounded};
use rv_image::Image;
use std::alloc::Global;
use tu_agree::Pass;
use tu_base::Memory;

/// From assigned code to an image. What it costs beside the code are the instructions before the main
/// program.
pub struct Emit;

impl Pass for Emit {
    type Before = Assigned;

    type After = Image;

    const SLOW: u64 = 1;

    const START: u64 = 12;

    ghost SLOW = { 1 };

    ghost START = { 12 };

    ghost meant_before = { assigned_meant };

    ghost meant_after = { image_meant };

    ghost bound = { Instructions };

    ghost ready = { IsReadyAssigned };

    ghost gives = { λ assigned image. image ≡ image_of (placed_code assigned) };

    #[tactic(auto, using(crate::proofs::Images::keeps_image, crate::proofs::Images::few_words, crate::proofs::Images::is_emitted))]
    fn pass(alloc: Global, before: &Assigned) -> Result<Image, Memory> {
        text_is_bounded();
        let emitted = emit(alloc, before)?;
        Ok(Image::make(emitted.text, emitted.globals, emitted.entry))
    }
}
