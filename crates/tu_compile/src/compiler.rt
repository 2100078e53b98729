// The whole compiler.

ghost use Rattle.std.proofs.Common.{lit<};
ghost use Rattle.std.specs.Prelude.{refl, IfOk};
ghost use Rattle.tu_agree.specs.Agrees.{Agrees, over_folder};
ghost use Rattle.tu_tree_meaning.specs.Programs.{meaning};

use crate::chain::Chain;
use crate::generate::Generate;
use rv_image::Image;
use std::alloc::Global;
use tu_agree::{Both, Follows};
use tu_base::Memory;
use tu_check::Checked;

impl Follows<Generate> for Chain {
    ghost turns = { refl };

    ghost next = { λ before middle ready gives. gives };

    ghost same = { λ middle. refl };

    ghost slow_fits = { lit< tt };

    ghost start_fits = { lit< tt };
}

/// From a checked program to an image. What it costs is at most 1,000 for each unit, and 512 once.
pub type Compiler = Both<Generate, Chain>;

/// An image that agrees with a checked program. It fails only for want of memory.
pub fn compile(alloc: Global, checked: &Checked) -> Result<Image, Memory>
    ensures { IfOk result (λ image. Agrees (over_folder (meaning checked.now)) image) }
{
    tu_agree::compile::<Compiler>(alloc, checked)
}
