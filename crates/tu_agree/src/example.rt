//! A small compiler in three passes: how `Pass` is met, and what a chain of passes keeps. Behind it
//! stands the smallest pass to an image, and that the image agrees with its program.

ghost use Rattle.std.proofs.Common.{lit<};
ghost use Rattle.std.specs.Prelude.{◌≡◌, [], refl, IfOk};
ghost use Rattle.tu_agree.specs.Agrees.{Agrees, over_folder};
ghost use Rattle.tu_agree.specs.Example.{empty_program, text_meant, stack_meant, words_meant, halting};
ghost use Rattle.tu_agree.specs.Keep.{Instructions, KeepsInstructions, Turns};
ghost use Rattle.tu_agree.specs.Outcomes.{image_meant, program_meant};
ghost use Rattle.tu_tree_meaning.specs.Programs.{meaning};

use crate::{Both, Follows, Pass, compile};
use rv_image::Image;
use rv_isa::Text;
use std::alloc::Global;
use tu_base::Memory;

/// From a text to a stack: the last byte comes first. Each byte costs three times as much.
pub struct Stack;

impl Pass for Stack {
    type Before = Vec<u8>;

    type After = Vec<u8>;

    const SLOW: u64 = 3;

    const START: u64 = 2;

    ghost SLOW = { 3 };

    ghost START = { 2 };

    ghost meant_before = { λ text. text_meant text.items };

    ghost meant_after = { λ stack. stack_meant stack.items };

    ghost bound = { Turns };

    ghost ready = { λ _. Unit {0} };

    ghost gives = { λ _ _. Unit {0} };

    fn pass(alloc: Global, before: &Vec<u8>) -> Result<Vec<u8>, Memory> {
        Ok(before.iter().rev().copied().collect(alloc)?)
    }
}

/// From a stack to the same stack, where a pass could make it cheaper.
pub struct Same;

impl Pass for Same {
    type Before = Vec<u8>;

    type After = Vec<u8>;

    const SLOW: u64 = 1;

    const START: u64 = 0;

    ghost SLOW = { 1 };

    ghost START = { 0 };

    ghost meant_before = { λ stack. stack_meant stack.items };

    ghost meant_after = { λ stack. stack_meant stack.items };

    ghost bound = { Turns };

    ghost ready = { λ _. Unit {0} };

    ghost gives = { λ _ _. Unit {0} };

    fn pass(alloc: Global, before: &Vec<u8>) -> Result<Vec<u8>, Memory> {
        let stack = Vec::from_slice(alloc, before)?;
        Ok(stack)
    }
}

/// From a stack to what a small machine runs, in the order of the text again.
pub struct Words;

impl Pass for Words {
    type Before = Vec<u8>;

    type After = Vec<u8>;

    const SLOW: u64 = 2;

    const START: u64 = 2;

    ghost SLOW = { 2 };

    ghost START = { 2 };

    ghost meant_before = { λ stack. stack_meant stack.items };

    ghost meant_after = { λ words. words_meant words.items };

    ghost bound = { Instructions };

    ghost ready = { λ _. Unit {0} };

    ghost gives = { λ _ _. Unit {0} };

    fn pass(alloc: Global, before: &Vec<u8>) -> Result<Vec<u8>, Memory> {
        Ok(before.iter().rev().copied().collect(alloc)?)
    }
}

impl Follows<Same> for Words {
    ghost turns = { refl };

    ghost next = { λ before middle ready gives. tt };

    ghost same = { λ middle. refl };

    ghost slow_fits = { lit< tt };

    ghost start_fits = { lit< tt };
}

impl Follows<Stack> for Both<Same, Words> {
    ghost turns = { refl };

    ghost next = { λ before middle ready gives. tt };

    ghost same = { λ middle. refl };

    ghost slow_fits = { lit< tt };

    ghost start_fits = { lit< tt };
}

/// The three of them.
pub type Chain = Both<Stack, Both<Same, Words>>;

/// From a text to what the machine runs.
pub fn make_words(alloc: Global, text: &Vec<u8>) -> Result<Vec<u8>, Memory>
    ensures { let meant = text_meant text.now.items in
        IfOk result (λ words. KeepsInstructions 6 6 meant (words_meant words.items)) }
{
    Chain::pass(alloc, text)
}

/// A program without statements.
#[derive(Drop)]
pub struct Nothing;

/// From that program to an image that ends at once.
pub struct Halt;

/// The instruction that asks for a service: for the end, where its register is 0.
const ECALL: u32 = 0x73;

impl Pass for Halt {
    type Before = Nothing;

    type After = Image;

    const SLOW: u64 = 1;

    const START: u64 = 1;

    ghost SLOW = { 1 };

    ghost START = { 1 };

    ghost meant_before = { λ _. program_meant (over_folder (meaning empty_program)) };

    ghost meant_after = { image_meant };

    ghost bound = { Instructions };

    ghost ready = { λ _. Unit {0} };

    ghost gives = { λ _ image. image ≡ halting };

    fn pass(alloc: Global, _before: &Nothing) -> Result<Image, Memory> {
        Ok(Image::make(Text::from_slice(alloc, &[ECALL])?, 0, 0))
    }
}

/// The image that ends at once.
pub fn make_image(alloc: Global) -> Result<Image, Memory>
    ensures { IfOk result (λ image. Agrees (over_folder (meaning empty_program)) image) }
{
    compile::<Halt>(alloc, &Nothing)
}

#[cfg(test)]
mod tests {
    use super::*;
    use std::test::Fail;

    #[test]
    fn numbers_compose(rt: HostRuntime) {
        let rows = [
            (Stack::SLOW, Stack::START, 3, 2),
            (Same::SLOW, Same::START, 1, 0),
            (Words::SLOW, Words::START, 2, 2),
            (Both::<Same, Words>::SLOW, Both::<Same, Words>::START, 2, 2),
            (Chain::SLOW, Chain::START, 6, 6),
            (Halt::SLOW, Halt::START, 1, 1),
        ];
        for (slow, start, slow_wanted, start_wanted) in rows {
            assert_eq!(rt; (slow, start), (slow_wanted, start_wanted));
        }
    }

    #[test]
    fn chains_make_words(rt: HostRuntime) -> Result<(), Fail> {
        let alloc = rt.alloc();
        let text = vec![in alloc; 97, 98, 99]?;
        assert_eq!(rt;
            Stack::pass(alloc, &text)?.as_slice(),
            [99, 98, 97].as_slice()
        );
        assert_eq!(rt;
            make_words(alloc, &text)?.as_slice(),
            [97, 98, 99].as_slice()
        );
        Ok(())
    }

    #[test]
    fn images_are_made(rt: HostRuntime) -> Result<(), Fail> {
        let alloc = rt.alloc();
        let image = make_image(alloc)?.bytes(alloc)?;
        assert_eq!(rt; image.len(), 24);
        assert_eq!(rt; &image.as_slice()[20..], [0x73, 0, 0, 0].as_slice());
        Ok(())
    }
}
