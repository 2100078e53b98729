ghost use Rattle.rv_emit.specs.Ready.{TextIsBounded};

use rv_text::text_is_measured;

/// The text of assigned code with a routine has at most as many words as the code's size, and one
/// more for each four bytes of the texts, rounded up.
pub fn text_is_bounded()
    ensures { TextIsBounded }
{
    text_is_measured();
}
