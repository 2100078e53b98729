ghost use Rattle.std.specs.Prelude.{[], ◌∷◌};
ghost use Rattle.tu_effects.specs.Even.{IsEven};

use tu_reach::{Rows, Search};

/// The calls of a program, which routines read or change what themselves, and which of them change
/// something outside or talk, by themselves or by calls.
#[derive(Drop)]
pub struct Effects {
    pub callers: Rows,
    pub touched_variables: Rows,
    pub touched_collections: Rows,
    pub changed_variables: Rows,
    pub changed_collections: Rows,
    pub writes: Search,
    pub talks: Search,
    ghost even: { IsEven callers.texts (touched_variables.texts ∷ (touched_collections.texts ∷ (changed_variables.texts ∷ (changed_collections.texts ∷ [])))) },
}
