ghost use Rattle.std.specs.Prelude.{ℕ};
ghost use Rattle.tu_core.specs.Core.{Block};
ghost use Rattle.tu_room_changes.specs.Laws.{TellsChanges};

/// A local stands among the changes of a text as often as the definition counts its changes.
pub fn changes_are_told()
    ensures { (x : ℕ) (text : Block) → TellsChanges x text }
{}
