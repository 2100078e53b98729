// Moves between words of the frame.

ghost use Rattle.std.specs.Prelude.{◌≡◌, ◌<◌, ◌++◌, true, false, IsTrue, OnOk};
ghost use Rattle.rv_runs.specs.Stands.{codes_of};
ghost use Rattle.rv_layout.specs.Moves.{copy_words, swap_words};

use crate::output::Output;
use tu_base::Memory;

// Copies and exchanges of the words so many bytes behind the frame's lowest byte.
impl Output {
    pub fn push_move(&mut self, near: bool, to: u64, from: u64) -> Result<(), Memory>
        requires to { IsTrue near → to < 2048 }
        requires from { IsTrue near → from < 2048 }
        ensures { OnOk result (self.new ≡ self.old ++ codes_of (copy_words near false to from)) }
    {
        self.push_load_by(near, 5, 2, from)?;
        self.push_store_by(near, 5, 2, to)
    }

    // A copy that stores back what it loaded.
    pub fn push_mixed_copy(&mut self, near: bool, to: u64, from: u64) -> Result<(), Memory>
        requires to { IsTrue near → to < 2048 }
        requires from { IsTrue near → from < 2048 }
        ensures { OnOk result (self.new ≡ self.old ++ codes_of (copy_words near true to from)) }
    {
        self.push_load_by(near, 5, 2, from)?;
        self.push_load_by(near, 6, 2, to)?;
        self.push_store_by(near, 5, 2, to)?;
        self.push_store_by(near, 5, 2, from)
    }

    pub fn push_swap(&mut self, near: bool, to: u64, from: u64) -> Result<(), Memory>
        requires to { IsTrue near → to < 2048 }
        requires from { IsTrue near → from < 2048 }
        ensures { OnOk result (self.new ≡ self.old ++ codes_of (swap_words near to from)) }
    {
        self.push_load_by(near, 5, 2, from)?;
        self.push_load_by(near, 6, 2, to)?;
        self.push_store_by(near, 5, 2, to)?;
        self.push_store_by(near, 6, 2, from)
    }
}
