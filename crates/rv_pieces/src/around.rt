// Calls, returns, run-time arrays and the start, as far as they are the same in all routines.

ghost use Rattle.std.specs.Prelude.{◌≡◌, ◌<◌, ◌≤◌, ◌++◌, ◌∷◌, [], OnOk};
ghost use Rattle.rv_isa.specs.declared.instr.StoreKind.TheVariants.{Word as whole_word};
ghost use Rattle.rv_runs.specs.Stands.{codes_of};
ghost use Rattle.rv_layout.specs.Pieces.{long};
ghost use Rattle.rv_layout.specs.Calling.{takes_room, takes_words, opening};

use crate::output::Output;
use rv_isa::{Instr, RegisterOp, Relation, ShiftOp, StoreKind};
use tu_base::Memory;

// Control comes back behind the five words that raise Storage.
const REFUSAL_BYTES: u32 = 20;

// The words of -4 and of -8.
pub const LINK: u32 = 0xffff_fffc;

pub const CALLER: u32 = 0xffff_fff8;

impl Output {
    pub fn push_register(&mut self, op: RegisterOp, rd: u8, rs1: u8, rs2: u8) -> Result<(), Memory>
        requires rd { rd < 32 }
        requires rs1 { rs1 < 32 }
        requires rs2 { rs2 < 32 }
        ensures { OnOk result (self.new ≡ self.old ++ codes_of (Instr.Register op rd rs1 rs2 ∷ [])) }
    {
        self.push(Instr::Register { op, rd, rs1, rs2 })
    }

    pub fn push_shift(&mut self, op: ShiftOp, rd: u8) -> Result<(), Memory>
        requires { rd < 32 }
        ensures { OnOk result (self.new ≡ self.old ++ codes_of (Instr.Shift op rd rd 2 ∷ [])) }
    {
        self.push(Instr::Shift {
            op,
            rd,
            rs1: rd,
            amount: 2,
        })
    }

    // To where the other side goes on, or so many bytes behind.
    pub fn push_other_side(&mut self, link: u8, offset: u32) -> Result<(), Memory>
        requires link { link < 32 }
        requires offset { offset < 2048 }
        ensures { OnOk result (self.new ≡ self.old ++ codes_of (Instr.Jalr link 8 offset ∷ [])) }
    {
        self.push(Instr::Jalr {
            rd: link,
            rs1: 8,
            offset,
        })
    }

    fn push_below(&mut self, base: u8, from: u8, offset: u32) -> Result<(), Memory>
        requires base { base < 32 }
        requires from { from < 32 }
        requires low { 4294965248 ≤ offset }
        ensures { OnOk result (self.new ≡ self.old ++ codes_of (Instr.Store whole_word base from offset ∷ [])) }
    {
        self.push(Instr::Store {
            kind: StoreKind::Word,
            rs1: base,
            rs2: from,
            offset,
        })
    }

    // A branch over one word where register 6 is not less than register 5, or the other way round.
    pub fn push_unless_less(&mut self, rs1: u8, rs2: u8) -> Result<(), Memory>
        requires rs1 { rs1 < 32 }
        requires rs2 { rs2 < 32 }
        ensures { OnOk result (self.new ≡ self.old ++ codes_of (Instr.Branch Relation.GreaterOrEqualUnsigned rs1 rs2 8 ∷ [])) }
    {
        self.push(Instr::Branch {
            relation: Relation::GreaterOrEqualUnsigned,
            rs1,
            rs2,
            offset: 8,
        })
    }

    pub fn push_takes_room(&mut self) -> Result<(), Memory>
        ensures { OnOk result (self.new ≡ self.old ++ codes_of takes_room) }
    {
        self.push_below(1, 2, CALLER)?;
        self.push_register(RegisterOp::Sub, 1, 1, 6)?;
        self.push_other_side(8, REFUSAL_BYTES)?;
        self.push_copy(2, 1)?;
        self.push_register(RegisterOp::Add, 6, 1, 6)?;
        self.push_below(6, 8, LINK)
    }

    // The piece that all run-time arrays share.
    pub fn push_takes_words(&mut self) -> Result<(), Memory>
        ensures { OnOk result (self.new ≡ self.old ++ codes_of takes_words) }
    {
        self.push_register(RegisterOp::Sub, 6, 1, 3)?;
        self.push_shift(ShiftOp::Srli, 6)?;
        self.push_unless_less(6, 5)?;
        self.push_other_side(0, 0)?;
        self.push_shift(ShiftOp::Slli, 5)?;
        self.push_register(RegisterOp::Sub, 1, 1, 5)?;
        self.push_other_side(0, REFUSAL_BYTES)
    }

    // The floor of all rooms, and the room of the main program.
    fn push_first_room(&mut self, room: u32) -> Result<(), Memory>
        ensures { OnOk result (self.new ≡ self.old ++ codes_of (Instr.Lui 3 33554432 ∷ Instr.Register RegisterOp.Sub 3 2 3 ∷ (long 6 room ++ Instr.Register RegisterOp.Sub 1 2 6 ∷ []))) }
    {
        self.push(Instr::Lui {
            rd: 3,
            upper: 33554432,
        })?;
        self.push_register(RegisterOp::Sub, 3, 2, 3)?;
        self.push_long(6, room)?;
        self.push_register(RegisterOp::Sub, 1, 2, 6)
    }

    // From the start of the machine to the main program's first word.
    pub fn push_opening(&mut self, room: u32, exit: u32, first: u32) -> Result<(), Memory>
        ensures { OnOk result (self.new ≡ self.old ++ codes_of (opening room exit first)) }
    {
        self.push_first_room(room)?;
        self.push_long(8, exit)?;
        self.push_below(2, 8, LINK)?;
        self.push_copy(2, 1)?;
        self.push_go(first)
    }
}
