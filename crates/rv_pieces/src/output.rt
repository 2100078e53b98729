// The words of a text so far, and short sequences of instructions at its end.

ghost use Rattle.std.specs.Prelude.{◌≡◌, ◌<◌, ◌%◌, [], ◌∷◌, ◌++◌, IsTrue, OnOk};
ghost use Rattle.rv_isa.specs.Encoding.{Fits};
ghost use Rattle.rv_runs.specs.Stands.{codes_of};
ghost use Rattle.rv_layout.specs.Pieces.{upper, lower, nothing, small, copy, long, constant, far_from, load_by, load_word, store_by, store_word, address_word, go_to, call_to, ask, raising};

use rv_isa::{ImmediateOp, Instr, LoadKind, RegisterOp, StoreKind, Text, encode};
use std::alloc::Global;
use std::marker::Model;
use tu_base::Memory;

// A number is near where 12 bits hold it.
pub const NEAR: u64 = 2048;

fn upper_part(word: u32) -> u32
    ensures { result ≡ upper word }
{
    word.wrapping_add(2048) / 4096 * 4096
}

fn lower_part(word: u32) -> u32
    ensures { result ≡ lower word }
{
    word.wrapping_sub(upper_part(word))
}

// The low 32 bits.
fn low_word(number: u64) -> u32
    ensures { result ≡ number % 4294967296 }
{
    (number % 4294967296) as u32
}

// Each `push` adds the words of some instructions.
#[derive(Drop)]
pub struct Output {
    text: Text,
}

impl Model for Output {
    ghost use Rattle.std.specs.Prelude.{List, ℕ};

    ghost Value = { List ℕ };

    ghost view = { λ o. o.text };
}

impl Output {
    pub fn new(alloc: Global) -> Self
        ensures { result ≡ [] }
    {
        Output {
            text: Text::make(alloc),
        }
    }

    pub fn into_text(self) -> Text
        ensures { result ≡ self }
    {
        let Output { text } = self;
        text
    }

    // One more word.
    pub fn push_word(&mut self, word: u32) -> Result<(), Memory>
        ensures { OnOk result (self.new ≡ self.old ++ word ∷ []) }
    {
        self.text.add(word)
    }

    pub fn push(&mut self, op: Instr) -> Result<(), Memory>
        requires { Fits op }
        ensures { OnOk result (self.new ≡ self.old ++ codes_of (op ∷ [])) }
    {
        self.text.add(encode(op))
    }

    pub fn push_nothing(&mut self) -> Result<(), Memory>
        ensures { OnOk result (self.new ≡ self.old ++ codes_of nothing) }
    {
        self.push_small(0, 0)
    }

    pub fn push_copy(&mut self, to: u8, from: u8) -> Result<(), Memory>
        requires to { to < 32 }
        requires from { from < 32 }
        ensures { OnOk result (self.new ≡ self.old ++ codes_of (copy to from ∷ [])) }
    {
        self.push(Instr::Immediate {
            op: ImmediateOp::Addi,
            rd: to,
            rs1: from,
            value: 0,
        })
    }

    // A small number into a register.
    pub fn push_small(&mut self, to: u8, number: u32) -> Result<(), Memory>
        requires to { to < 32 }
        requires number { number < 2048 }
        ensures { OnOk result (self.new ≡ self.old ++ codes_of (small to number ∷ [])) }
    {
        self.push(Instr::Immediate {
            op: ImmediateOp::Addi,
            rd: to,
            rs1: 0,
            value: number,
        })
    }

    // Any word into a register, by two instructions.
    pub fn push_long(&mut self, to: u8, word: u32) -> Result<(), Memory>
        requires { to < 32 }
        ensures { OnOk result (self.new ≡ self.old ++ codes_of (long to word)) }
    {
        self.push(Instr::Lui {
            rd: to,
            upper: upper_part(word),
        })?;
        self.push(Instr::Immediate {
            op: ImmediateOp::Addi,
            rd: to,
            rs1: to,
            value: lower_part(word),
        })
    }

    // Any word into a register, by as few instructions as there can be.
    pub fn push_constant(&mut self, to: u8, word: u32) -> Result<(), Memory>
        requires { to < 32 }
        ensures { OnOk result (self.new ≡ self.old ++ codes_of (constant to word)) }
    {
        if word < 2048 {
            self.push_small(to, word)
        } else {
            self.push_long(to, word)
        }
    }

    fn push_far_from(&mut self, base: u8, offset: u32) -> Result<(), Memory>
        requires { base < 32 }
        ensures { OnOk result (self.new ≡ self.old ++ codes_of (far_from base offset)) }
    {
        self.push(Instr::Lui {
            rd: 7,
            upper: upper_part(offset),
        })?;
        self.push(Instr::Register {
            op: RegisterOp::Add,
            rd: 7,
            rs1: 7,
            rs2: base,
        })
    }

    // The word so many bytes behind an address into a register.
    pub fn push_load_by(&mut self, near: bool, to: u8, base: u8, offset: u64) -> Result<(), Memory>
        requires to { to < 32 }
        requires base { base < 32 }
        requires near { IsTrue near → offset < 2048 }
        ensures { OnOk result (self.new ≡ self.old ++ codes_of (load_by near to base offset)) }
    {
        let kind = LoadKind::Word;
        let word = low_word(offset);
        if near {
            return self.push(Instr::Load {
                kind,
                rd: to,
                rs1: base,
                offset: word,
            });
        }
        self.push_far_from(base, word)?;
        self.push(Instr::Load {
            kind,
            rd: to,
            rs1: 7,
            offset: lower_part(word),
        })
    }

    pub fn push_load(&mut self, to: u8, base: u8, offset: u64) -> Result<(), Memory>
        requires to { to < 32 }
        requires base { base < 32 }
        ensures { OnOk result (self.new ≡ self.old ++ codes_of (load_word to base offset)) }
    {
        self.push_load_by(offset < NEAR, to, base, offset)
    }

    // A register to the word so many bytes behind an address.
    pub fn push_store_by(
        &mut self,
        near: bool,
        from: u8,
        base: u8,
        offset: u64,
    ) -> Result<(), Memory>
        requires from { from < 32 }
        requires base { base < 32 }
        requires near { IsTrue near → offset < 2048 }
        ensures { OnOk result (self.new ≡ self.old ++ codes_of (store_by near from base offset)) }
    {
        let kind = StoreKind::Word;
        let word = low_word(offset);
        if near {
            return self.push(Instr::Store {
                kind,
                rs1: base,
                rs2: from,
                offset: word,
            });
        }
        self.push_far_from(base, word)?;
        self.push(Instr::Store {
            kind,
            rs1: 7,
            rs2: from,
            offset: lower_part(word),
        })
    }

    pub fn push_store(&mut self, from: u8, base: u8, offset: u64) -> Result<(), Memory>
        requires from { from < 32 }
        requires base { base < 32 }
        ensures { OnOk result (self.new ≡ self.old ++ codes_of (store_word from base offset)) }
    {
        self.push_store_by(offset < NEAR, from, base, offset)
    }

    // The address so many bytes behind another one into a register.
    pub fn push_address(&mut self, to: u8, base: u8, offset: u32) -> Result<(), Memory>
        requires to { to < 32 }
        requires base { base < 32 }
        ensures { OnOk result (self.new ≡ self.old ++ codes_of (address_word to base offset)) }
    {
        let op = ImmediateOp::Addi;
        if offset < 2048 {
            return self.push(Instr::Immediate {
                op,
                rd: to,
                rs1: base,
                value: offset,
            });
        }
        self.push_far_from(base, offset)?;
        self.push(Instr::Immediate {
            op,
            rd: to,
            rs1: 7,
            value: lower_part(offset),
        })
    }

    pub fn push_go(&mut self, address: u32) -> Result<(), Memory>
        ensures { OnOk result (self.new ≡ self.old ++ codes_of (go_to address)) }
    {
        self.push_jump(0, address)
    }

    // The place behind it comes into register 8.
    pub fn push_call(&mut self, address: u32) -> Result<(), Memory>
        ensures { OnOk result (self.new ≡ self.old ++ codes_of (call_to address)) }
    {
        self.push_jump(8, address)
    }

    fn push_jump(&mut self, link: u8, address: u32) -> Result<(), Memory>
        requires { link < 32 }
        ensures { OnOk result (self.new ≡ self.old ++ codes_of (Instr.Lui 7 (upper address) ∷ (Instr.Jalr link 7 (lower address) ∷ []))) }
    {
        self.push(Instr::Lui {
            rd: 7,
            upper: upper_part(address),
        })?;
        self.push(Instr::Jalr {
            rd: link,
            rs1: 7,
            offset: lower_part(address),
        })
    }

    // Asks for a service by its number.
    pub fn push_ask(&mut self, service: u32) -> Result<(), Memory>
        requires { service < 2048 }
        ensures { OnOk result (self.new ≡ self.old ++ codes_of (ask service)) }
    {
        self.push_small(17, service)?;
        self.push(Instr::Ecall)
    }

    // Stops the program by an exception.
    pub fn push_raising(&mut self, kind: u32, line: u32) -> Result<(), Memory>
        requires { kind < 2048 }
        ensures { OnOk result (self.new ≡ self.old ++ codes_of (raising kind line)) }
    {
        self.push_small(10, kind)?;
        self.push_long(11, line)?;
        self.push_ask(1)
    }
}
