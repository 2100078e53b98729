// What one instruction does.

ghost use Rattle.std.specs.Prelude.{◌≡◌, ◌<◌, ◌≤◌, ◌+◌, ◌*◌, ◌%◌, ◌/◌, ◌^◌, length, [], if◌then◌else◌};
ghost use Rattle.rv_isa.specs.Encoding.{Fits};
ghost use Rattle.rv_isa.specs.Arithmetic.{immediate_value, shift_value, register_value, holds};
ghost use Rattle.rv_isa.specs.Step.{with_register, loads_at, stores_at, execute};
ghost use Rattle.rv_machine.specs.Lists.{registers_of, cpu_at, space_at};
ghost use Rattle.rv_machine.specs.Seen.{seen, AsksBelow};

use crate::arithmetic::{compared, of_immediate, of_registers, shifted};
use crate::ask::{ask, is_within};
use crate::memory::{load, load_size, store, store_size};
use crate::registers::{get, put};
use crate::stepped::Stepped;
use rv_isa::{FaultKind, ImmediateOp, Instr, LoadKind, RegisterOp, Relation, ShiftOp, StoreKind};
use tu_base::TEXT_AT;

// The sum of a register and an offset.
#[inline(always)]
fn place(registers: &[u32; 32], rs1: u8, offset: u32) -> u32
    requires { rs1 < 32 }
    ensures { result ≡ (registers_of registers.now rs1 + offset) % 2 ^ 32 }
{
    get(registers, rs1).wrapping_add(offset)
}

// On at a place, with a value in a register.
#[inline(always)]
fn goes(rd: u8, value: u32, to: u32, registers: &mut [u32; 32]) -> Stepped
    requires { rd < 32 }
    ensures to { result ≡ Stepped.To to }
    ensures put { registers_of registers.new ≡ with_register (registers_of registers.old) rd value }
{
    put(registers, rd, value);
    Stepped::To(to)
}

#[inline(always)]
fn immediate(
    op: ImmediateOp,
    rd: u8,
    rs1: u8,
    value: u32,
    pc: u32,
    registers: &mut [u32; 32],
) -> Stepped
    requires rd { rd < 32 }
    requires rs1 { rs1 < 32 }
    requires place { pc + 4 < 4294967296 }
    ensures to { result ≡ Stepped.To (pc + 4) }
    ensures put { registers_of registers.new ≡ with_register (registers_of registers.old) rd (immediate_value op (registers_of registers.old rs1) value) }
{
    let result = of_immediate(op, get(registers, rs1), value);
    goes(rd, result, pc + 4, registers)
}

#[inline(always)]
fn shift(op: ShiftOp, rd: u8, rs1: u8, amount: u8, pc: u32, registers: &mut [u32; 32]) -> Stepped
    requires rd { rd < 32 }
    requires rs1 { rs1 < 32 }
    requires amount { amount < 32 }
    requires place { pc + 4 < 4294967296 }
    ensures to { result ≡ Stepped.To (pc + 4) }
    ensures put { registers_of registers.new ≡ with_register (registers_of registers.old) rd (shift_value op (registers_of registers.old rs1) amount) }
{
    let result = shifted(op, get(registers, rs1), amount);
    goes(rd, result, pc + 4, registers)
}

#[inline(always)]
fn register(op: RegisterOp, rd: u8, rs1: u8, rs2: u8, pc: u32, registers: &mut [u32; 32]) -> Stepped
    requires rd { rd < 32 }
    requires rs1 { rs1 < 32 }
    requires rs2 { rs2 < 32 }
    requires place { pc + 4 < 4294967296 }
    ensures to { result ≡ Stepped.To (pc + 4) }
    ensures put { registers_of registers.new
        ≡ with_register (registers_of registers.old) rd (register_value op (registers_of registers.old rs1) (registers_of registers.old rs2)) }
{
    let result = of_registers(op, get(registers, rs1), get(registers, rs2));
    goes(rd, result, pc + 4, registers)
}

// To the sum of a register and an offset, without its lowest bit.
#[inline(always)]
fn jump(rd: u8, rs1: u8, offset: u32, pc: u32, registers: &mut [u32; 32]) -> Stepped
    requires rd { rd < 32 }
    requires rs1 { rs1 < 32 }
    requires place { pc + 4 < 4294967296 }
    ensures to { result ≡ Stepped.To ((registers_of registers.old rs1 + offset) % 2 ^ 32 / 2 * 2) }
    ensures put { registers_of registers.new ≡ with_register (registers_of registers.old) rd (pc + 4) }
{
    let to = place(registers, rs1, offset) / 2 * 2;
    goes(rd, pc + 4, to, registers)
}

#[inline(always)]
fn branch(
    relation: Relation,
    rs1: u8,
    rs2: u8,
    offset: u32,
    pc: u32,
    registers: &[u32; 32],
) -> Stepped
    requires rs1 { rs1 < 32 }
    requires rs2 { rs2 < 32 }
    requires place { pc + 4 < 4294967296 }
    ensures { result
        ≡ Stepped.To (if holds relation (registers_of registers.now rs1) (registers_of registers.now rs2) then (pc + offset) % 2 ^ 32 else pc + 4) }
{
    if compared(relation, get(registers, rs1), get(registers, rs2)) {
        Stepped::To(pc.wrapping_add(offset))
    } else {
        Stepped::To(pc + 4)
    }
}

#[inline(always)]
fn load_from(
    kind: LoadKind,
    rd: u8,
    rs1: u8,
    offset: u32,
    memory: &[u8],
    pc: u32,
    registers: &mut [u32; 32],
) -> Stepped
    requires rd { rd < 32 }
    requires rs1 { rs1 < 32 }
    requires place { pc + 4 < 4294967296 }
    requires end { TEXT_AT + length memory.now < 4294967296 }
    ensures asks { AsksBelow result pc (TEXT_AT + length memory.now) }
    ensures is { seen result (cpu_at registers.new memory.now pc)
        ≡ loads_at (record { text = []; end = TEXT_AT + length memory.now }) (cpu_at registers.old memory.now pc) kind rd
        ((registers_of registers.old rs1 + offset) % 2 ^ 32) }
{
    let at = place(registers, rs1, offset);
    let size = load_size(kind);
    if at % size != 0 {
        return Stepped::Faults(FaultKind::Misaligned);
    }
    if !is_within(TEXT_AT, TEXT_AT + memory.len() as u32, at, size) {
        return Stepped::Faults(FaultKind::Address);
    }
    goes(rd, load(kind, memory, at), pc + 4, registers)
}

// A store of the register rs2.
#[inline(always)]
#[tactic(auto, using(crate::proofs::Texts::length_words))]
fn store_to(
    kind: StoreKind,
    at: u32,
    rs2: u8,
    registers: &[u32; 32],
    words: u32,
    memory: &mut [u8],
    pc: u32,
) -> Stepped
    requires rs2 { rs2 < 32 }
    requires place { pc + 4 < 4294967296 }
    requires text { 4 * words ≤ length memory.old }
    requires end { TEXT_AT + length memory.old < 4294967296 }
    ensures asks { AsksBelow result pc (TEXT_AT + length memory.old) }
    ensures is { seen result (cpu_at registers.now memory.new pc)
        ≡ stores_at (space_at words memory.old) (cpu_at registers.now memory.old pc) kind at (registers_of registers.now rs2) }
{
    let size = store_size(kind);
    if at % size != 0 {
        return Stepped::Faults(FaultKind::Misaligned);
    }
    if !is_within(TEXT_AT + 4 * words, TEXT_AT + memory.len() as u32, at, size) {
        return Stepped::Faults(FaultKind::Address);
    }
    store(kind, memory, at, get(registers, rs2));
    Stepped::To(pc + 4)
}

// Runs an instruction that stands at pc.
#[inline(always)]
pub fn run_one(
    op: Instr,
    registers: &mut [u32; 32],
    words: u32,
    memory: &mut [u8],
    pc: u32,
) -> Stepped
    requires fits { Fits op }
    requires place { pc + 4 < 4294967296 }
    requires text { 4 * words ≤ length memory.old }
    requires end { TEXT_AT + length memory.old < 4294967296 }
    ensures asks { AsksBelow result pc (TEXT_AT + length memory.old) }
    ensures is { seen result (cpu_at registers.new memory.new pc)
        ≡ execute (space_at words memory.old) op (cpu_at registers.old memory.old pc) }
{
    match op {
        Instr::Lui { rd, upper } => goes(rd, upper, pc + 4, registers),
        Instr::Auipc { rd, upper } => goes(rd, pc.wrapping_add(upper), pc + 4, registers),
        Instr::Jal { rd, offset } => goes(rd, pc + 4, pc.wrapping_add(offset), registers),
        Instr::Jalr { rd, rs1, offset } => jump(rd, rs1, offset, pc, registers),
        Instr::Branch {
            relation,
            rs1,
            rs2,
            offset,
        } => branch(relation, rs1, rs2, offset, pc, registers),
        Instr::Load {
            kind,
            rd,
            rs1,
            offset,
        } => load_from(kind, rd, rs1, offset, memory, pc, registers),
        Instr::Store {
            kind,
            rs1,
            rs2,
            offset,
        } => {
            let at = place(registers, rs1, offset);
            store_to(kind, at, rs2, registers, words, memory, pc)
        }
        Instr::Immediate { op, rd, rs1, value } => immediate(op, rd, rs1, value, pc, registers),
        Instr::Shift {
            op,
            rd,
            rs1,
            amount,
        } => shift(op, rd, rs1, amount, pc, registers),
        Instr::Register { op, rd, rs1, rs2 } => register(op, rd, rs1, rs2, pc, registers),
        Instr::Fence { .. } => Stepped::To(pc + 4),
        Instr::Ecall => ask(registers, memory, pc),
        Instr::Ebreak => Stepped::Faults(FaultKind::Break),
    }
}
