// The 32 registers.

ghost use Rattle.std.specs.Prelude.{◌≡◌, ◌<◌};
ghost use Rattle.rv_isa.specs.Step.{with_register, with_any};
ghost use Rattle.rv_image.specs.Start.{no_registers};
ghost use Rattle.rv_machine.specs.Lists.{registers_of};

#[tactic(auto, using(crate::proofs::Start::no_registers_are))]
pub fn cleared() -> [u32; 32]
    ensures { registers_of result ≡ no_registers }
{
    [0; 32]
}

#[inline]
#[tactic(auto, unfolding(crate::specs::Lists::registers_of))]
pub fn get(registers: &[u32; 32], register: u8) -> u32
    requires { register < 32 }
    ensures { result ≡ registers_of registers.now register }
{
    registers[register as usize]
}

// Writes a register, register 0 as any other.
#[inline]
#[tactic(auto, unfolding(crate::specs::Lists::registers_of, rv_isa::specs::Step::with_any))]
pub fn put_any(registers: &mut [u32; 32], register: u8, value: u32)
    requires { register < 32 }
    ensures { registers_of registers.new ≡ with_any (registers_of registers.old) register value }
{
    registers[register as usize] = value;
}

// Register 0 stays 0.
#[inline]
pub fn put(registers: &mut [u32; 32], register: u8, value: u32)
    requires { register < 32 }
    ensures { registers_of registers.new ≡ with_register (registers_of registers.old) register value }
{
    if register != 0 {
        put_any(registers, register, value);
    }
}
