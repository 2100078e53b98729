ghost use Rattle.std.specs.Prelude.{◌<◌, ◌↔◌, IsTrue};
ghost use Rattle.rv_isa.specs.Encoding.{IsSigned};

// Whether a word stands for a number from -half to half - 1.
pub fn is_signed(half: u32, value: u32) -> bool
    requires { half < 2147483648 }
    ensures { IsTrue result ↔ IsSigned half value }
{
    value.wrapping_add(half) < 2 * half
}
