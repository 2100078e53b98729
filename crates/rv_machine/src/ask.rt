// The services that a program asks for.

ghost use Rattle.std.specs.Prelude.{◌≡◌, ◌<◌, ◌+◌, length, [], IfSome};
ghost use Rattle.rv_isa.specs.Step.{asked, asks, lies, lends, accepted};
ghost use Rattle.rv_machine.specs.Lists.{registers_of, cpu_at};
ghost use Rattle.rv_machine.specs.Seen.{seen, AsksBelow, IsLent};

use crate::registers::get;
use crate::stepped::Stepped;
use rv_isa::{FaultKind, Service};
use tu_base::{MOST_LENT_BYTES, TEXT_AT};

// Whether bytes lie between two places.
#[inline]
pub fn is_within(from: u32, to: u32, at: u32, size: u32) -> bool
    ensures { result ≡ lies from to at size }
{
    from <= at && at as u64 + size as u64 <= to as u64
}

#[inline]
fn is_lent(end: u32, at: u32, length: u32) -> bool
    ensures { result ≡ lends (record { text = []; end = end }) at length }
{
    length <= MOST_LENT_BYTES && (length == 0 || is_within(TEXT_AT, end, at, length))
}

#[inline]
fn service_if(holds: bool, service: Service) -> Option<Service>
    ensures { result ≡ accepted holds service }
{
    if holds { Some(service) } else { None }
}

fn service(registers: &[u32; 32], end: u32) -> Option<Service>
    ensures is { result ≡ asked (record { text = []; end = end }) (registers_of registers.now) }
    ensures lent { IfSome result (λ what. IsLent end what) }
{
    let x = get(registers, 10);
    let y = get(registers, 11);
    let z = get(registers, 12);
    match get(registers, 17) {
        0 => Some(Service::End),
        1 => service_if(1 <= x && x <= 21, Service::Stop { kind: x, line: y }),
        2 => service_if(is_lent(end, x, y), Service::PutConsole { at: x, length: y }),
        3 => Some(Service::GetConsole),
        4 => {
            let open = Service::Open {
                at: x,
                length: y,
                mode: z,
            };
            service_if(is_lent(end, x, y) && z <= 1, open)
        }
        5 => Some(Service::Close { stream: x }),
        6 => {
            let put = Service::PutStream {
                stream: x,
                at: y,
                length: z,
            };
            service_if(is_lent(end, y, z), put)
        }
        7 => Some(Service::GetStream { stream: x }),
        8 => Some(Service::State { stream: x }),
        _ => None,
    }
}

// An ECALL.
pub fn ask(registers: &[u32; 32], memory: &[u8], pc: u32) -> Stepped
    requires place { pc + 4 < 4294967296 }
    requires end { TEXT_AT + length memory.now < 4294967296 }
    ensures asks { AsksBelow result pc (TEXT_AT + length memory.now) }
    ensures is { seen result (cpu_at registers.now memory.now pc)
        ≡ asks (cpu_at registers.now memory.now pc) (asked (record { text = []; end = TEXT_AT + length memory.now }) (registers_of registers.now)) }
{
    match service(registers, TEXT_AT + memory.len() as u32) {
        Some(service) => Stepped::Asks(service),
        None => Stepped::Faults(FaultKind::Service),
    }
}
