/// Why an instruction does not run.
#[derive(Clone, Copy, PartialEq, Eq, Debug)]
pub enum FaultKind {
    /// The word is no instruction.
    Illegal,
    /// The place of the instruction is outside the text or no multiple of 4.
    Fetch,
    /// A load or store reaches outside the memory that it may use.
    Address,
    /// A half or a word at an address that is no multiple of its size.
    Misaligned,
    /// An EBREAK.
    Break,
    /// An ECALL that asks for no service.
    Service,
}

/// What a program asks of its host by an ECALL. Addresses and lengths are in bytes.
#[derive(Clone, Copy, PartialEq, Eq, Debug)]
pub enum Service {
    /// The program ends.
    End,
    /// The program is stopped by the exception of this number, from 1 to 21, at a line.
    Stop { kind: u32, line: u32 },
    /// Bytes go to the console.
    PutConsole { at: u32, length: u32 },
    /// A byte comes from the console.
    GetConsole,
    /// The file with this name is opened: mode 0 to read it, mode 1 to write it.
    Open { at: u32, length: u32, mode: u32 },
    /// A stream is closed.
    Close { stream: u32 },
    /// Bytes go to a stream.
    PutStream { stream: u32, at: u32, length: u32 },
    /// A byte comes from a stream.
    GetStream { stream: u32 },
    /// How a stream is open: 0 not at all, 1 to be read, 2 to be written.
    State { stream: u32 },
}
