ghost use Rattle.std.specs.Prelude.{◌≡◌};
ghost use Rattle.std.specs.List.{list_all};
ghost use Rattle.rv_image.specs.Streams.{is_name_byte as is_byte_of_name, begins_well as is_well_begun, is_file_name as is_name_of_file};

// The bytes of the longest name.
const MOST: usize = 64;

// Whether a file may have this name.
pub fn is_file_name(name: &[u8]) -> bool
    ensures { result ≡ is_name_of_file name.now }
{
    begins_well(name) && name.len() <= MOST && has_name_bytes(name)
}

// No file is hidden, and no name is taken for an option of a command.
fn begins_well(name: &[u8]) -> bool
    ensures { result ≡ is_well_begun name.now }
{
    match name {
        [] => false,
        [first, ..] => *first != b'.' && *first != b'-',
    }
}

fn has_name_bytes(name: &[u8]) -> bool
    ensures { result ≡ list_all is_byte_of_name name.now }
{
    name.iter().all(|byte| is_name_byte(*byte))
}

fn is_name_byte(byte: u8) -> bool
    ensures { result ≡ is_byte_of_name byte }
{
    byte.is_ascii_alphanumeric() || byte == b'.' || byte == b'_' || byte == b'-'
}
