//! Bytes that a field spells.

ghost use Rattle.std.specs.Prelude.{◌≡◌, length, is_some, IsTrue};
ghost use Rattle.std.specs.List.{list_all};
ghost use Rattle.std.specs.Option.{option_map};
ghost use Rattle.hex.specs.Hex.{is_hex_digit};
ghost use Rattle.tp_requests.specs.Fields.{hex_bytes};

/// The bytes that a field spells in hexadecimal, as the digits are in the line.
#[derive(Drop)]
pub struct Spelled<'a> {
    digits: &'a [u8],
    ghost spells: { IsTrue (is_some (hex_bytes digits.now)) },
}

fn is_digit(byte: u8) -> bool
    ensures { result ≡ is_hex_digit byte }
{
    byte.is_ascii_hexdigit()
}

fn are_digits(field: &[u8]) -> bool
    ensures { result ≡ list_all is_hex_digit field.now }
{
    field.iter().all(|byte| is_digit(*byte))
}

impl<'a> Spelled<'a> {
    ghost use Rattle.tp_requests.specs.Spelling.{bytes_spelled};

    /// The bytes that a field spells, if it does.
    pub(crate) fn of(field: &'a [u8]) -> Option<Spelled<'a>>
        ensures { option_map bytes_spelled result ≡ hex_bytes field.now }
    {
        if field.is_empty() || field.len() % 2 == 1 || !are_digits(field) {
            return None;
        }
        Some(Spelled { digits: field })
    }

    /// How many bytes are spelled.
    pub fn count(&self) -> usize
        ensures { result ≡ length (bytes_spelled self.now) }
    {
        self.digits.len() / 2
    }

    /// Writes the bytes over as many.
    pub fn decode_into(&self, bytes: &mut [u8])
        requires { length bytes.old ≡ length (bytes_spelled self.now) }
        ensures { bytes.new ≡ bytes_spelled self.now }
    {
        match hex::decode_to_slice(self.digits, bytes) {
            Ok(()) => (),
            Err(_) => unreachable!(),
        }
    }
}
