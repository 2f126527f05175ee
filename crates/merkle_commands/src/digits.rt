//! Hexadecimal digits, tested without a branch for each, since whether a digit is a letter cannot be predicted.
ghost use Rattle.std.specs.Prelude.{◌≡◌};
ghost use Rattle.std.specs.List.{list_all};
ghost use Rattle.hex.specs.Hex.{is_hex_digit};

/// How many bytes are tested at once.
const CHUNK: usize = 64;

// Whether a byte is a digit, of either case.
fn is_digit(byte: u8) -> bool
    ensures { result ≡ is_hex_digit byte }
{
    (b'0' <= byte) & (byte <= b'9')
        | (b'A' <= byte) & (byte <= b'F')
        | (b'a' <= byte) & (byte <= b'f')
}

// Whether all bytes are digits. It reads all of them, whatever it meets.
fn are_all_digits(bytes: &[u8]) -> bool
    ensures { result ≡ list_all is_hex_digit bytes.now }
{
    let mut all = true;
    for byte in bytes {
        all &= is_digit(*byte);
    }
    all
}

/// Whether all bytes are digits, of either case. It stops after the chunk of the first byte that is none.
pub(crate) fn are_digits(bytes: &[u8]) -> bool
    ensures { result ≡ list_all is_hex_digit bytes.now }
{
    let mut rest = bytes;
    while !rest.is_empty() {
        let (chunk, after) = rest.split_at(rest.len().min(CHUNK));
        if !are_all_digits(chunk) {
            return false;
        }
        rest = after;
    }
    true
}
