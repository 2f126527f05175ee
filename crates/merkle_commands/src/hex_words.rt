//! Bytes as words of hexadecimal digits.
ghost use Rattle.std.specs.Prelude.{◌≡◌, ◌↔◌, IsTrue, IfOk, IsErrOf, IsOkUnless, Ok};
ghost use Rattle.std.specs.String.{string_bytes};
ghost use Rattle.hex.specs.Hex.{decode_of, encode_lower, is_hex_digit};
ghost use Rattle.merkle_commands.specs.Words.{IsHexWord};

use crate::digits::are_digits;
use merkle_base::error::OutOfMemory;
use std::alloc::Global;

/// Why a word could not be decoded.
#[derive(Clone, Copy, Debug, PartialEq, Eq)]
pub enum HexError {
    /// The word is not an even number of hexadecimal digits.
    Syntax,
    /// A memory request was refused.
    OutOfMemory,
}

/// Whether the word is an even number of hexadecimal digits, of either case. The empty word is.
pub fn is_hex_word(word: &str) -> bool
    ensures { IsTrue result ↔ IsHexWord word.now }
{
    word.len() % 2 == 0 && are_digits(word.as_bytes())
}

/// Decodes the bytes of a word, two digits for each byte. The empty word has no bytes.
///
/// # Errors
///
/// The first that applies:
/// - `Syntax` if the word is not an even number of hexadecimal digits
/// - `OutOfMemory` if a memory request is refused
pub fn read_hex(alloc: Global, word: &str) -> Result<Vec<u8>, HexError>
    ensures value { IfOk result (λ bytes. decode_of word.now ≡ Ok bytes.items) }
    ensures spelled { IsHexWord word.now → IsOkUnless result HexError.OutOfMemory }
    ensures syntax { IsErrOf result HexError.Syntax ↔ ¬ (IsHexWord word.now) }
{
    if !is_hex_word(word) {
        return Err(HexError::Syntax);
    }
    match hex::decode(alloc, word) {
        Ok(bytes) => Ok(bytes),
        Err(_) => Err(HexError::OutOfMemory),
    }
}

/// Encodes bytes in lower case digits, two for each byte. [`read_hex`] reads them back.
///
/// # Errors
///
/// - `OutOfMemory` if a memory request is refused
pub fn write_hex(alloc: Global, bytes: &[u8]) -> Result<String, OutOfMemory>
    ensures digits { IfOk result (λ text. string_bytes text ≡ encode_lower bytes.now) }
    ensures reads_back { IfOk result (λ text. decode_of (string_bytes text) ≡ Ok bytes.now) }
{
    match hex::encode(alloc, bytes) {
        Ok(text) => Ok(text),
        Err(_) => Err(OutOfMemory),
    }
}
