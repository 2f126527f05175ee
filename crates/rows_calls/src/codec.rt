//! Calls that encode and decode.

use crate::values::{config, digest, proof};
use crate::writing::{self, write_encoding};
use merkle_commands::hex_words::{HexError, read_hex, write_hex};
use merkle_core::codec::Read;
use merkle_core::digest::Digest;
use merkle_core::error::DecodeError;
use merkle_core::family::Family;
use merkle_core::location::Location;
use merkle_core::mem::{Config, ConfigLimits};
use merkle_core::position::Position;
use merkle_core::proof::Proof;
use rows_text::answer::Answer;
use rows_text::refusal::{CHANGED, OUT_OF_MEMORY, Refusal, SYNTAX};
use rows_text::words::Words;

// What is written for bytes that are not decoded.
fn undecoded(error: &DecodeError) -> Refusal {
    match error {
        DecodeError::EndOfBuffer => Refusal::Plain("EndOfBuffer"),
        DecodeError::InvalidVarint => Refusal::Plain("InvalidVarint"),
        DecodeError::Invalid => Refusal::Plain("Invalid"),
        DecodeError::TooMany => Refusal::Plain("TooMany"),
        DecodeError::OutOfMemory => OUT_OF_MEMORY,
    }
}

/// A proof's encoding, appended to the byte 77.
pub fn write_proof<F: Family, D: Digest>(
    words: &mut Words,
    answer: &mut Answer,
) -> Result<(), Refusal> {
    let proof: Proof<F, D> = proof(words);
    words.end()?;
    write_encoding(words.alloc(), &proof, answer)
}

/// A position's encoding, appended to the byte 77.
pub fn write_position<F: Family>(words: &mut Words, answer: &mut Answer) -> Result<(), Refusal> {
    let position = Position::<F>::new(words.number());
    words.end()?;
    write_encoding(words.alloc(), &position, answer)
}

/// A location's encoding, appended to the byte 77.
pub fn write_location<F: Family>(words: &mut Words, answer: &mut Answer) -> Result<(), Refusal> {
    let location = Location::<F>::new(words.number());
    words.end()?;
    write_encoding(words.alloc(), &location, answer)
}

/// The encoding of a pending chunk's digest, appended to the byte 77.
pub fn write_chunk<D: Digest>(words: &mut Words, answer: &mut Answer) -> Result<(), Refusal> {
    let chunk: D = digest(words);
    words.end()?;
    write_encoding(words.alloc(), &Some(chunk), answer)
}

// Writes the bytes after an encoding.
fn write_rest(answer: &mut Answer, rest: &[u8]) {
    answer.text(" rest ");
    if rest.is_empty() {
        answer.text("-");
    } else {
        answer.bytes(rest);
    }
}

/// The proof of at most so many digests that bytes begin with, and the bytes after it.
pub fn read_proof<F: Family, D: Digest>(
    words: &mut Words,
    answer: &mut Answer,
) -> Result<(), Refusal> {
    let most = words.count();
    let bytes = words.bytes();
    words.end()?;
    let mut input = bytes.as_slice();
    match Proof::<F, D>::read(words.alloc(), &mut input, &most) {
        Ok(proof) => {
            writing::write_proof(answer, &proof);
            write_rest(answer, input);
            Ok(())
        }
        Err(_) if input.len() != bytes.len() => Err(CHANGED),
        Err(error) => Err(undecoded(&error)),
    }
}

/// The encoding of the components of a structure, appended to the byte 77.
pub fn write_config<F: Family, D: Digest>(
    words: &mut Words,
    answer: &mut Answer,
) -> Result<(), Refusal> {
    let config: Config<F, D> = config(words);
    words.end()?;
    write_encoding(words.alloc(), &config, answer)
}

/// The components within two limits that bytes begin with, and the bytes after them.
pub fn read_config<F: Family, D: Digest>(
    words: &mut Words,
    answer: &mut Answer,
) -> Result<(), Refusal> {
    let limits = ConfigLimits {
        nodes: words.count(),
        pinned_nodes: words.count(),
    };
    let bytes = words.bytes();
    words.end()?;
    let mut input = bytes.as_slice();
    match Config::<F, D>::read(words.alloc(), &mut input, &limits) {
        Ok(config) => {
            writing::write_config(answer, &config);
            write_rest(answer, input);
            Ok(())
        }
        Err(_) if input.len() != bytes.len() => Err(CHANGED),
        Err(error) => Err(undecoded(&error)),
    }
}

/// A copy of a proof.
pub fn copy_proof<F: Family, D: Digest>(
    words: &mut Words,
    answer: &mut Answer,
) -> Result<(), Refusal> {
    let proof: Proof<F, D> = proof(words);
    words.end()?;
    let copy = proof.clone()?;
    writing::write_proof(answer, &copy);
    Ok(())
}

/// The bytes that a word of the program `merkle` spells.
pub fn decode(words: &mut Words, answer: &mut Answer) -> Result<(), Refusal> {
    let word = words.word();
    match read_hex(words.alloc(), word) {
        Ok(bytes) => {
            answer.bytes(&bytes);
            Ok(())
        }
        Err(HexError::Syntax) => Err(SYNTAX),
        Err(HexError::OutOfMemory) => Err(OUT_OF_MEMORY),
    }
}

/// The word that the program `merkle` writes for bytes.
pub fn encode(words: &mut Words, answer: &mut Answer) -> Result<(), Refusal> {
    let bytes = words.bytes();
    words.end()?;
    match write_hex(words.alloc(), &bytes) {
        Ok(word) => {
            answer.text(word.as_str());
            Ok(())
        }
        Err(_) => Err(OUT_OF_MEMORY),
    }
}
