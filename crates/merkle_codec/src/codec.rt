//! Encoding values as bytes and decoding them.
//!
//! A number is encoded as an unsigned LEB128 varint in its shortest form: groups of seven bits, the
//! least significant first, and the high bit of a byte set if another byte follows.
//!
//! # Examples
//!
//! ```
//! let mut bytes = Vec::new(alloc);
//! let Ok(()) = proof.write(&mut bytes) else {
//!     return None;
//! };
//! // 3 leaves, 0 inactive peaks, and 2 digests of one byte: 07 and 03.
//! assert!(rt; bytes.as_slice() == [3, 0, 2, 7, 3].as_slice());
//!
//! let mut input = bytes.as_slice();
//! let Ok(decoded) = Proof::<mmr::Family, Xor8Digest>::read(alloc, &mut input, &2) else {
//!     return None;
//! };
//! assert!(rt; decoded == proof && input.is_empty());
//! ```
ghost use Rattle.std.specs.Prelude.{◌≡◌, ◌≢◌, ◌+◌, ◌^◌, ◌<◌, ◌++◌, ℕ, List, IfOk, IfErr, OnOk, OnErr, length, vec_len, vec_capacity, ⊤};
ghost use Rattle.merkle_codec.specs.Spelling.{option_spelling, IsDigestRefusal, IsOptionRefusal};
ghost use Rattle.merkle_codec.specs.SpellingLaws.{option_spelling_once, IsOptionRefusal_spells_none, IsOptionRefusal_once};

pub use crate::proof::max_encode_size;
use merkle_base::error::{DecodeError, OutOfMemory};
use merkle_digest::digest::Digest;
use std::alloc::Global;

/// A value with an encoding as bytes, which the contracts call its `spelling`.
///
/// A value has exactly one encoding, and no encoding is a prefix of that of a different value.
pub trait EncodeSize {
    // the bytes of the encoding
    ghost spelling: { Self → List ℕ };

    // equality of values, wherever they lie in memory
    ghost same: { Self → Self → Type 0 };

    /// Returns the number of bytes of the encoding.
    ///
    /// Requires that number to fit a `usize`.
    fn encode_size(&self) -> usize
        requires { length (spelling self.now) < 2 ^ 64 }
        ensures { result ≡ length (spelling self.now) };

    ghost one_spelling: { (x y : Self) (r s : List ℕ) → spelling x ++ r ≡ spelling y ++ s → same x y × (r ≡ s) };
}

/// A value that can be encoded.
pub trait Write: EncodeSize {
    /// Appends the encoding to `out`.
    ///
    /// # Errors
    ///
    /// - `OutOfMemory` if `out` has no room for the encoding and gets none, because a memory
    ///   request is refused or the encoding does not fit a `usize`
    ///
    /// The contents of `out` are unchanged on error.
    fn write(&self, out: &mut Vec<u8>) -> Result<(), OutOfMemory>
        ensures ok { OnOk result (out.new.items ≡ out.old.items ++ Self.spelling self.now) }
        ensures err { OnErr result (out.new.items ≡ out.old.items) }
        ensures no_room { OnErr result (vec_capacity out.old < vec_len out.old + length (Self.spelling self.now)) };
}

/// A value that can be decoded from the front of a byte slice.
///
/// An implementation states which values are `within` a limit, and which bytes it `refuses` with
/// which error. The laws of this trait say that bytes that are refused encode no value within the
/// limit. They also hold for an implementation that refuses everything: they say nothing if no
/// value is within the limit, or if the error is `OutOfMemory`. So every type without a limit has
/// all values within, and every type that requests no memory never returns `OutOfMemory`.
pub trait Read: Sized {
    ghost use Rattle.merkle_base.specs.declared.error.DecodeError.{DecodeError};

    /// Limits the values that are decoded; `()` for a type without a limit.
    type Cfg;

    // the bytes of the encoding
    ghost spelled_by: { Self → List ℕ };

    // the values that are decoded under a limit
    ghost within: { Self.Cfg → Self → Type 0 };

    // the error that is returned, by limit and bytes
    ghost refuses: { Self.Cfg → List ℕ → DecodeError → Type 0 };

    /// Decodes the value whose encoding `input` begins with, and advances `input` past it.
    ///
    /// # Errors
    ///
    /// - the error that the type documents, if `input` begins with no encoding of a value within
    ///   the limit
    /// - `OutOfMemory` if a memory request is refused
    ///
    /// `input` is unchanged on error.
    fn read(alloc: Global, input: &mut &[u8], cfg: &Self::Cfg) -> Result<Self, DecodeError>
        ensures ok { IfOk result (λ x. within cfg.now x × (input.old.now ≡ spelled_by x ++ input.new.now)) }
        ensures refused { IfErr result (λ e. refuses cfg.now input.old.now e) }
        ensures unchanged { OnErr result (input.new.now ≡ input.old.now) };

    ghost refused_spells_none: { (cfg : Self.Cfg) (b : List ℕ) (e : DecodeError) → refuses cfg b e → e ≢ DecodeError.OutOfMemory
        → (x : Self) (rest : List ℕ) → within cfg x → ¬ b ≡ spelled_by x ++ rest };

    ghost one_refusal: { (cfg : Self.Cfg) (b : List ℕ) (e f : DecodeError) → refuses cfg b e → refuses cfg b f
        → e ≢ DecodeError.OutOfMemory → f ≢ DecodeError.OutOfMemory → e ≡ f };
}

// Decodes the digest that `bytes` begin with, and returns it with the bytes after it.
//
// `EndOfBuffer` if there are fewer than [`SIZE`](Digest::SIZE) bytes, `Invalid` if the first of
// them are not those of any digest.
pub(crate) fn read_digest<D: Digest>(bytes: &[u8]) -> Result<(D, &[u8]), DecodeError>
    ensures ok { IfOk result (λ p. bytes.now ≡ D.bytes p.0 ++ p.1.now) }
    ensures refused { IfErr result (λ e. IsDigestRefusal D.SIZE D.Spells bytes.now e) }
{
    let Some((spelling, rest)) = bytes.split_at_checked(D::SIZE) else {
        return Err(DecodeError::EndOfBuffer);
    };
    match D::from_bytes(spelling) {
        Some(digest) => Ok((digest, rest)),
        None => Err(DecodeError::Invalid),
    }
}

/// The encoding is the byte `00` for `None`, and `01` and the bytes of the digest for `Some`.
impl<D: Digest> EncodeSize for Option<D> {
    ghost spelling = { option_spelling D.bytes };

    ghost same = { ◌≡◌ };

    fn encode_size(&self) -> usize {
        match self {
            Some(digest) => 1 + digest.as_bytes().len(),
            None => 1,
        }
    }

    ghost one_spelling = { option_spelling_once D.bytes D.SIZE (λ x. D.one_length (D.bytes x) (D.bytes_spell x)) D.bytes_decide };
}

impl<D: Digest> Write for Option<D> {
    fn write(&self, out: &mut Vec<u8>) -> Result<(), OutOfMemory> {
        let (first, bytes): (u8, &[u8]) = match self {
            Some(digest) => (1, digest.as_bytes()),
            None => (0, &[]),
        };
        out.reserve(1 + bytes.len())?;
        out.push_reserved(first);
        out.extend_from_slice(bytes)?;
        Ok(())
    }
}

impl<D: Digest> Read for Option<D> {
    type Cfg = ();

    ghost spelled_by = { option_spelling D.bytes };

    ghost within = { λ _ _. ⊤ };

    ghost refuses = { λ _ b e. IsOptionRefusal D.SIZE D.Spells b e };

    /// Decodes the optional digest whose encoding `input` begins with, and advances `input` past
    /// it.
    ///
    /// # Errors
    ///
    /// - `EndOfBuffer` if `input` is empty
    /// - `Invalid` if the first byte is neither `00` nor `01`
    /// - `EndOfBuffer` if the first byte is `01` and fewer than [`SIZE`](Digest::SIZE) bytes follow
    /// - `Invalid` if the bytes that follow are not those of any digest
    ///
    /// `input` is unchanged on error. No memory is requested.
    fn read(_alloc: Global, input: &mut &[u8], _cfg: &()) -> Result<Self, DecodeError> {
        let Some((first, rest)) = input.split_first() else {
            return Err(DecodeError::EndOfBuffer);
        };
        match *first {
            0 => {
                *input = rest;
                Ok(None)
            }
            1 => {
                let (digest, rest) = read_digest(rest)?;
                *input = rest;
                Ok(Some(digest))
            }
            _ => Err(DecodeError::Invalid),
        }
    }

    ghost refused_spells_none = { λ _ b e h _ x rest _. IsOptionRefusal_spells_none D.bytes D.SIZE D.Spells D.bytes_spell D.one_length b e h x rest };

    ghost one_refusal = { λ _ b e f h k _ _. IsOptionRefusal_once D.SIZE D.Spells b e f h k };
}
