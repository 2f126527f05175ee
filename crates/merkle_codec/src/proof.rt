//! Proofs as bytes.
ghost use Rattle.std.specs.Prelude.{◌≡◌, ◌+◌, ◌*◌, ◌^◌, ◌<◌, ◌≤◌, ◌++◌, ℕ, List, IfOk, IfErr, OnOk, OnErr, length, vec_len, vec_capacity};
ghost use Rattle.std.specs.List.{flat_map};
ghost use Rattle.std.specs.Option.{SomeIff};
ghost use Rattle.merkle_codec.specs.NumberSpelling.{number_spelling, IsRefusalFrom};
ghost use Rattle.merkle_base.specs.declared.error.DecodeError.TheVariants.{TooMany};
ghost use Rattle.merkle_codec.specs.NumberLaws.{lawful_locations};
ghost use Rattle.merkle_codec.specs.ProofSpelling.{parts_spelling, proof_spelling, SameProof, IsReadable, IsDigestsRefusal, IsProofReadRefusal};
ghost use Rattle.merkle_codec.specs.ProofLaws.{proof_spelling_once, IsProofReadRefusal_of_spelling, IsProofReadRefusal_once};

use crate::codec::{EncodeSize, Read, Write, read_digest};
use crate::number::{number_size, read_up_to, write_number};
use merkle_base::error::{DecodeError, OutOfMemory};
use merkle_base::family::Family;
use merkle_base::location::Location;
use merkle_digest::digest::Digest;
use merkle_proof::proof::Proof;
use std::alloc::Global;

// Decodes the `count` digests that `bytes` begin with, and returns them with the bytes after them.
fn read_digests<D: Digest>(
    alloc: Global,
    count: usize,
    bytes: &[u8],
) -> Result<(Vec<D>, &[u8]), DecodeError>
    ensures counted { IfOk result (λ p. length p.0.items ≡ count) }
    ensures read { IfOk result (λ p. bytes.now ≡ flat_map D.bytes p.0.items ++ p.1.now) }
    ensures refused { IfErr result (λ e. IsDigestsRefusal D.SIZE D.Spells count bytes.now e) }
{
    if bytes.len() / D::SIZE < count {
        return Err(DecodeError::EndOfBuffer);
    }
    let Ok(mut digests) = Vec::with_capacity(alloc, count) else {
        return Err(DecodeError::OutOfMemory);
    };
    let mut rest = bytes;
    while digests.len() < count {
        let (digest, after) = read_digest(rest)?;
        digests.push_reserved(digest);
        rest = after;
    }
    Ok((digests, rest))
}

/// Decodes a number of digests, at most `max_digests`, and these digests, and returns them with the
/// bytes after them.
///
/// # Errors
///
/// - `EndOfBuffer` or `InvalidVarint` if the bytes do not begin with a number
/// - `TooMany` if the number exceeds `max_digests`
/// - `EndOfBuffer` if fewer bytes follow than that number of digests has
/// - `OutOfMemory` if the memory request for the digests is refused
/// - `Invalid` if the bytes of a digest are not those of any
pub fn read_counted_digests<D: Digest>(
    alloc: Global,
    bytes: &[u8],
    max_digests: usize,
) -> Result<(Vec<D>, &[u8]), DecodeError>
    ensures at_most_max_digests { IfOk result (λ p. length p.0.items ≤ max_digests) }
    ensures read { IfOk result (λ p. bytes.now ≡ number_spelling (length p.0.items) ++ (flat_map D.bytes p.0.items ++ p.1.now)) }
    ensures refused { IfErr result (λ e. IsRefusalFrom max_digests TooMany (IsDigestsRefusal D.SIZE D.Spells) bytes.now e) }
{
    let (count, rest) = read_up_to(bytes, max_digests as u64, DecodeError::TooMany)?;
    match read_digests(alloc, count as usize, rest) {
        Ok((digests, rest)) => Ok((digests, rest)),
        Err(error) => Err(error),
    }
}

// Decodes the proof of at most `max_digests` digests that `bytes` begin with, and returns it with
// the bytes after it.
fn read_proof<F: Family, D: Digest>(
    alloc: Global,
    bytes: &[u8],
    max_digests: usize,
) -> Result<(Proof<F, D>, &[u8]), DecodeError>
    ensures within { IfOk result (λ p. IsReadable F.MAX_LEAVES max_digests p.0) }
    ensures read { IfOk result (λ p. bytes.now ≡ proof_spelling D.bytes p.0 ++ p.1.now) }
    ensures refused { IfErr result (λ e. IsProofReadRefusal D.SIZE D.Spells F.MAX_LEAVES max_digests bytes.now e) }
{
    let (leaves, rest) = read_up_to(bytes, F::MAX_LEAVES, DecodeError::Invalid)?;
    let (inactive, rest) = read_up_to(rest, usize::MAX as u64, DecodeError::Invalid)?;
    match read_counted_digests(alloc, rest, max_digests) {
        Ok((digests, rest)) => {
            let proof = Proof {
                leaves: Location::new(leaves),
                inactive_peaks: inactive as usize,
                digests,
            };
            Ok((proof, rest))
        }
        Err(error) => Err(error),
    }
}

/// Appends the bytes of `digests`.
///
/// # Errors
///
/// - `OutOfMemory` if `out` has no room for them and a memory request is refused; some of them may
///   be appended then
pub fn write_digests<D: Digest>(digests: &[D], out: &mut Vec<u8>) -> Result<(), OutOfMemory>
    ensures ok { OnOk result (out.new.items ≡ out.old.items ++ flat_map D.bytes digests.now) }
    ensures no_room { OnErr result (vec_capacity out.old < vec_len out.old + length digests.now * D.SIZE) }
    ensures capacity { vec_capacity out.old ≤ vec_capacity out.new }
{
    for digest in digests {
        out.extend_from_slice(digest.as_bytes())?;
    }
    Ok(())
}

// Returns the number of bytes of a proof's three numbers.
fn numbers_size<F: Family, D: Digest>(proof: &Proof<F, D>) -> usize
    ensures size { let p = proof.now in
        result ≡ length (number_spelling p.leaves) + length (number_spelling p.inactive_peaks) + length (number_spelling (length p.digests.items)) }
    ensures at_most_30 { result ≤ 30 }
{
    number_size(proof.leaves.as_u64())
        + number_size(proof.inactive_peaks as u64)
        + number_size(proof.digests.len() as u64)
}

// Returns the number of bytes of a proof's encoding, or `None` if it does not fit a `usize`.
fn checked_size<F: Family, D: Digest>(proof: &Proof<F, D>) -> Option<usize>
    ensures { SomeIff result (length (proof_spelling D.bytes proof.now) < 2 ^ 64) (length (proof_spelling D.bytes proof.now)) }
{
    let digests = proof.digests.len().checked_mul(D::SIZE)?;
    digests.checked_add(numbers_size(proof))
}

/// Returns an upper bound of the number of bytes of the encoding of a proof with at most `digests`
/// digests.
///
/// Requires the result to fit a `usize`.
pub fn max_encode_size<D: Digest>(digests: usize) -> usize
    requires { 20 + length (number_spelling digests) + digests * D.SIZE < 2 ^ 64 }
    ensures size { result ≡ 20 + length (number_spelling digests) + digests * D.SIZE }
    ensures greatest { (leaves inactive : ℕ) (ds : List D) → length ds ≤ digests → length (parts_spelling D.bytes leaves inactive ds) ≤ result }
{
    20 + number_size(digests as u64) + digests * D::SIZE
}

/// The encoding is the leaf count, the number of inactive peaks and the number of digests, each as
/// a number, and then the bytes of the digests.
impl<F: Family, D: Digest> EncodeSize for Proof<F, D> {
    ghost spelling = { proof_spelling D.bytes };

    ghost same = { SameProof };

    fn encode_size(&self) -> usize {
        numbers_size(self) + self.digests.len() * D::SIZE
    }

    ghost one_spelling = { λ p q r s e. proof_spelling_once D.bytes D.SIZE (λ x. D.one_length (D.bytes x) (D.bytes_spell x)) D.bytes_decide p q r s e };
}

impl<F: Family, D: Digest> Write for Proof<F, D> {
    /// Appends the encoding to `out`. Room for all of it is reserved first.
    ///
    /// # Errors
    ///
    /// - `OutOfMemory` if `out` has no room for the encoding and gets none, because a memory
    ///   request is refused or the encoding does not fit a `usize`
    ///
    /// The contents of `out` are unchanged on error.
    fn write(&self, out: &mut Vec<u8>) -> Result<(), OutOfMemory> {
        let Some(size) = checked_size(self) else {
            return Err(OutOfMemory);
        };
        out.reserve(size)?;
        write_number(self.leaves.as_u64(), out)?;
        write_number(self.inactive_peaks as u64, out)?;
        write_number(self.digests.len() as u64, out)?;
        write_digests(&self.digests, out)?;
        Ok(())
    }
}

impl<F: Family, D: Digest> Read for Proof<F, D> {
    type Cfg = usize;

    ghost spelled_by = { proof_spelling D.bytes };

    ghost within = { λ limit p. IsReadable F.MAX_LEAVES limit p };

    ghost refuses = { λ limit b e. IsProofReadRefusal D.SIZE D.Spells F.MAX_LEAVES limit b e };

    /// Decodes the proof of at most `max_digests` digests whose encoding `input` begins with, and
    /// advances `input` past it.
    ///
    /// Every proof that was written is read back if its leaf count is at most
    /// [`MAX_LEAVES`](Family::MAX_LEAVES) and it has at most `max_digests` digests, unless memory
    /// is refused.
    ///
    /// # Errors
    ///
    /// - `EndOfBuffer` or `InvalidVarint` if `input` does not begin with a number, the leaf count
    /// - `Invalid` if the leaf count exceeds [`MAX_LEAVES`](Family::MAX_LEAVES)
    /// - `EndOfBuffer` or `InvalidVarint` if no number follows, the number of inactive peaks
    /// - `Invalid` if the number of inactive peaks does not fit a `usize`
    /// - `EndOfBuffer` or `InvalidVarint` if no number follows, the number of digests
    /// - `TooMany` if the number of digests exceeds `max_digests`
    /// - `EndOfBuffer` if fewer bytes follow than that number of digests has
    /// - `OutOfMemory` if the memory request for the digests is refused
    /// - `Invalid` if the bytes of a digest are not those of any
    ///
    /// `input` is unchanged on error.
    fn read(alloc: Global, input: &mut &[u8], max_digests: &usize) -> Result<Self, DecodeError>
        ensures ok { IfOk result (λ p. IsReadable F.MAX_LEAVES max_digests.now p × (input.old.now ≡ proof_spelling D.bytes p ++ input.new.now)) }
        ensures refused { IfErr result (λ e. IsProofReadRefusal D.SIZE D.Spells F.MAX_LEAVES max_digests.now input.old.now e) }
        ensures unchanged { OnErr result (input.new.now ≡ input.old.now) }
        ensures written { (p : _) (rest : List ℕ) → IsReadable F.MAX_LEAVES max_digests.now p → input.old.now ≡ proof_spelling D.bytes p ++ rest
            → IfOk result (λ q. SameProof q p × (input.new.now ≡ rest)) × IfErr result (λ e. e ≡ DecodeError.OutOfMemory) }
    {
        match read_proof(alloc, *input, *max_digests) {
            Ok((proof, rest)) => {
                *input = rest;
                Ok(proof)
            }
            Err(error) => Err(error),
        }
    }

    ghost refused_spells_none = { λ limit b e h memory p rest within k.
        memory (IsProofReadRefusal_of_spelling D.bytes D.SIZE (λ x. D.one_length (D.bytes x) (D.bytes_spell x)) D.Spells D.bytes_spell
        F.MAX_LEAVES limit (lawful_locations F.rule F.MAX_LEAVES F.MAX_NODES F.lawful) b e h p rest within k) };

    ghost one_refusal = { λ limit b e f h k x y. IsProofReadRefusal_once D.SIZE D.Spells F.MAX_LEAVES limit b e f h k x y };
}
