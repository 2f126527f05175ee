//! Numbers as bytes, and so positions and locations.
ghost use Rattle.std.specs.Prelude.{◌≡◌, ◌+◌, ◌-◌, ◌*◌, ◌^◌, ◌<◌, ◌≤◌, ◌++◌, ℕ, List, IfOk, IfErr, OnOk, OnErr, Ok, length, take, vec_len, vec_capacity};
ghost use Rattle.merkle_codec.specs.NumberSpelling.{number_groups, number_spelling, IsGroupRefusal, IsNumberRefusal, IsRefusalUpTo};
ghost use Rattle.merkle_codec.specs.NumberLaws.{number_spelling_once, IsRefusalUpTo_spells_none, IsRefusalUpTo_once, lawful_nodes, lawful_locations};
ghost use Rattle.merkle_base.specs.declared.error.DecodeError.TheVariants.{Invalid};

use crate::codec::{EncodeSize, Read, Write};
use merkle_base::error::{DecodeError, OutOfMemory};
use merkle_base::family::Family;
use merkle_base::location::Location;
use merkle_base::position::Position;
use std::alloc::Global;

// Decodes a number from its group `before` on, and returns it with the bytes after it.
fn read_groups(bytes: &[u8], before: u32) -> Result<(u64, &[u8]), DecodeError>
    requires { before ≤ 9 }
    ensures fits { IfOk result (λ p. p.0 < 2 ^ (64 - 7 * before)) }
    ensures nonzero { IfOk result (λ p. 1 ≤ before → 1 ≤ p.0) }
    ensures read { IfOk result (λ p. bytes.now ≡ number_groups (9 - before) p.0 ++ p.1.now) }
    ensures refused { IfErr result (λ e. IsGroupRefusal before bytes.now e) }
{
    let Some((group, rest)) = bytes.split_first() else {
        return Err(DecodeError::EndOfBuffer);
    };
    let group = *group;
    if before == 9 && group != 1 {
        return Err(DecodeError::InvalidVarint);
    }
    if before > 0 && group == 0 {
        return Err(DecodeError::InvalidVarint);
    }
    if group < 128 {
        return Ok((group as u64, rest));
    }
    match read_groups(rest, before + 1) {
        Ok((high, rest)) => Ok(((group - 128) as u64 + 128 * high, rest)),
        Err(error) => Err(error),
    }
}

/// Decodes the number that `bytes` begin with, and returns it with the bytes after it.
///
/// # Errors
///
/// - `EndOfBuffer` if the bytes end before the number does
/// - `InvalidVarint` if the last byte of the number is `00` and not its only one, or its tenth byte
///   is not `01`
#[tactic(auto, unfolding(crate::specs::NumberSpelling::number_spelling, crate::specs::NumberSpelling::IsNumberRefusal))]
pub(crate) fn read_number(bytes: &[u8]) -> Result<(u64, &[u8]), DecodeError>
    ensures read { IfOk result (λ p. bytes.now ≡ number_spelling p.0 ++ p.1.now) }
    ensures refused { IfErr result (λ e. IsNumberRefusal bytes.now e) }
{
    read_groups(bytes, 0)
}

/// Decodes the number up to `greatest` that `bytes` begin with, and returns it with the bytes after
/// it.
///
/// # Errors
///
/// - `EndOfBuffer` if the bytes end before the number does
/// - `InvalidVarint` if the last byte of the number is `00` and not its only one, or its tenth byte
///   is not `01`
/// - `above` if the number exceeds `greatest`
pub fn read_up_to(
    bytes: &[u8],
    greatest: u64,
    above: DecodeError,
) -> Result<(u64, &[u8]), DecodeError>
    ensures within { IfOk result (λ p. p.0 ≤ greatest) }
    ensures read { IfOk result (λ p. bytes.now ≡ number_spelling p.0 ++ p.1.now) }
    ensures refused { IfErr result (λ e. IsRefusalUpTo greatest above bytes.now e) }
{
    let (number, rest) = read_number(bytes)?;
    if number > greatest {
        return Err(above);
    }
    Ok((number, rest))
}

// Returns the bytes of a number's encoding, and how many there are.
#[tactic(auto, unfolding(crate::specs::NumberSpelling::number_spelling))]
fn groups_of(number: u64) -> ([u8; 10], usize)
    ensures at_most_10 { result.1 ≤ 10 }
    ensures spells { take result.1 result.0 ≡ number_spelling number }
{
    let mut groups = [0u8; 10];
    let mut len = 0;
    let mut rest = number;
    while rest >= 128 {
        groups[len] = 128 + (rest % 128) as u8;
        rest /= 128;
        len += 1;
    }
    groups[len] = rest as u8;
    (groups, len + 1)
}

/// Returns the number of bytes of a number's encoding.
pub fn number_size(number: u64) -> usize
    ensures size { result ≡ length (number_spelling number) }
    ensures at_most_10 { result ≤ 10 }
{
    groups_of(number).1
}

/// Appends a number's encoding.
///
/// # Errors
///
/// - `OutOfMemory` if `out` has no room for it and a memory request is refused
///
/// The contents of `out` are unchanged on error.
pub fn write_number(number: u64, out: &mut Vec<u8>) -> Result<(), OutOfMemory>
    ensures ok { OnOk result (out.new.items ≡ out.old.items ++ number_spelling number) }
    ensures len { OnOk result (vec_len out.new ≡ vec_len out.old + length (number_spelling number)) }
    ensures err { OnErr result (out.new.items ≡ out.old.items) }
    ensures no_room { OnErr result (vec_capacity out.old < vec_len out.old + length (number_spelling number)) }
    ensures capacity { vec_capacity out.old ≤ vec_capacity out.new }
{
    let (groups, len) = groups_of(number);
    out.extend_from_slice(&groups[..len])?;
    Ok(())
}

/// A position is encoded as its number.
impl<F: Family> EncodeSize for Position<F> {
    ghost spelling = { number_spelling };

    ghost same = { ◌≡◌ };

    fn encode_size(&self) -> usize {
        number_size(self.as_u64())
    }

    ghost one_spelling = { number_spelling_once };
}

impl<F: Family> Write for Position<F> {
    fn write(&self, out: &mut Vec<u8>) -> Result<(), OutOfMemory> {
        write_number(self.as_u64(), out)
    }
}

impl<F: Family> Read for Position<F> {
    type Cfg = ();

    ghost spelled_by = { number_spelling };

    ghost within = { λ _ x. x ≤ F.MAX_NODES };

    ghost refuses = { λ _ b e. IsRefusalUpTo F.MAX_NODES Invalid b e };

    /// Decodes the position whose encoding `input` begins with, and advances `input` past it.
    ///
    /// Every position up to [`MAX_NODES`](Family::MAX_NODES) that was written is read back.
    ///
    /// # Errors
    ///
    /// - `EndOfBuffer` if the bytes end before the number does
    /// - `InvalidVarint` if the last byte of the number is `00` and not its only one, or its tenth
    ///   byte is not `01`
    /// - `Invalid` if the number exceeds [`MAX_NODES`](Family::MAX_NODES)
    ///
    /// `input` is unchanged on error. No memory is requested.
    fn read(_alloc: Global, input: &mut &[u8], _cfg: &()) -> Result<Self, DecodeError>
        ensures ok { IfOk result (λ x. (x ≤ F.MAX_NODES) × (input.old.now ≡ number_spelling x ++ input.new.now)) }
        ensures refused { IfErr result (λ e. IsRefusalUpTo F.MAX_NODES Invalid input.old.now e) }
        ensures unchanged { OnErr result (input.new.now ≡ input.old.now) }
        ensures written { (x : ℕ) (rest : List ℕ) → x ≤ F.MAX_NODES
            → input.old.now ≡ number_spelling x ++ rest → (result ≡ Ok x) × (input.new.now ≡ rest) }
    {
        let (number, rest) = read_up_to(*input, F::MAX_NODES, DecodeError::Invalid)?;
        *input = rest;
        Ok(Position::new(number))
    }

    ghost refused_spells_none = { λ _ b e h _ x rest within.
        IsRefusalUpTo_spells_none F.MAX_NODES Invalid b e h (lawful_nodes F.rule F.MAX_LEAVES F.MAX_NODES F.lawful) x rest within };

    ghost one_refusal = { λ _ b e f h k _ _. IsRefusalUpTo_once F.MAX_NODES Invalid b e f h k };
}

/// A location is encoded as its number.
impl<F: Family> EncodeSize for Location<F> {
    ghost spelling = { number_spelling };

    ghost same = { ◌≡◌ };

    fn encode_size(&self) -> usize {
        number_size(self.as_u64())
    }

    ghost one_spelling = { number_spelling_once };
}

impl<F: Family> Write for Location<F> {
    fn write(&self, out: &mut Vec<u8>) -> Result<(), OutOfMemory> {
        write_number(self.as_u64(), out)
    }
}

impl<F: Family> Read for Location<F> {
    type Cfg = ();

    ghost spelled_by = { number_spelling };

    ghost within = { λ _ x. x ≤ F.MAX_LEAVES };

    ghost refuses = { λ _ b e. IsRefusalUpTo F.MAX_LEAVES Invalid b e };

    /// Decodes the location whose encoding `input` begins with, and advances `input` past it.
    ///
    /// Every location up to [`MAX_LEAVES`](Family::MAX_LEAVES) that was written is read back.
    ///
    /// # Errors
    ///
    /// - `EndOfBuffer` if the bytes end before the number does
    /// - `InvalidVarint` if the last byte of the number is `00` and not its only one, or its tenth
    ///   byte is not `01`
    /// - `Invalid` if the number exceeds [`MAX_LEAVES`](Family::MAX_LEAVES)
    ///
    /// `input` is unchanged on error. No memory is requested.
    fn read(_alloc: Global, input: &mut &[u8], _cfg: &()) -> Result<Self, DecodeError>
        ensures ok { IfOk result (λ x. (x ≤ F.MAX_LEAVES) × (input.old.now ≡ number_spelling x ++ input.new.now)) }
        ensures refused { IfErr result (λ e. IsRefusalUpTo F.MAX_LEAVES Invalid input.old.now e) }
        ensures unchanged { OnErr result (input.new.now ≡ input.old.now) }
        ensures written { (x : ℕ) (rest : List ℕ) → x ≤ F.MAX_LEAVES
            → input.old.now ≡ number_spelling x ++ rest → (result ≡ Ok x) × (input.new.now ≡ rest) }
    {
        let (number, rest) = read_up_to(*input, F::MAX_LEAVES, DecodeError::Invalid)?;
        *input = rest;
        Ok(Location::new(number))
    }

    ghost refused_spells_none = { λ _ b e h _ x rest within.
        IsRefusalUpTo_spells_none F.MAX_LEAVES Invalid b e h (lawful_locations F.rule F.MAX_LEAVES F.MAX_NODES F.lawful) x rest within };

    ghost one_refusal = { λ _ b e f h k _ _. IsRefusalUpTo_once F.MAX_LEAVES Invalid b e f h k };
}
