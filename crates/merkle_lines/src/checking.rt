//! Checks of proofs that are given as words.
ghost use Rattle.std.specs.Prelude.{◌≡◌, ℕ, [], ◌∷◌, ◌⊎◌, List, map, codes, length, IfOk, IsOkUnless, IsTrue};
ghost use Rattle.std.specs.List.{AllByRecursion};
ghost use Rattle.hex.specs.Hex.{decode_of};
ghost use Rattle.merkle_base.specs.Scheme.{scheme_of};
ghost use Rattle.merkle_commands.specs.Commands.{optional_words, IsElementWord};
ghost use Rattle.merkle_commands.specs.Words.{IsHexWord};
ghost use Rattle.merkle_leaves.specs.Standard.{standard};
ghost use Rattle.merkle_lines.specs.Answers.{error_line, word_bytes, IsChecked, IsRead};
ghost use Rattle.merkle_lines.specs.AnswerText.{answer_text};
ghost use Rattle.merkle_hasher.specs.LeafDigests.{bytes_of};

use crate::answer::{Answer, Named, or_fault};
use merkle_commands::command::cut;
use merkle_commands::hex_words::{HexError, read_hex};
use merkle_core::codec::Read;
use merkle_core::digest::{Digest, PlainHasher};
use merkle_core::error::OutOfMemory;
use merkle_core::family::Family;
use merkle_core::hasher::Standard;
use merkle_core::location::Location;
use merkle_core::proof::{MAX_PROOF_DIGESTS_PER_ELEMENT, Proof};
use std::alloc::Global;

// Returns the bytes of the word of an element.
fn read_element(alloc: Global, word: &str) -> Result<Vec<u8>, HexError>
    ensures value { IfOk result (λ bytes. IsElementWord word.now → bytes.items ≡ word_bytes word.now) }
    ensures refused { IsElementWord word.now → IsOkUnless result HexError.OutOfMemory }
{
    match word {
        "-" => Ok(Vec::new(alloc)),
        _ => read_hex(alloc, word),
    }
}

// Returns the bytes of the elements of some words; none if there are no words.
pub(crate) fn read_elements(alloc: Global, words: Option<&str>) -> Result<Vec<Vec<u8>>, HexError>
    ensures value { IfOk result (λ all. AllByRecursion IsElementWord (optional_words words.entry)
        → map (λ bytes. bytes.items) all.items ≡ map word_bytes (optional_words words.entry)) }
    ensures refused { AllByRecursion IsElementWord (optional_words words.entry) → IsOkUnless result HexError.OutOfMemory }
{
    let mut all = Vec::new(alloc);
    let mut rest = words;
    while let Some(row) = rest {
        let (word, after) = cut(row);
        let bytes = match read_element(alloc, word) {
            Ok(bytes) => bytes,
            Err(error) => return Err(error),
        };
        if all.push(bytes).is_err() {
            return Err(HexError::OutOfMemory);
        }
        rest = after;
    }
    Ok(all)
}

// Borrows the elements.
pub(crate) fn lent(alloc: Global, elements: &[Vec<u8>]) -> Result<Vec<&[u8]>, OutOfMemory>
    ensures { IfOk result (λ all. bytes_of all.items ≡ map (λ bytes. bytes.items) elements.now) }
{
    let mut all: Vec<&[u8]> = Vec::new(alloc);
    for element in elements {
        if all.push(element.as_slice()).is_err() {
            return Err(OutOfMemory);
        }
    }
    Ok(all)
}

// Answers whether the bytes encode a proof with `inactive` inactive peaks that is accepted with the
// elements, which are those from location `start` on.
fn verdict<F: Family, H: PlainHasher>(
    alloc: Global,
    hasher: &Standard<H>,
    start: u64,
    inactive: usize,
    root: &H::Digest,
    bytes: &[u8],
    elements: &[Vec<u8>],
) -> Answer
    ensures { let h = standard H.digest_of H.Digest.bytes H.Digest.eq H.Digest.EMPTY in let s = scheme_of h hasher.now F.rule F.MAX_LEAVES F.DOMAIN in
        IsRead s H.Digest.SIZE H.Digest.Spells start inactive root.now bytes.now (map (λ bytes. bytes.items) elements.now) (answer_text result)
        ⊎ (answer_text result ≡ error_line (codes "OutOfMemory")) }
{
    let lent = or_fault!(lent(alloc, elements));
    let most = MAX_PROOF_DIGESTS_PER_ELEMENT.saturating_mul(elements.len());
    let mut rest = bytes;
    let proof: Proof<F, H::Digest> = or_fault!(Proof::read(alloc, &mut rest, &most));
    if !rest.is_empty() {
        return Answer::Fault("Trailing");
    }
    if proof.inactive_peaks != inactive {
        return Answer::Verdict(false);
    }
    let first = Location::new(start);
    Answer::Verdict(or_fault!(proof.verify_range_inclusion(hasher, &lent, first, root)))
}

// Answers whether the proof is accepted with the elements against the root; all three are given as
// words of hexadecimal digits.
pub(crate) fn check<F: Family, H: PlainHasher>(
    alloc: Global,
    hasher: &Standard<H>,
    start: u64,
    inactive: usize,
    root: &str,
    proof: &str,
    elements: Option<&str>,
) -> Answer
    ensures { let h = standard H.digest_of H.Digest.bytes H.Digest.eq H.Digest.EMPTY in let s = scheme_of h hasher.now F.rule F.MAX_LEAVES F.DOMAIN in
        IsHexWord root.now → IsHexWord proof.now → AllByRecursion IsElementWord (optional_words elements.entry)
        → IsChecked s H.Digest.SIZE H.Digest.Spells start inactive (word_bytes root.now) (word_bytes proof.now)
        (map word_bytes (optional_words elements.entry)) (answer_text result)
        ⊎ (answer_text result ≡ error_line (codes "OutOfMemory")) }
{
    let root = or_fault!(read_hex(alloc, root));
    let Some(root) = H::Digest::from_bytes(root.as_slice()) else {
        return Answer::Fault("Syntax");
    };
    let proof = or_fault!(read_hex(alloc, proof));
    let elements = or_fault!(read_elements(alloc, elements));
    verdict::<F, H>(
        alloc,
        hasher,
        start,
        inactive,
        &root,
        proof.as_slice(),
        elements.as_slice(),
    )
}
