//! Audits of proofs that are given as words.
ghost use Rattle.std.specs.Prelude.{◌≡◌, ◌≤◌, ◌⊎◌, ◌++◌, ℕ, List, map, codes, length, IfOk};
ghost use Rattle.std.specs.List.{AllByRecursion};
ghost use Rattle.std.specs.String.{string_bytes};
ghost use Rattle.hex.specs.Hex.{encode_lower};
ghost use Rattle.merkle_walks.specs.Places.{argument_of, collision_of, place_of};
ghost use Rattle.merkle_audit_parts.specs.Found.{IsRangeVerdict};
ghost use Rattle.merkle_audit_theory.specs.PlainHash.{joined_at, string_at};
ghost use Rattle.merkle_base.specs.Hashing.{IsOver};
ghost use Rattle.merkle_base.specs.Scheme.{Scheme, scheme_of};
ghost use Rattle.merkle_commands.specs.Commands.{optional_words, IsElementWord};
ghost use Rattle.merkle_commands.specs.Words.{IsHexWord};
ghost use Rattle.merkle_leaves.specs.Standard.{standard};
ghost use Rattle.merkle_lines.specs.Answers.{collision_line, error_line, place_words, word_bytes, IsAudited, SaysOfInput};
ghost use Rattle.merkle_lines.specs.AnswerText.{answer_text, spot_text};
ghost use Rattle.merkle_lines.specs.StructureState.{StructureState};
ghost use Rattle.merkle_hasher.specs.LeafDigests.{leaf_digests};
ghost use Rattle.merkle_root_theory.specs.Check.{RangeInput};

use crate::answer::{Answer, Named, Spot, or_fault};
use crate::checking::{lent, read_elements};
use merkle_audit::{Argument, Place, Verdict, audit_range};
use merkle_commands::hex_words::{read_hex, write_hex};
use merkle_core::codec::Read;
use merkle_core::digest::{Digest, PlainHasher};
use merkle_core::error::OutOfMemory;
use merkle_core::family::Family;
use merkle_core::hasher::Standard;
use merkle_core::location::Location;
use merkle_core::proof::{MAX_PROOF_DIGESTS_PER_ELEMENT, Proof};
use std::alloc::Global;

// Returns how a place is printed.
fn spot_of<F: Family>(place: &Place<F>) -> Spot
    ensures { spot_text result ≡ place_words (place_of place.now) }
{
    match place {
        Place::Root => Spot::Root,
        Place::Join => Spot::Join,
        Place::PrefixFold(number) => Spot::Prefix(*number),
        Place::SuffixFold(number) => Spot::Suffix(*number),
        Place::Node(position) => Spot::Node(position.as_u64()),
    }
}

// Returns the digits of bytes and of two digests after them.
fn joined_digits<D: Digest>(
    alloc: Global,
    first: &[u8],
    left: &D,
    right: &D,
) -> Result<String, OutOfMemory>
    ensures { IfOk result (λ text. string_bytes text ≡ encode_lower (first.now ++ D.bytes left.now ++ D.bytes right.now)) }
{
    let mut bytes = Vec::new(alloc);
    bytes.extend_from_slice(first)?;
    bytes.extend_from_slice(left.as_bytes())?;
    bytes.extend_from_slice(right.as_bytes())?;
    write_hex(alloc, &bytes)
}

// Returns the digits of two digests, which stand after a position if they are hashed at a node.
fn pair_digits<F: Family, D: Digest>(
    alloc: Global,
    place: &Place<F>,
    left: &D,
    right: &D,
) -> Result<String, OutOfMemory>
    ensures { IfOk result (λ text. string_bytes text ≡ encode_lower (joined_at D.bytes (place_of place.now) left.now right.now)) }
{
    match place {
        Place::Node(position) => {
            joined_digits(alloc, &position.as_u64().to_be_bytes(), left, right)
        }
        _ => joined_digits(alloc, &[], left, right),
    }
}

// Returns the digits of the bytes that the plain hash hashed.
fn digits_of<F: Family, D: Digest>(
    alloc: Global,
    place: &Place<F>,
    argument: &Argument<D>,
) -> Result<String, OutOfMemory>
    ensures { IfOk result (λ text. string_bytes text ≡ encode_lower (string_at D.bytes (place_of place.now) (argument_of argument.now))) }
{
    match argument {
        Argument::Bytes(bytes) => write_hex(alloc, bytes),
        Argument::Pair(left, right) => pair_digits(alloc, place, left, right),
    }
}

// Answers a collision.
fn collision<F: Family, D: Digest>(
    alloc: Global,
    place: &Place<F>,
    claimed: &Argument<D>,
    listed: &Argument<D>,
) -> Answer
    ensures { (answer_text result ≡ collision_line D.bytes (collision_of place.now claimed.now listed.now))
        ⊎ (answer_text result ≡ error_line (codes "OutOfMemory")) }
{
    let claimed = or_fault!(digits_of(alloc, place, claimed));
    let listed = or_fault!(digits_of(alloc, place, listed));
    Answer::Collision {
        place: spot_of(place),
        claimed,
        listed,
    }
}

// Answers a verdict.
fn said<F: Family, D: Digest>(alloc: Global, verdict: Verdict<F, D>) -> Answer
    ensures { (s : Scheme D) (X : List D) (k : ℕ) (r : RangeInput D) → IsOver s.hashing D.bytes D.eq D.EMPTY
        → IsRangeVerdict s X k r verdict
        → SaysOfInput s X k r (answer_text result) ⊎ (answer_text result ≡ error_line (codes "OutOfMemory")) }
{
    match verdict {
        Verdict::Rejected => Answer::Rejected,
        Verdict::Honest => Answer::Honest,
        Verdict::Collision {
            place,
            claimed,
            listed,
        } => collision(alloc, &place, &claimed, &listed),
    }
}

// Audits the proof that the bytes encode, with the elements, which are those from location `start` on,
// against a list.
fn audited<F: Family, H: PlainHasher>(
    alloc: Global,
    hasher: &Standard<H>,
    list: &[H::Digest],
    start: u64,
    inactive: usize,
    bytes: &[u8],
    elements: &[Vec<u8>],
) -> Answer
    ensures { let h = standard H.digest_of H.Digest.bytes H.Digest.eq H.Digest.EMPTY in let s = scheme_of h hasher.now F.rule F.MAX_LEAVES F.DOMAIN in
        (g : StructureState) → list.now ≡ leaf_digests h F.rule 0 g.committed → length g.committed ≤ F.MAX_LEAVES
        → IsAudited s H.Digest.SIZE H.Digest.Spells g start inactive bytes.now (map (λ bytes. bytes.items) elements.now) (answer_text result)
        ⊎ (answer_text result ≡ error_line (codes "OutOfMemory")) }
{
    let lent = or_fault!(lent(alloc, elements));
    let most = MAX_PROOF_DIGESTS_PER_ELEMENT.saturating_mul(elements.len());
    let mut rest = bytes;
    let proof: Proof<F, H::Digest> = or_fault!(Proof::read(alloc, &mut rest, &most));
    if !rest.is_empty() {
        return Answer::Fault("Trailing");
    }
    let first = Location::new(start);
    said(
        alloc,
        or_fault!(audit_range(hasher, list, inactive, &proof, &lent, first)),
    )
}

// Audits the proof with the elements against a list; both are given as words of hexadecimal digits.
pub(crate) fn audit<F: Family, H: PlainHasher>(
    alloc: Global,
    hasher: &Standard<H>,
    list: &[H::Digest],
    start: u64,
    inactive: usize,
    proof: &str,
    elements: Option<&str>,
) -> Answer
    ensures { let h = standard H.digest_of H.Digest.bytes H.Digest.eq H.Digest.EMPTY in let s = scheme_of h hasher.now F.rule F.MAX_LEAVES F.DOMAIN in
        (g : StructureState) → list.now ≡ leaf_digests h F.rule 0 g.committed → length g.committed ≤ F.MAX_LEAVES
        → IsHexWord proof.now → AllByRecursion IsElementWord (optional_words elements.entry)
        → IsAudited s H.Digest.SIZE H.Digest.Spells g start inactive (word_bytes proof.now)
        (map word_bytes (optional_words elements.entry)) (answer_text result)
        ⊎ (answer_text result ≡ error_line (codes "OutOfMemory")) }
{
    let proof = or_fault!(read_hex(alloc, proof));
    let elements = or_fault!(read_elements(alloc, elements));
    audited::<F, H>(
        alloc,
        hasher,
        list,
        start,
        inactive,
        proof.as_slice(),
        elements.as_slice(),
    )
}
