//! Calls of audits.

use merkle_audit::{
    ApplyVerdict, Argument, PairVerdict, Place, Verdict, audit_apply, audit_multi,
    audit_multi_leaf_digests, audit_pair, audit_pair_leaf_digests, audit_pins,
    audit_pins_leaf_digests, audit_range, audit_range_leaf_digests,
};
use merkle_core::digest::Digest;
use merkle_core::error::Error;
use merkle_core::family::Family;
use merkle_core::hasher::Hasher;
use merkle_core::location::Location;
use merkle_core::proof::Proof;
use rows_calls::refusal::refused;
use rows_calls::values::{digest, digests, located_digests, proof};
use rows_text::answer::Answer;
use rows_text::calls::AuditCall;
use rows_text::refusal::Refusal;
use rows_text::words::{LocatedBytes, Words};
use std::alloc::Global;

// Writes a place.
fn write_place<F: Family>(answer: &mut Answer, place: Place<F>) {
    match place {
        Place::Root => answer.text("root"),
        Place::Join => answer.text("join"),
        Place::PrefixFold(number) => {
            answer.text("prefix ");
            answer.number(number as u64);
        }
        Place::SuffixFold(number) => {
            answer.text("suffix ");
            answer.number(number as u64);
        }
        Place::Node(position) => {
            answer.text("node ");
            answer.number(position.as_u64());
        }
    }
}

// Writes what is hashed at a place.
fn write_argument<D: Digest>(answer: &mut Answer, argument: &Argument<D>) {
    match argument {
        Argument::Pair(left, right) => {
            answer.bytes(left.as_bytes());
            answer.text(",");
            answer.bytes(right.as_bytes());
        }
        Argument::Bytes(bytes) => answer.bytes(bytes),
    }
}

// Writes a collision.
fn write_collision<F: Family, D: Digest>(
    answer: &mut Answer,
    place: Place<F>,
    one: &Argument<D>,
    other: &Argument<D>,
) {
    answer.text("collision ");
    write_place(answer, place);
    answer.text(" ");
    write_argument(answer, one);
    answer.text(" ");
    write_argument(answer, other);
}

// Writes what an audit of a proof says, or returns what is written for its error.
fn write_verdict<F: Family, D: Digest>(
    answer: &mut Answer,
    verdict: Result<Verdict<F, D>, Error<F>>,
) -> Result<(), Refusal> {
    match verdict {
        Ok(Verdict::Rejected) => answer.text("rejected"),
        Ok(Verdict::Honest) => answer.text("honest"),
        Ok(
            Verdict::Collision {
                place,
                claimed,
                listed,
            },
        ) => write_collision(answer, place, &claimed, &listed),
        Err(error) => return Err(refused(&error)),
    }
    Ok(())
}

// Writes what an audit of two proofs says, or returns what is written for its error.
fn write_pair_verdict<F: Family, D: Digest>(
    answer: &mut Answer,
    verdict: Result<PairVerdict<F, D>, Error<F>>,
) -> Result<(), Refusal> {
    match verdict {
        Ok(PairVerdict::Rejected) => answer.text("rejected"),
        Ok(PairVerdict::Consistent) => answer.text("consistent"),
        Ok(
            PairVerdict::Collision {
                place,
                first,
                second,
            },
        ) => write_collision(answer, place, &first, &second),
        Err(error) => return Err(refused(&error)),
    }
    Ok(())
}

// What an audit of a proof of a range says.
fn range<F: Family, H: Hasher<F>>(
    hasher: &H,
    words: &mut Words,
    answer: &mut Answer,
) -> Result<(), Refusal> {
    let list = digests(words);
    let inactive = words.count();
    let proof: Proof<F, H::Digest> = proof(words);
    let start = Location::new(words.number());
    let found = words.elements();
    let all = words.slices(&found);
    words.end()?;
    write_verdict(
        answer,
        audit_range(hasher, &list, inactive, &proof, &all, start),
    )
}

// What an audit of a proof of a range says of the digests of its leaves.
fn range_digests<F: Family, H: Hasher<F>>(
    hasher: &H,
    words: &mut Words,
    answer: &mut Answer,
) -> Result<(), Refusal> {
    let list = digests(words);
    let inactive = words.count();
    let proof: Proof<F, H::Digest> = proof(words);
    let start = Location::new(words.number());
    let leaves = digests(words);
    words.end()?;
    let verdict = audit_range_leaf_digests(hasher, &list, inactive, &proof, &leaves, start);
    write_verdict(answer, verdict)
}

// What an audit of a proof says with these elements, each at its location.
fn audit_scattered<F: Family, H: Hasher<F>>(
    alloc: Global,
    hasher: &H,
    list: &[H::Digest],
    inactive: usize,
    proof: &Proof<F, H::Digest>,
    elements: &[LocatedBytes],
) -> Result<Verdict<F, H::Digest>, Error<F>> {
    let mut all: Vec<(&[u8], Location<F>)> = Vec::new(alloc);
    for element in elements {
        let located = (element.bytes.as_slice(), Location::new(element.index));
        if all.push(located).is_err() {
            return Err(Error::OutOfMemory);
        }
    }
    audit_multi(hasher, list, inactive, proof, &all)
}

// What an audit of a proof of leaves anywhere says.
fn multi<F: Family, H: Hasher<F>>(
    hasher: &H,
    words: &mut Words,
    answer: &mut Answer,
) -> Result<(), Refusal> {
    let list = digests(words);
    let inactive = words.count();
    let proof: Proof<F, H::Digest> = proof(words);
    let found = words.located();
    words.end()?;
    let verdict = audit_scattered(words.alloc(), hasher, &list, inactive, &proof, &found);
    write_verdict(answer, verdict)
}

// What an audit of a proof of leaves anywhere says of their digests.
fn multi_digests<F: Family, H: Hasher<F>>(
    hasher: &H,
    words: &mut Words,
    answer: &mut Answer,
) -> Result<(), Refusal> {
    let list = digests(words);
    let inactive = words.count();
    let proof: Proof<F, H::Digest> = proof(words);
    let leaves = located_digests(words);
    words.end()?;
    let verdict = audit_multi_leaf_digests(hasher, &list, inactive, &proof, &leaves);
    write_verdict(answer, verdict)
}

// What an audit of a proof of a range with pins says.
fn pins<F: Family, H: Hasher<F>>(
    hasher: &H,
    words: &mut Words,
    answer: &mut Answer,
) -> Result<(), Refusal> {
    let list = digests(words);
    let inactive = words.count();
    let proof: Proof<F, H::Digest> = proof(words);
    let start = Location::new(words.number());
    let found = words.elements();
    let pinned: Vec<H::Digest> = digests(words);
    let all = words.slices(&found);
    words.end()?;
    let verdict = audit_pins(hasher, &list, inactive, &proof, &all, start, &pinned);
    write_verdict(answer, verdict)
}

// What an audit of a proof of a range with pins says of the digests of its leaves.
fn pins_digests<F: Family, H: Hasher<F>>(
    hasher: &H,
    words: &mut Words,
    answer: &mut Answer,
) -> Result<(), Refusal> {
    let list = digests(words);
    let inactive = words.count();
    let proof: Proof<F, H::Digest> = proof(words);
    let start = Location::new(words.number());
    let leaves = digests(words);
    let pinned: Vec<H::Digest> = digests(words);
    words.end()?;
    let verdict = audit_pins_leaf_digests(hasher, &list, inactive, &proof, &leaves, start, &pinned);
    write_verdict(answer, verdict)
}

// What an audit of a batch that was recorded at a list says.
fn apply<F: Family, H: Hasher<F>>(
    hasher: &H,
    words: &mut Words,
    answer: &mut Answer,
) -> Result<(), Refusal> {
    let listed: Vec<H::Digest> = digests(words);
    let claimed: Vec<H::Digest> = digests(words);
    words.end()?;
    match audit_apply::<F, H>(words.alloc(), hasher, &listed, &claimed) {
        Ok(ApplyVerdict::Refused) => answer.text("refused"),
        Ok(ApplyVerdict::Same) => answer.text("same"),
        Ok(
            ApplyVerdict::Collision {
                place,
                claimed,
                listed,
            },
        ) => write_collision(answer, place, &claimed, &listed),
        Err(error) => return Err(refused(&error)),
    }
    Ok(())
}

// What an audit of two proofs of ranges against one root says.
fn pair<F: Family, H: Hasher<F>>(
    hasher: &H,
    words: &mut Words,
    answer: &mut Answer,
) -> Result<(), Refusal> {
    let root: H::Digest = digest(words);
    let one: Proof<F, H::Digest> = proof(words);
    let start = Location::new(words.number());
    let found = words.elements();
    let other: Proof<F, H::Digest> = proof(words);
    let other_start = Location::new(words.number());
    let other_found = words.elements();
    let all = words.slices(&found);
    let other_all = words.slices(&other_found);
    words.end()?;
    let first = (&one, all.as_slice(), start);
    let second = (&other, other_all.as_slice(), other_start);
    write_pair_verdict(answer, audit_pair(hasher, &root, first, second))
}

// What an audit of two proofs of ranges against one root says of the digests of their leaves.
fn pair_digests<F: Family, H: Hasher<F>>(
    hasher: &H,
    words: &mut Words,
    answer: &mut Answer,
) -> Result<(), Refusal> {
    let root: H::Digest = digest(words);
    let one: Proof<F, H::Digest> = proof(words);
    let start = Location::new(words.number());
    let leaves: Vec<H::Digest> = digests(words);
    let other: Proof<F, H::Digest> = proof(words);
    let other_start = Location::new(words.number());
    let other_leaves: Vec<H::Digest> = digests(words);
    words.end()?;
    let first = (&one, leaves.as_slice(), start);
    let second = (&other, other_leaves.as_slice(), other_start);
    write_pair_verdict(
        answer,
        audit_pair_leaf_digests(hasher, &root, first, second),
    )
}

/// Does what a call says, and writes the answer. The words are those after the name of the call.
pub fn answer<F: Family, H: Hasher<F>>(
    alloc: Global,
    hasher: &H,
    call: AuditCall,
    words: &[&str],
    answer: &mut Answer,
) -> Result<(), Refusal> {
    let mut words = Words::new(alloc, words);
    let words = &mut words;
    let answered = match call {
        AuditCall::Apply => apply(hasher, words, answer),
        AuditCall::Multi => multi(hasher, words, answer),
        AuditCall::MultiDigests => multi_digests(hasher, words, answer),
        AuditCall::Pair => pair(hasher, words, answer),
        AuditCall::PairDigests => pair_digests(hasher, words, answer),
        AuditCall::Pins => pins(hasher, words, answer),
        AuditCall::PinsDigests => pins_digests(hasher, words, answer),
        AuditCall::Range => range(hasher, words, answer),
        AuditCall::RangeDigests => range_digests(hasher, words, answer),
    };
    answered?;
    answer.end()
}
