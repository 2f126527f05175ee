//! Words as digests, locations, ranges and proofs.

use merkle_core::digest::Digest;
use merkle_core::family::Family;
use merkle_core::location::Location;
use merkle_core::mem::Config;
use merkle_core::position::Position;
use merkle_core::proof::Proof;
use rows_text::words::Words;
use std::ops::Range;

// The digest with these bytes.
fn spelled<D: Digest>(words: &mut Words, bytes: &[u8]) -> D {
    words.value_or(D::from_bytes(bytes), D::EMPTY)
}

/// The digest whose hexadecimal digits the next word is.
pub fn digest<D: Digest>(words: &mut Words) -> D {
    let bytes = words.bytes();
    spelled(words, bytes.as_slice())
}

/// The digests of the list that the next word is.
pub fn digests<D: Digest>(words: &mut Words) -> Vec<D> {
    let list = words.elements();
    let mut all = Vec::new(words.alloc());
    for bytes in &list {
        let digest = spelled(words, bytes.as_slice());
        words.push(&mut all, digest);
    }
    all
}

/// The locations of the list that the next word is.
pub fn locations<F: Family>(words: &mut Words) -> Vec<Location<F>> {
    let list = words.numbers();
    let mut all = Vec::new(words.alloc());
    for number in &list {
        words.push(&mut all, Location::new(*number));
    }
    all
}

/// The locations of the list that the next word is, each with its digest.
pub fn updates<F: Family, D: Digest>(words: &mut Words) -> Vec<(Location<F>, D)> {
    let list = words.located();
    let mut all = Vec::new(words.alloc());
    for item in &list {
        let digest = spelled(words, item.bytes.as_slice());
        words.push(&mut all, (Location::new(item.index), digest));
    }
    all
}

/// The digests of the list that the next word is, each with its location.
pub fn located_digests<F: Family, D: Digest>(words: &mut Words) -> Vec<(D, Location<F>)> {
    let list = words.located();
    let mut all = Vec::new(words.alloc());
    for item in &list {
        let digest = spelled(words, item.bytes.as_slice());
        words.push(&mut all, (digest, Location::new(item.index)));
    }
    all
}

/// The positions of the list that the next word is, each with its digest.
pub fn pairs<F: Family, D: Digest>(words: &mut Words) -> Vec<(Position<F>, D)> {
    let list = words.located();
    let mut all = Vec::new(words.alloc());
    for item in &list {
        let digest = spelled(words, item.bytes.as_slice());
        words.push(&mut all, (Position::new(item.index), digest));
    }
    all
}

/// The range from the location that the next word is, before the one that the word after it is.
pub fn range<F: Family>(words: &mut Words) -> Range<Location<F>> {
    let start = Location::new(words.number());
    let end = Location::new(words.number());
    start..end
}

/// The components of a structure that the next three words spell: its boundary, the nodes and the pins.
pub fn config<F: Family, D: Digest>(words: &mut Words) -> Config<F, D> {
    let pruning_boundary = Location::new(words.number());
    let nodes = digests(words);
    let pinned_nodes = digests(words);
    Config {
        nodes,
        pruning_boundary,
        pinned_nodes,
    }
}

/// The proof that the next three words spell.
pub fn proof<F: Family, D: Digest>(words: &mut Words) -> Proof<F, D> {
    Proof {
        leaves: Location::new(words.number()),
        inactive_peaks: words.count(),
        digests: digests(words),
    }
}
