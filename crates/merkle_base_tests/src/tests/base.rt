use super::OF_ABC;
use merkle_base::error::{DecodeError, Error, OutOfMemory, ReconstructionError};
use merkle_base::family::Bagging;
use merkle_base::location::{Leaves, Location, LocationRangeExt};
use merkle_base::position::{Nodes, Number, Position};
use merkle_digest::digest::{Digest, PlainHasher, Xor8, Xor8Digest};
use merkle_sha256::sha256::{Sha256Digest, Sha256Plain};
use merkle_topology::mmb;
use std::alloc::Global;
use std::collections::HashMap;
use std::fmt::{Debug, Display};
use std::process::Abort;

// Stands for a family where nothing is asked of it.
#[derive(Clone, Copy, Debug)]
struct Mark;

const EMPTY_PARTS: [&[u8]; 0] = [];

// The SHA-256 digest of no bytes.
const OF_NOTHING: [u8; 32] = [
    0xe3, 0xb0, 0xc4, 0x42, 0x98, 0xfc, 0x1c, 0x14, 0x9a, 0xfb, 0xf4, 0xc8, 0x99, 0x6f, 0xb9, 0x24,
    0x27, 0xae, 0x41, 0xe4, 0x64, 0x9b, 0x93, 0x4c, 0xa4, 0x95, 0x99, 0x1b, 0x78, 0x52, 0xb8, 0x55,
];

/// Asserts the text of each value.
fn assert_texts<T: Display>(rt: &impl Abort, alloc: Global, values: &[T], texts: &[&str]) {
    let mut texts = texts.iter();
    for value in values {
        let shown = value.to_string(alloc).ok().expect(rt, "memory");
        assert!(rt; texts.next().copied() == Some(shown.as_str()), "{shown}");
    }
    assert!(rt; texts.next().is_none());
}

/// Asserts the text of a value, as it is printed for users and then for programmers.
fn assert_shown<T: Display + Debug>(rt: &impl Abort, alloc: Global, value: &T, text: &str) {
    let shown = format!(in alloc; "{value} {value:?}")
        .ok()
        .expect(rt, "memory");
    assert!(rt; shown.as_str() == text, "{text}");
}

#[test]
fn numbers_as_text(rt: HostRuntime) {
    let position = Position::<Mark>::new(42);
    assert_shown(&rt, rt.alloc(), &position, "Position(42) Position(42)");
    let location = Location::<Mark>::new(u64::MAX);
    let text = "Location(18446744073709551615) Location(18446744073709551615)";
    assert_shown(&rt, rt.alloc(), &location, text);
}

const ERRORS: [&str; 21] = [
    "Position(42) is not a leaf",
    "Position(42) > MAX_NODES",
    "Location(7) > MAX_LEAVES",
    "range is empty",
    "range end out of bounds: Location(7)",
    "invalid size: 5",
    "leaf location out of bounds: Location(7)",
    "duplicate leaf location: Location(7)",
    "unsorted leaf location: Location(7)",
    "element pruned: Position(42)",
    "digest hidden behind synthetic accumulator: Position(42)",
    "invalid pinned nodes",
    "stale batch: no matching chain state (size Position(8), fork size Position(42))",
    "ancestor dropped: expected size Position(42), actual size Position(8)",
    "invalid proof",
    "inactive peak count 3 exceeds peak count 2",
    "root mismatch",
    "missing node: Position(42)",
    "data corrupted: checksum",
    "bit offset 9 out of bounds (size: 8)",
    "out of memory",
];

#[test]
fn errors_as_text(rt: HostRuntime) {
    let position = Position::new(42);
    let location = Location::new(7);
    let errors = [
        Error::<Mark>::NonLeaf(position),
        Error::PositionOverflow(position),
        Error::LocationOverflow(location),
        Error::Empty,
        Error::RangeOutOfBounds(location),
        Error::InvalidSize(5),
        Error::LeafOutOfBounds(location),
        Error::DuplicateLocation(location),
        Error::UnsortedLocation(location),
        Error::ElementPruned(position),
        Error::CompressedDigest(position),
        Error::InvalidPinnedNodes,
        Error::StaleBatch {
            expected: position,
            actual: Position::new(8),
        },
        Error::AncestorDropped {
            expected: position,
            actual: Position::new(8),
        },
        Error::InvalidProof,
        Error::InvalidInactivePeaks {
            requested: 3,
            peaks: 2,
        },
        Error::RootMismatch,
        Error::MissingNode(position),
        Error::DataCorrupted("checksum"),
        Error::BitOutOfBounds(9, 8),
        Error::OutOfMemory,
    ];
    assert_texts(&rt, rt.alloc(), &errors, &ERRORS);
}

const RECONSTRUCTION_ERRORS: [&str; 8] = [
    "invalid proof",
    "missing digests in proof",
    "extra digests in proof",
    "start location is out of bounds",
    "end location is out of bounds",
    "missing elements",
    "invalid size",
    "out of memory",
];

const DECODE_ERRORS: [&str; 5] = [
    "end of buffer",
    "invalid varint",
    "invalid value",
    "too many items",
    "out of memory",
];

#[test]
fn other_errors_as_text(rt: HostRuntime) {
    let errors = [
        ReconstructionError::InvalidProof,
        ReconstructionError::MissingDigests,
        ReconstructionError::ExtraDigests,
        ReconstructionError::InvalidStartLoc,
        ReconstructionError::InvalidEndLoc,
        ReconstructionError::MissingElements,
        ReconstructionError::InvalidSize,
        ReconstructionError::OutOfMemory,
    ];
    assert_texts(&rt, rt.alloc(), &errors, &RECONSTRUCTION_ERRORS);
    let errors = [
        DecodeError::EndOfBuffer,
        DecodeError::InvalidVarint,
        DecodeError::Invalid,
        DecodeError::TooMany,
        DecodeError::OutOfMemory,
    ];
    assert_texts(&rt, rt.alloc(), &errors, &DECODE_ERRORS);
    assert_texts(&rt, rt.alloc(), &[OutOfMemory], &["out of memory"]);
}

/// Asserts the sums and differences of ten and three in a unit.
fn assert_arithmetic<U: Copy>(rt: &impl Abort) {
    let ten = Number::<Mark, U>::new(10);
    let three = Number::<Mark, U>::new(3);
    let mut seven = three;
    seven += 4;
    let mut one = seven;
    one -= 6;
    let found = [
        (ten + three).as_u64(),
        (ten + 5).as_u64(),
        (ten - three).as_u64(),
        (ten - 10).as_u64(),
        three.saturating_sub(5).as_u64(),
        ten.saturating_sub(3).as_u64(),
        seven.as_u64(),
        one.as_u64(),
    ];
    assert!(rt; found == [13, 15, 7, 0, 0, 7, 7, 1]);
    assert!(rt; ten.checked_sub(10) == Some(Number::new(0)));
    assert!(rt; ten.checked_sub(11).is_none());
}

#[test]
fn arithmetic(rt: HostRuntime) {
    assert_arithmetic::<Nodes>(&rt);
    assert_arithmetic::<Leaves>(&rt);
    let range = (Location::<Mark>::new(3)..Location::new(10)).to_usize_range();
    assert!(rt; (range.start, range.end) == (3, 10));
}

/// Asserts the order and the conversions of the numbers of a unit.
fn assert_order<U: Copy>(rt: &impl Abort) {
    let one = Number::<Mark, U>::from(1_u64);
    let two = Number::<Mark, U>::from(2_usize);
    assert!(rt; [Number::default() < one, two > one, one <= one] == [true; 3]);
    assert!(rt; one.max(two) == two);
    assert!(rt; u64::from(two) == 2);
}

#[test]
fn order(rt: HostRuntime) {
    assert_order::<Nodes>(&rt);
    assert_order::<Leaves>(&rt);
}

#[test]
fn keys(rt: HostRuntime) {
    let (one, two) = (Position::<Mark>::new(1), Position::<Mark>::new(2));
    let mut numbers = HashMap::new(rt.alloc());
    assert!(rt; numbers.insert(one, 10).is_ok());
    let copy = two.clone().ok().expect(&rt, "memory");
    assert!(rt; numbers.insert(copy, 20).is_ok());
    let second = numbers.get(&two).copied();
    let third = numbers.get(&Position::new(3)).copied();
    assert!(rt; [second, third] == [Some(20), None]);
}

#[test]
fn sha256_of_parts(rt: HostRuntime) {
    let whole = Sha256Plain::hash(&[b"a", b"bc"]);
    let (first, second) = Sha256Plain::hash_pair(&[b"ab", b"", b"c"], &EMPTY_PARTS);
    let three = Sha256Plain::hash_three(&EMPTY_PARTS, &EMPTY_PARTS, &[b"abc"]);
    assert!(rt; three == (second, second, whole));
    let are_vectors = [
        whole.as_bytes() == OF_ABC.as_slice(),
        first.as_bytes() == OF_ABC.as_slice(),
        second.as_bytes() == OF_NOTHING.as_slice(),
        Sha256Digest::EMPTY.as_bytes() == [0; 32].as_slice(),
    ];
    assert!(rt; are_vectors == [true; 4]);
}

#[test]
fn sha256_digests_of_bytes(rt: HostRuntime) {
    let zeros = [0; 64];
    let found = [
        Sha256Digest::from_bytes(&zeros[..32]),
        Sha256Digest::from_bytes(&[]),
        Sha256Digest::from_bytes(&zeros[..31]),
        Sha256Digest::from_bytes(&zeros[..33]),
        Sha256Digest::from_bytes(&zeros),
    ];
    assert!(rt; found == [Some(Sha256Digest::EMPTY), None, None, None, None]);
    assert!(rt; Sha256Digest::SIZE == 32);
}

#[test]
fn exclusive_or_of_parts(rt: HostRuntime) {
    let (first, second) = Xor8::hash_pair(&[&[1, 2], &[4]], &EMPTY_PARTS);
    let found = [
        Xor8::hash(&[&[1, 2], &[4]]),
        Xor8::hash(&[&[1, 3], &[2, 255]]),
        Xor8::hash(&EMPTY_PARTS),
        first,
        second,
    ];
    for (digest, byte) in found.iter().zip([7, 255, 0, 7, 0].iter()) {
        assert!(rt; digest.as_bytes() == [*byte].as_slice());
    }
    let three = Xor8::hash_three(&EMPTY_PARTS, &[&[1, 2], &[4]], &[&[1, 3], &[2, 255]]);
    assert!(rt; three == (found[2], found[0], found[1]));
}

#[test]
fn exclusive_or_digests_of_bytes(rt: HostRuntime) {
    let found = [
        Xor8Digest::from_bytes(&[7]),
        Xor8Digest::from_bytes(&[0]),
        Xor8Digest::from_bytes(&[]),
        Xor8Digest::from_bytes(&[1, 2]),
    ];
    let seven = Xor8::hash(&[&[7]]);
    assert!(rt; found == [Some(seven), Some(Xor8Digest::EMPTY), None, None]);
    assert!(rt; Xor8Digest::SIZE == 1);
}

#[test]
fn debug_texts(rt: HostRuntime) {
    let shown = format!(in rt.alloc();
        "{:?} {:?} {:?} {:?} {:?} {:?} {:?} {:?}",
        mmb::Family::default(),
        Bagging::ForwardFold,
        Bagging::BackwardFold,
        Sha256Plain,
        Xor8,
        DecodeError::EndOfBuffer,
        Xor8Digest::EMPTY,
        Sha256Digest::EMPTY
    )
    .ok()
    .expect(&rt, "memory");
    let start =
        "Family ForwardFold BackwardFold Sha256Plain Xor8 EndOfBuffer Xor8Digest { byte: 0 } Sha256Digest { bytes: [0, 0, ";
    assert!(rt; shown.as_str().starts_with(start), "{shown}");
}
