//! Audits by SHA-256 and by a hasher with a key, and audits that hash nothing.
//!
//! The list is of the elements 01, 02 and 04 in a Mountain Range. Its digests by SHA-256 were computed by another program.

use super::digest;
use merkle_audit::{
    ApplyVerdict, Argument, PairVerdict, Place, Verdict, audit_apply, audit_multi, audit_pair,
    audit_pins, audit_range,
};
use merkle_commands::hex_words::read_hex;
use merkle_core::digest::{Digest, Sha256Digest, Sha256Plain, Xor8Digest};
use merkle_core::family::Bagging;
use merkle_core::hasher::Standard;
use merkle_core::mmr::{Error, Family, Location, Position, Proof};
use merkle_fixtures::counting::Counting;
use merkle_fixtures::keyed::Keyed;
use std::cell::Cell;
use std::process::Abort;

/// By SHA-256: the digests of the leaves 0 and 1, of the node over them, of leaf 2, and the root.
pub(super) const SHA256: [&str; 5] = [
    "2ae1c19c0cbd378e46c927a9f3611923ec07cc1ae357502a09536d455275cf21",
    "57371aca58aaf804a0eb0fad7039c80a1cd53f85d29bf276a21388ec1be58fce",
    "bf7c63680c5908e65cc9aa2385bf7cfc24e5c78a3a28babb28ce26700e479b71",
    "e4af7de5b975cd711b2d3e066009cd5a11c3dbe210f5754518e032846c82ec24",
    "10c7041cd3a45d7ec1dec8ad469d5dfe3d9efe45dd6b0a3ffcfdaf46fd130488",
];

/// The digest that is written so.
pub(super) fn sha256(rt: &(impl Abort + AllocGlobal), word: &str) -> Sha256Digest {
    let bytes = read_hex(rt.alloc(), word).ok().expect(rt, "a word");
    Sha256Digest::from_bytes(bytes.as_slice()).expect(rt, "32 bytes")
}

/// The proof of some of three leaves.
pub(super) fn proof<D: Digest>(rt: &(impl Abort + AllocGlobal), digests: &[D]) -> Proof<D> {
    Proof {
        leaves: Location::new(3),
        inactive_peaks: 0,
        digests: digests.to_vec(rt.alloc()).ok().expect(rt, "memory"),
    }
}

#[test]
fn by_sha256(rt: HostRuntime) {
    let hasher = Standard::<Sha256Plain>::new(Bagging::ForwardFold);
    let [one, two, over, three, root] = SHA256;
    let (one, two, over) = (sha256(&rt, one), sha256(&rt, two), sha256(&rt, over));
    let (three, root) = (sha256(&rt, three), sha256(&rt, root));
    let list = [one, two, three];
    let (first, last) = (Location::new(0), Location::new(2));

    let leaf = proof(&rt, &[three, two]);
    let said = audit_range::<Family, _>(&hasher, &list, 0, &leaf, &[&[1]], first);
    assert!(rt; matches!(&said, Ok(Verdict::Honest)));
    let said = audit_range::<Family, _>(&hasher, &list, 0, &leaf, &[&[2]], first);
    assert!(rt; matches!(&said, Ok(Verdict::Rejected)));

    let ends: [(&[u8], Location); 2] = [(&[1], first), (&[4], last)];
    let said = audit_multi::<Family, _>(&hasher, &list, 0, &proof(&rt, &[two, over, three]), &ends);
    assert!(rt; matches!(&said, Ok(Verdict::Honest)));
    let said = audit_multi::<Family, _>(&hasher, &list, 0, &proof(&rt, &[two, two, three]), &ends);
    assert!(rt; matches!(&said, Ok(Verdict::Rejected)));

    let newest = proof(&rt, &[over]);
    let said = audit_pins::<Family, _>(&hasher, &list, 0, &newest, &[&[4]], last, &[over]);
    assert!(rt; matches!(&said, Ok(Verdict::Honest)));
    let said = audit_pins::<Family, _>(&hasher, &list, 0, &newest, &[&[4]], last, &[two]);
    assert!(rt; matches!(&said, Ok(Verdict::Rejected)));

    let said = audit_apply::<Family, _>(rt.alloc(), &hasher, &list, &list);
    assert!(rt; matches!(&said, Ok(ApplyVerdict::Same)));
    let said = audit_apply::<Family, _>(rt.alloc(), &hasher, &list, &[two, one, three]);
    assert!(rt; matches!(&said, Ok(ApplyVerdict::Refused)));

    let answer: (&Proof<Sha256Digest>, &[&[u8]], Location) = (&leaf, &[&[1]], first);
    let said = audit_pair::<Family, _>(&hasher, &root, answer, (&newest, &[&[4]], last));
    assert!(rt; matches!(&said, Ok(PairVerdict::Consistent)));
    let again: (&Proof<Sha256Digest>, &[&[u8]], Location) = (&leaf, &[&[1]], first);
    let said = audit_pair::<Family, _>(&hasher, &root, again, (&newest, &[&[5]], last));
    assert!(rt; matches!(&said, Ok(PairVerdict::Rejected)));
}

/// Whether these are two pairs of digests, of these bytes.
fn are_pairs(one: &Argument<Xor8Digest>, other: &Argument<Xor8Digest>, bytes: [u8; 4]) -> bool {
    let [a, b, c, d] = bytes;
    is_pair(one, a, b) && is_pair(other, c, d)
}

/// Whether this is a pair of digests, of these bytes.
fn is_pair(argument: &Argument<Xor8Digest>, first: u8, second: u8) -> bool {
    match argument {
        Argument::Pair(left, right) => left.as_bytes() == [first].as_slice()
            && right.as_bytes() == [second].as_slice(),
        Argument::Bytes(_) => false,
    }
}

/// Whether an audit finds a collision there, first of the pair that was hashed and then of the list's.
fn collides(
    said: &Result<Verdict<Family, Xor8Digest>, Error>,
    at: Place<Family>,
    bytes: [u8; 4],
) -> bool {
    match said {
        Ok(
            Verdict::Collision {
                place,
                claimed,
                listed,
            },
        ) => *place == at && are_pairs(claimed, listed, bytes),
        _ => false,
    }
}

// With the key 5a the digests of the leaves are 5b, 59 and 5d, the node over the first two has 5a, and the root is 04.
#[test]
fn by_a_key(rt: HostRuntime) {
    let hasher = Keyed::new(0x5a, Bagging::ForwardFold);
    let (one, two, three) = (digest(&rt, 0x5b), digest(&rt, 0x59), digest(&rt, 0x5d));
    let (over, other, root) = (digest(&rt, 0x5a), digest(&rt, 0x58), digest(&rt, 4));
    let list = [one, two, three];
    let (first, last) = (Location::new(0), Location::new(2));
    let node = Place::Node(Position::new(2));

    let leaf = proof(&rt, &[three, two]);
    let said = audit_range::<Family, _>(&hasher, &list, 0, &leaf, &[&[1]], first);
    assert!(rt; matches!(&said, Ok(Verdict::Honest)));
    let swapped = proof(&rt, &[two, three]);
    let said = audit_range::<Family, _>(&hasher, &list, 0, &swapped, &[&[1]], first);
    assert!(rt; collides(&said, Place::PrefixFold(1), [0x5e, 0x59, 0x5a, 0x5d]));

    let ends: [(&[u8], Location); 2] = [(&[1], first), (&[4], last)];
    let said = audit_multi::<Family, _>(&hasher, &list, 0, &proof(&rt, &[two, over, three]), &ends);
    assert!(rt; matches!(&said, Ok(Verdict::Honest)));
    let ends: [(&[u8], Location); 2] = [(&[2], first), (&[4], last)];
    let said = audit_multi::<Family, _>(
        &hasher,
        &list,
        0,
        &proof(&rt, &[over, over, three]),
        &ends,
    );
    assert!(rt; collides(&said, node, [0x58, 0x5a, 0x5b, 0x59]));

    let middle = Location::new(1);
    let pinned = proof(&rt, &[three, one]);
    let said = audit_pins::<Family, _>(&hasher, &list, 0, &pinned, &[&[2]], middle, &[one]);
    assert!(rt; matches!(&said, Ok(Verdict::Honest)));
    let pinned = proof(&rt, &[three, over]);
    let said = audit_pins::<Family, _>(&hasher, &list, 0, &pinned, &[&[3]], middle, &[over]);
    assert!(rt; collides(&said, node, [0x5a, 0x58, 0x5b, 0x59]));

    let said = audit_apply::<Family, _>(rt.alloc(), &hasher, &[one, two], &[other, over]);
    assert!(rt;
        matches!(&said, Ok(ApplyVerdict::Collision { place, claimed, listed }) if *place == node && are_pairs(claimed, listed, [0x58, 0x5a, 0x5b, 0x59]))
    );

    let answer: (&Proof<Xor8Digest>, &[&[u8]], Location) = (&leaf, &[&[1]], first);
    let said = audit_pair::<Family, _>(&hasher, &root, answer, (&swapped, &[&[1]], first));
    assert!(rt;
        matches!(&said, Ok(PairVerdict::Collision { place, first, second }) if *place == Place::PrefixFold(1) && are_pairs(first, second, [0x5a, 0x5d, 0x5e, 0x59]))
    );
}

// A list that is refused costs no hash of a node or of a leaf.
#[test]
fn refused_list_without_a_hash(rt: HostRuntime) {
    let (pairs, singles, leaves) = (Cell::new(0), Cell::new(0), Cell::new(0));
    let hasher = Counting {
        bagging: Bagging::ForwardFold,
        pairs: &pairs,
        singles: &singles,
        leaves: &leaves,
        positions: &[],
    };
    let list = [digest(&rt, 1), digest(&rt, 3), digest(&rt, 7)];
    let (first, last) = (Location::new(0), Location::new(2));
    let leaf = proof(&rt, &[list[2], list[1]]);
    let ends: [(&[u8], Location); 2] = [(&[1], first), (&[4], last)];

    let said = audit_range::<Family, _>(&hasher, &list, 3, &leaf, &[&[1]], first);
    assert!(rt;
        matches!(
            &said,
            Err(Error::InvalidInactivePeaks {
                requested: 3,
                peaks: 2
            })
        )
    );
    let said = audit_multi::<Family, _>(&hasher, &list, 3, &leaf, &ends);
    assert!(rt;
        matches!(
            &said,
            Err(Error::InvalidInactivePeaks {
                requested: 3,
                peaks: 2
            })
        )
    );
    let said = audit_pins::<Family, _>(&hasher, &list, 3, &leaf, &[&[1]], first, &[]);
    assert!(rt;
        matches!(
            &said,
            Err(Error::InvalidInactivePeaks {
                requested: 3,
                peaks: 2
            })
        )
    );
    assert_eq!(rt; (pairs.get(), singles.get(), leaves.get()), (0, 0, 0));
}

// An input whose shape is refused costs no hash of a node or of a leaf, and one whose shape is not does.
#[test]
fn refused_shape_without_a_hash(rt: HostRuntime) {
    let (pairs, singles, leaves) = (Cell::new(0), Cell::new(0), Cell::new(0));
    let hasher = Counting {
        bagging: Bagging::ForwardFold,
        pairs: &pairs,
        singles: &singles,
        leaves: &leaves,
        positions: &[],
    };
    let list = [digest(&rt, 1), digest(&rt, 3), digest(&rt, 7)];
    let (first, last) = (Location::new(0), Location::new(2));
    let ends: [(&[u8], Location); 2] = [(&[1], first), (&[4], last)];

    let short = proof::<Xor8Digest>(&rt, &[]);
    let said = audit_range::<Family, _>(&hasher, &list, 0, &short, &[&[1]], first);
    assert!(rt; matches!(&said, Ok(Verdict::Rejected)));
    let said = audit_multi::<Family, _>(&hasher, &list, 0, &short, &ends);
    assert!(rt; matches!(&said, Ok(Verdict::Rejected)));
    let said = audit_pins::<Family, _>(&hasher, &list, 0, &short, &[&[4]], last, &[list[0]]);
    assert!(rt; matches!(&said, Ok(Verdict::Rejected)));
    // the pins of two leaves are one
    let newest = proof(&rt, &[digest(&rt, 0)]);
    let said = audit_pins::<Family, _>(&hasher, &list, 0, &newest, &[&[4]], last, &list);
    assert!(rt; matches!(&said, Ok(Verdict::Rejected)));
    assert_eq!(rt; (pairs.get(), singles.get(), leaves.get()), (0, 0, 0));

    let leaf = proof(&rt, &[list[2], list[1]]);
    let said = audit_range::<Family, _>(&hasher, &list, 0, &leaf, &[&[1]], first);
    assert!(rt; matches!(&said, Ok(Verdict::Honest)));
    assert!(rt; singles.get() > 0);
}
