//! SHA-256, and its digests.
ghost use Rattle.std.specs.Prelude.{◌≡◌, ◌<◌, ◌↔◌, IsTrue, length};
ghost use Rattle.std.proofs.Common.{rules, ap};
ghost use Rattle.merkle_digest.specs.DigestLaws.{same_sized, bytes_eq};
ghost use Rattle.merkle_lanes.specs.Together.{block_count, AreHashedTogether};
ghost use Rattle.merkle_sha256.specs.Sha256Laws.{length-sha256, no_bytes, length-no_bytes};
ghost use Rattle.sha2.specs.Sha256.{sha256};

use merkle_digest::digest::{BLOCK_COUNT_BOUND, Digest, PlainHasher};

/// A SHA-256 digest: any 32 bytes.
#[derive(Clone, Copy, PartialEq, Eq, Debug)]
pub struct Sha256Digest {
    bytes: [u8; 32],
    ghost sized: { length bytes ≡ 32 },
}

impl Digest for Sha256Digest {
    const SIZE: usize = 32;

    const EMPTY: Self = Sha256Digest { bytes: [0; 32] };

    ghost SIZE = { 32 };

    ghost EMPTY = { record { bytes = no_bytes; sized = length-no_bytes } };

    ghost bytes = { λ d. d.bytes };

    ghost Spells = { λ b. length b ≡ 32 };

    fn as_bytes(&self) -> &[u8] {
        &self.bytes
    }

    fn from_bytes(spelling: &[u8]) -> Option<Self> {
        match <[u8; 32]>::try_from(spelling) {
            Ok(bytes) => Some(Sha256Digest { bytes }),
            Err(_) => None,
        }
    }

    ghost small = { Prim.search rules };

    ghost nonempty = { Prim.search rules };

    ghost clone_is_same = { Prim.search rules };

    ghost bytes_spell = { Prim.search rules };

    ghost one_length = { Prim.search rules };

    ghost bytes_decide = { λ x y e. same_sized (λ b h. record { bytes = b; sized = h }) e x.sized y.sized };

    ghost eq_decides = { λ x y. (λ h. same_sized (λ b h. record { bytes = b; sized = h }) ((bytes_eq x.bytes y.bytes).0 h) x.sized y.sized, λ e. (bytes_eq x.bytes y.bytes).1 (ap (λ d. d.bytes) e)) };
}

/// SHA-256, as FIPS 180-4 defines it. Four messages are hashed together, in the time of the longest one, if that pays by
/// the rule of `merkle_lanes`, as it does for those of nodes. Three messages are hashed together if they are those of nodes.
#[derive(Clone, Copy, Debug)]
pub struct Sha256Plain;

impl PlainHasher for Sha256Plain {
    type Digest = Sha256Digest;

    ghost digest_of = { λ m. record { bytes = sha256 m; sized = length-sha256 m } };

    fn hash(parts: &[&[u8]]) -> Sha256Digest {
        Sha256Digest {
            bytes: merkle_lanes::hash(parts),
        }
    }

    fn hash_pair(a: &[&[u8]], b: &[&[u8]]) -> (Sha256Digest, Sha256Digest) {
        let (first, second) = merkle_lanes::hash_two(a, b);
        (
            Sha256Digest { bytes: first },
            Sha256Digest { bytes: second },
        )
    }

    fn hash_three(
        a: &[&[u8]],
        b: &[&[u8]],
        c: &[&[u8]],
    ) -> (Sha256Digest, Sha256Digest, Sha256Digest) {
        let (first, second, third) = merkle_lanes::hash_three(a, b, c);
        (
            Sha256Digest { bytes: first },
            Sha256Digest { bytes: second },
            Sha256Digest { bytes: third },
        )
    }

    fn hash_four(
        a: &[&[u8]],
        b: &[&[u8]],
        c: &[&[u8]],
        d: &[&[u8]],
    ) -> (Sha256Digest, Sha256Digest, Sha256Digest, Sha256Digest) {
        let (first, second, third, fourth) = merkle_lanes::hash_four(a, b, c, d);
        (
            Sha256Digest { bytes: first },
            Sha256Digest { bytes: second },
            Sha256Digest { bytes: third },
            Sha256Digest { bytes: fourth },
        )
    }

    fn hashes_together() -> bool
        ensures { IsTrue result }
    {
        true
    }

    #[inline]
    fn block_count(length: usize) -> usize
        ensures bounded { result < BLOCK_COUNT_BOUND }
        ensures count { result ≡ block_count length }
    {
        merkle_lanes::block_count(length)
    }

    #[inline]
    fn pays_together(a: usize, b: usize, c: usize, d: usize) -> bool
        ensures { IsTrue result ↔ AreHashedTogether a b c d }
    {
        merkle_lanes::pays_together(a, b, c, d)
    }
}
