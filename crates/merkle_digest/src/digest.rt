//! Digests, and the plain hash functions that compute them.
ghost use Rattle.std.specs.Prelude.{◌≡◌, ◌^◌, ◌<◌, ◌≤◌, ◌↔◌, ◌∷◌, [], ℕ, List, IsTrue, MatchOption, length, fold, bit_xor};
ghost use Rattle.std.proofs.Common.{rules};
ghost use Rattle.std.specs.Mem.{type_size};
ghost use Rattle.merkle_digest.specs.Bytes.{joined_parts};
ghost use Rattle.merkle_digest.specs.DigestLaws.{xor_of};

use std::fmt::Debug;

/// Every [`block_count`](PlainHasher::block_count) is less than this, so that messages can be put in the order of their
/// numbers of blocks by a table of so many places.
pub const BLOCK_COUNT_BOUND: usize = 32;

/// A digest: a small value that is determined by its bytes.
///
/// An implementation fixes which byte strings are digests. All of them have the same length
/// [`SIZE`](Digest::SIZE), which is at least 1. Digests with equal bytes are equal, `==` decides
/// equality, and a clone equals its original.
pub trait Digest: Copy + Eq + Debug {
    /// The number of bytes of every digest.
    const SIZE: usize;

    /// A placeholder for a digest that is not known yet. It is a valid digest, and may be that of
    /// some input.
    const EMPTY: Self;

    ghost SIZE: { ℕ };

    ghost EMPTY: { Self };

    // the bytes of the digest
    ghost bytes: { Self → List ℕ };

    // which byte lists are those of a digest
    ghost Spells: { List ℕ → Type 0 };

    /// Returns the bytes of the digest.
    fn as_bytes(&self) -> &[u8]
        ensures { result.now ≡ bytes self.now };

    /// Returns the digest with these bytes, or `None` if there is none.
    fn from_bytes(spelling: &[u8]) -> Option<Self>
        ensures { MatchOption result (¬ Spells spelling.now) (λ d. bytes d ≡ spelling.now) };

    ghost small: { type_size Self.row < 2 ^ 32 };

    ghost nonempty: { 1 ≤ SIZE };

    ghost clone_is_same: { (x y : Self) → Self.is_clone x y → y ≡ x };

    ghost bytes_spell: { (x : Self) → Spells (bytes x) };

    ghost one_length: { (b : List ℕ) → Spells b → length b ≡ SIZE };

    ghost bytes_decide: { (x y : Self) → bytes x ≡ bytes y → x ≡ y };

    ghost eq_decides: { (x y : Self) → IsTrue (Self.eq x y) ↔ (x ≡ y) };
}

/// A hash function over bytes: the digest depends only on the concatenation of the parts.
pub trait PlainHasher {
    /// The digest type.
    type Digest: Digest;

    // the digest of bytes
    ghost digest_of: { List ℕ → Self.Digest };

    /// Returns the digest of the concatenated parts.
    fn hash(parts: &[&[u8]]) -> Self::Digest
        ensures { result ≡ digest_of (joined_parts parts.now) };

    /// Returns two digests, each as by [`hash`](PlainHasher::hash). An implementation may compute
    /// them together.
    fn hash_pair(a: &[&[u8]], b: &[&[u8]]) -> (Self::Digest, Self::Digest)
        ensures first { result.0 ≡ digest_of (joined_parts a.now) }
        ensures second { result.1 ≡ digest_of (joined_parts b.now) };

    /// Returns three digests, each as by [`hash`](PlainHasher::hash). An implementation may compute
    /// them together; without one of its own, they are computed as a pair and one more.
    fn hash_three(
        a: &[&[u8]],
        b: &[&[u8]],
        c: &[&[u8]],
    ) -> (Self::Digest, Self::Digest, Self::Digest)
        ensures first { result.0 ≡ digest_of (joined_parts a.now) }
        ensures second { result.1 ≡ digest_of (joined_parts b.now) }
        ensures third { result.2 ≡ digest_of (joined_parts c.now) }
    {
        let (first, second) = Self::hash_pair(a, b);
        (first, second, Self::hash(c))
    }

    /// Returns four digests, each as by [`hash`](PlainHasher::hash). An implementation may compute
    /// them together; without one of its own, they are computed as two pairs.
    fn hash_four(
        a: &[&[u8]],
        b: &[&[u8]],
        c: &[&[u8]],
        d: &[&[u8]],
    ) -> (Self::Digest, Self::Digest, Self::Digest, Self::Digest)
        ensures first { result.0 ≡ digest_of (joined_parts a.now) }
        ensures second { result.1 ≡ digest_of (joined_parts b.now) }
        ensures third { result.2 ≡ digest_of (joined_parts c.now) }
        ensures fourth { result.3 ≡ digest_of (joined_parts d.now) }
    {
        let (first, second) = Self::hash_pair(a, b);
        let (third, fourth) = Self::hash_pair(c, d);
        (first, second, third, fourth)
    }

    /// Returns whether [`hash_four`](PlainHasher::hash_four) can take less time than four calls of
    /// [`hash`](PlainHasher::hash). The default is `false`. Callers may arrange messages in groups of
    /// four if it can. No digest depends on it.
    fn hashes_together() -> bool {
        false
    }

    /// Returns the number of blocks in which a message of `length` bytes is hashed, or one number for all messages that are
    /// too long to be hashed together with others. It is less than [`BLOCK_COUNT_BOUND`]. The default is 0. Callers may put
    /// messages in the order of these numbers. No digest depends on it.
    fn block_count(length: usize) -> usize
        ensures { result < BLOCK_COUNT_BOUND }
    {
        let _ = length;
        0
    }

    /// Returns whether [`hash_four`](PlainHasher::hash_four) hashes four messages with these numbers of blocks together, in
    /// the time of the longest one. The default is `false`. Callers may estimate the time of messages by it. No digest
    /// depends on it.
    fn pays_together(a: usize, b: usize, c: usize, d: usize) -> bool {
        let _ = (a, b, c, d);
        false
    }
}

/// A digest of [`Xor8`]: any single byte.
#[derive(Clone, Copy, PartialEq, Eq, Debug)]
pub struct Xor8Digest {
    byte: u8,
}

impl Digest for Xor8Digest {
    const SIZE: usize = 1;

    const EMPTY: Self = Xor8Digest { byte: 0 };

    ghost SIZE = { 1 };

    ghost EMPTY = { record { byte = 0 } };

    ghost bytes = { λ d. d.byte ∷ [] };

    ghost Spells = { λ b. length b ≡ 1 };

    fn as_bytes(&self) -> &[u8] {
        std::slice::from_ref(&self.byte)
    }

    fn from_bytes(spelling: &[u8]) -> Option<Self> {
        match spelling {
            [byte] => Some(Xor8Digest { byte: *byte }),
            _ => None,
        }
    }

    ghost small = { Prim.search rules };

    ghost nonempty = { Prim.search rules };

    ghost clone_is_same = { Prim.search rules };

    ghost bytes_spell = { Prim.search rules };

    ghost one_length = { Prim.search rules };

    ghost bytes_decide = { Prim.search rules };

    ghost eq_decides = { Prim.search rules };
}

/// The exclusive or of all bytes. For tests and small examples only: collisions are easy to
/// construct and to see.
#[derive(Clone, Copy, Debug)]
pub struct Xor8;

// The exclusive or of `start` and the bytes of a part.
fn xor_with(start: u8, part: &[u8]) -> u8
    ensures { result ≡ fold bit_xor start part.now }
{
    let mut all = start;
    for byte in part {
        all ^= *byte;
    }
    all
}

impl PlainHasher for Xor8 {
    type Digest = Xor8Digest;

    ghost digest_of = { λ m. record { byte = xor_of m } };

    fn hash(parts: &[&[u8]]) -> Xor8Digest {
        let mut byte = 0;
        for part in parts {
            byte = xor_with(byte, part);
        }
        Xor8Digest { byte }
    }

    fn hash_pair(a: &[&[u8]], b: &[&[u8]]) -> (Xor8Digest, Xor8Digest) {
        (Self::hash(a), Self::hash(b))
    }
}
