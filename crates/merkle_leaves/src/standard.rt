//! The hasher over a plain hash function.
ghost use Rattle.std.specs.Prelude.{◌≡◌, ◌<◌, ◌++◌, ◌∷◌, [], ℕ, ⊤, map};
ghost use Rattle.std.proofs.Common.{refl};
ghost use Rattle.merkle_base.specs.declared.family.Bagging.{Bagging};
ghost use Rattle.merkle_base.specs.Hashing.{IsOver};
ghost use Rattle.merkle_base.specs.Scheme.{scheme_of};
ghost use Rattle.merkle_digest.specs.Bytes.{joined_parts};
ghost use Rattle.merkle_leaves.specs.Standard.{standard};

use merkle_base::family::{Bagging, Family};
use merkle_base::position::Position;
use merkle_digest::digest::{Digest, PlainHasher};
use merkle_hasher::hasher::{Hasher, Parent};
use std::alloc::AllocError;
use std::marker::{Model, PhantomData};

/// The hasher that every family shares, over a plain hash function `H`.
///
/// A leaf is hashed as its position and its element, a parent node as its position and the digests
/// of its children, and a step of a fold as the two digests. Positions and counts are hashed as 8
/// bytes, the most significant first. Contracts model a `Standard` as its bagging.
///
/// # Examples
///
/// ```
/// let hasher = Standard::<Xor8>::new(Bagging::ForwardFold);
/// let position: mmr::Position = Position::new(3);
/// let leaf = hasher.leaf_digest(position, &[5]);
/// // The exclusive or of the 8 bytes of the position and the byte of the element.
/// assert!(rt; leaf.as_bytes() == [3 ^ 5].as_slice());
/// ```
pub struct Standard<H> {
    bagging: Bagging,
    of: PhantomData<H>,
}

impl<H> Model for Standard<H> {
    ghost use Rattle.merkle_base.specs.declared.family.Bagging.{Bagging};

    ghost Value = { Bagging };

    ghost view = { λ s. s.bagging };
}

impl<H> Drop for Standard<H> {
    fn drop(self) {
        let Standard { bagging: _, of: _ } = self;
    }
}

impl<H> Clone for Standard<H> {
    ghost is_clone = { λ x y. y ≡ x };

    ghost is_infallible = { λ _. ⊤ };

    fn clone(&self) -> Result<Self, AllocError> {
        Ok(Self::new(self.bagging))
    }
}

impl<H> Standard<H> {
    /// Creates a hasher that folds peaks by `bagging`.
    pub fn new(bagging: Bagging) -> Self
        ensures { result ≡ bagging }
    {
        Standard {
            bagging,
            of: PhantomData,
        }
    }

    /// Returns how the peaks are folded for a root.
    pub fn root_bagging(&self) -> Bagging
        ensures { result ≡ self.now }
    {
        self.bagging
    }
}

impl<H: PlainHasher> Standard<H> {
    /// Returns the digest of the concatenated parts.
    pub fn hash(&self, parts: &[&[u8]]) -> H::Digest
        ensures { result ≡ H.digest_of (joined_parts parts.now) }
    {
        H::hash(parts)
    }

    /// Returns the digest of `bytes`.
    pub fn digest(&self, bytes: &[u8]) -> H::Digest
        ensures { result ≡ H.digest_of bytes.now }
    {
        H::hash(&[bytes])
    }
}

fn hash_two_nodes<H: PlainHasher>(
    p: &[u8],
    a: &[u8],
    b: &[u8],
    q: &[u8],
    c: &[u8],
    d: &[u8],
) -> (H::Digest, H::Digest)
    ensures first { result.0 ≡ H.digest_of (p.now ++ a.now ++ b.now) }
    ensures second { result.1 ≡ H.digest_of (q.now ++ c.now ++ d.now) }
{
    H::hash_pair(&[p, a, b], &[q, c, d])
}

fn hash_three_nodes<H: PlainHasher>(
    p: &[u8],
    a: &[u8],
    b: &[u8],
    q: &[u8],
    c: &[u8],
    d: &[u8],
    r: &[u8],
    e: &[u8],
    f: &[u8],
) -> (H::Digest, H::Digest, H::Digest)
    ensures first { result.0 ≡ H.digest_of (p.now ++ a.now ++ b.now) }
    ensures second { result.1 ≡ H.digest_of (q.now ++ c.now ++ d.now) }
    ensures third { result.2 ≡ H.digest_of (r.now ++ e.now ++ f.now) }
{
    H::hash_three(&[p, a, b], &[q, c, d], &[r, e, f])
}

fn hash_four_nodes<H: PlainHasher>(
    p: &[u8],
    a: &[u8],
    b: &[u8],
    q: &[u8],
    c: &[u8],
    d: &[u8],
    r: &[u8],
    e: &[u8],
    f: &[u8],
    s: &[u8],
    g: &[u8],
    h: &[u8],
) -> (H::Digest, H::Digest, H::Digest, H::Digest)
    ensures first { result.0 ≡ H.digest_of (p.now ++ a.now ++ b.now) }
    ensures second { result.1 ≡ H.digest_of (q.now ++ c.now ++ d.now) }
    ensures third { result.2 ≡ H.digest_of (r.now ++ e.now ++ f.now) }
    ensures fourth { result.3 ≡ H.digest_of (s.now ++ g.now ++ h.now) }
{
    H::hash_four(&[p, a, b], &[q, c, d], &[r, e, f], &[s, g, h])
}

fn hash_four_leaves<H: PlainHasher>(
    p: &[u8],
    a: &[u8],
    q: &[u8],
    b: &[u8],
    r: &[u8],
    c: &[u8],
    s: &[u8],
    d: &[u8],
) -> (H::Digest, H::Digest, H::Digest, H::Digest)
    ensures first { result.0 ≡ H.digest_of (p.now ++ a.now) }
    ensures second { result.1 ≡ H.digest_of (q.now ++ b.now) }
    ensures third { result.2 ≡ H.digest_of (r.now ++ c.now) }
    ensures fourth { result.3 ≡ H.digest_of (s.now ++ d.now) }
{
    H::hash_four(&[p, a], &[q, b], &[r, c], &[s, d])
}

impl<F: Family, H: PlainHasher> Hasher<F> for Standard<H> {
    type Digest = H::Digest;

    ghost hashing = { λ _. standard H.digest_of H.Digest.bytes H.Digest.eq H.Digest.EMPTY };

    ghost bagging_of = { λ s. s };

    ghost scheme = { λ s. scheme_of (standard H.digest_of H.Digest.bytes H.Digest.eq H.Digest.EMPTY) s F.rule F.MAX_LEAVES F.DOMAIN };

    fn hash(&self, parts: &[&[u8]]) -> H::Digest {
        Standard::hash(self, parts)
    }

    fn root_bagging(&self) -> Bagging {
        Standard::root_bagging(self)
    }

    fn node_digest(&self, position: Position<F>, left: &H::Digest, right: &H::Digest) -> H::Digest
        ensures { result ≡ (standard H.digest_of H.Digest.bytes H.Digest.eq H.Digest.EMPTY).node position left.now right.now }
    {
        H::hash(&[
            &position.as_u64().to_be_bytes(),
            left.as_bytes(),
            right.as_bytes(),
        ])
    }

    fn node_digest_pair(&self, nodes: [Parent<F, H::Digest>; 2]) -> (H::Digest, H::Digest)
        ensures { let h = standard H.digest_of H.Digest.bytes H.Digest.eq H.Digest.EMPTY in (d : _) (e : _) → nodes ≡ d ∷ e ∷ []
            → (result.0 ≡ h.node d.0 d.1 d.2) × (result.1 ≡ h.node e.0 e.1 e.2) }
    {
        let [(p, a, b), (q, c, d)] = nodes;
        hash_two_nodes::<H>(
            &p.as_u64().to_be_bytes(),
            a.as_bytes(),
            b.as_bytes(),
            &q.as_u64().to_be_bytes(),
            c.as_bytes(),
            d.as_bytes(),
        )
    }

    fn node_digests_three(
        &self,
        nodes: &[Parent<F, H::Digest>],
    ) -> (H::Digest, H::Digest, H::Digest) {
        hash_three_nodes::<H>(
            &nodes[0].0.as_u64().to_be_bytes(),
            nodes[0].1.as_bytes(),
            nodes[0].2.as_bytes(),
            &nodes[1].0.as_u64().to_be_bytes(),
            nodes[1].1.as_bytes(),
            nodes[1].2.as_bytes(),
            &nodes[2].0.as_u64().to_be_bytes(),
            nodes[2].1.as_bytes(),
            nodes[2].2.as_bytes(),
        )
    }

    fn node_digests_four(
        &self,
        nodes: &[Parent<F, H::Digest>],
    ) -> (H::Digest, H::Digest, H::Digest, H::Digest) {
        hash_four_nodes::<H>(
            &nodes[0].0.as_u64().to_be_bytes(),
            nodes[0].1.as_bytes(),
            nodes[0].2.as_bytes(),
            &nodes[1].0.as_u64().to_be_bytes(),
            nodes[1].1.as_bytes(),
            nodes[1].2.as_bytes(),
            &nodes[2].0.as_u64().to_be_bytes(),
            nodes[2].1.as_bytes(),
            nodes[2].2.as_bytes(),
            &nodes[3].0.as_u64().to_be_bytes(),
            nodes[3].1.as_bytes(),
            nodes[3].2.as_bytes(),
        )
    }

    fn leaf_digest(&self, position: Position<F>, element: &[u8]) -> H::Digest
        ensures { result ≡ (standard H.digest_of H.Digest.bytes H.Digest.eq H.Digest.EMPTY).leaf position element.now }
    {
        H::hash(&[&position.as_u64().to_be_bytes(), element])
    }

    fn leaf_digests_four(
        &self,
        leaves: &[(Position<F>, &[u8])],
    ) -> (H::Digest, H::Digest, H::Digest, H::Digest) {
        hash_four_leaves::<H>(
            &leaves[0].0.as_u64().to_be_bytes(),
            leaves[0].1,
            &leaves[1].0.as_u64().to_be_bytes(),
            leaves[1].1,
            &leaves[2].0.as_u64().to_be_bytes(),
            leaves[2].1,
            &leaves[3].0.as_u64().to_be_bytes(),
            leaves[3].1,
        )
    }

    fn hashes_together(&self) -> bool {
        H::hashes_together()
    }

    fn leaf_block_count(&self, length: usize) -> usize {
        // The element is hashed after its position, which has 8 bytes.
        H::block_count(length.saturating_add(8))
    }

    fn pays_together(&self, a: usize, b: usize, c: usize, d: usize) -> bool {
        H::pays_together(a, b, c, d)
    }

    fn digest(&self, bytes: &[u8]) -> H::Digest {
        Standard::digest(self, bytes)
    }

    fn fold(&self, acc: &H::Digest, peak: &H::Digest) -> H::Digest {
        H::hash(&[acc.as_bytes(), peak.as_bytes()])
    }

    ghost clone_keeps = { λ x y e. (refl, e) };

    ghost scheme_is = { λ x. refl };

    ghost over_digest = { λ x. record { bytes = refl; same = refl; empty = refl } };
}
