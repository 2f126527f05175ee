//! A hasher that counts its calls, and notes the leaves whose digests it computes.
ghost use Rattle.std.specs.Prelude.{◌≡◌, ◌∷◌, []};
ghost use Rattle.std.proofs.Common.{refl, rules};
ghost use Rattle.merkle_base.specs.Scheme.{scheme_of};

use crate::calls::count;
use merkle_base::family::{Bagging, Family};
use merkle_base::position::Position;
use merkle_digest::digest::{Xor8, Xor8Digest};
use merkle_hasher::hasher::Hasher;
use merkle_leaves::standard::Standard;
use std::cell::Cell;

/// A hasher that counts the pairs of nodes and the single nodes that it computes, and notes the position of each leaf, in the order
/// of its calls. It has the default body of each method that has one.
#[derive(Clone, Copy)]
pub struct Counting<'a> {
    /// How peaks are folded.
    pub bagging: Bagging,
    /// The number of pairs of nodes that were computed together.
    pub pairs: &'a Cell<u64>,
    /// The number of nodes that were computed alone.
    pub singles: &'a Cell<u64>,
    /// The number of leaves.
    pub leaves: &'a Cell<u64>,
    /// The positions of the first leaves, as many as there is room for.
    pub positions: &'a [Cell<u64>],
}

impl Counting<'_> {
    fn plain(&self) -> Standard<Xor8>
        ensures { result ≡ self.now.bagging }
    {
        Standard::new(self.bagging)
    }

    // Notes the position of the next leaf, if there is room.
    fn note(&self, position: u64) {
        if let Some(next) = self.positions.get(self.leaves.get() as usize) {
            next.set(position);
        }
        count(self.leaves);
    }
}

impl<F: Family> Hasher<F> for Counting<'_> {
    type Digest = Xor8Digest;

    ghost hashing = { λ s. ⟦<Standard<Xor8> as Hasher<F>>⟧.hashing s.bagging };

    ghost bagging_of = { λ s. s.bagging };

    ghost scheme = { λ s. scheme_of (⟦<Standard<Xor8> as Hasher<F>>⟧.hashing s.bagging) s.bagging F.rule F.MAX_LEAVES F.DOMAIN };

    fn hash(&self, parts: &[&[u8]]) -> Xor8Digest {
        self.plain().hash(parts)
    }

    fn root_bagging(&self) -> Bagging {
        self.bagging
    }

    fn node_digest(
        &self,
        position: Position<F>,
        left: &Xor8Digest,
        right: &Xor8Digest,
    ) -> Xor8Digest
        ensures { result ≡ (⟦<Standard<Xor8> as Hasher<F>>⟧.hashing self.now.bagging).node position left.now right.now }
    {
        count(self.singles);
        self.plain().node_digest(position, left, right)
    }

    fn node_digest_pair(
        &self,
        nodes: [(Position<F>, Xor8Digest, Xor8Digest); 2],
    ) -> (Xor8Digest, Xor8Digest)
        ensures { let h = ⟦<Standard<Xor8> as Hasher<F>>⟧.hashing self.now.bagging in (d : _) (e : _) → nodes ≡ d ∷ e ∷ []
            → (result.0 ≡ h.node d.0 d.1 d.2) × (result.1 ≡ h.node e.0 e.1 e.2) }
    {
        count(self.pairs);
        self.plain().node_digest_pair(nodes)
    }

    fn leaf_digest(&self, position: Position<F>, element: &[u8]) -> Xor8Digest
        ensures { result ≡ (⟦<Standard<Xor8> as Hasher<F>>⟧.hashing self.now.bagging).leaf position element.now }
    {
        self.note(position.as_u64());
        self.plain().leaf_digest(position, element)
    }

    fn digest(&self, bytes: &[u8]) -> Xor8Digest {
        self.plain().digest(bytes)
    }

    fn fold(&self, acc: &Xor8Digest, peak: &Xor8Digest) -> Xor8Digest {
        Hasher::<F>::fold(&self.plain(), acc, peak)
    }

    ghost clone_keeps = { Prim.search rules };

    ghost scheme_is = { λ x. refl };

    ghost over_digest = { λ x. record { bytes = refl; same = refl; empty = refl } };
}
