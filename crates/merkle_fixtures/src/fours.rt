//! A hasher that counts its calls for four leaves, for one leaf, for a pair of nodes and for one node.
ghost use Rattle.std.specs.Prelude.{◌≡◌, ◌∷◌, [], length, map};
ghost use Rattle.std.proofs.Common.{refl, rules};
ghost use Rattle.merkle_base.specs.declared.family.Bagging.{Bagging};
ghost use Rattle.merkle_base.specs.Scheme.{scheme_of};

use crate::calls::count;
use merkle_base::family::{Bagging, Family};
use merkle_base::position::Position;
use merkle_digest::digest::{Xor8, Xor8Digest};
use merkle_hasher::hasher::Hasher;
use merkle_leaves::standard::Standard;
use merkle_sha256::sha256::Sha256Plain;
use std::cell::Cell;

/// A hasher that counts its calls for four leaves, for one leaf, for a pair of nodes and for one node. It says that it hashes
/// four leaves together where SHA-256 does, and folds peaks from left to right.
#[derive(Clone, Copy)]
pub struct Fours<'a> {
    /// Whether it says that it computes four digests together.
    pub together: bool,
    /// The number of calls for four leaves with elements of equal length.
    pub equal: &'a Cell<u64>,
    /// The number of other calls for four leaves.
    pub unequal: &'a Cell<u64>,
    /// The number of calls for one leaf.
    pub leaves: &'a Cell<u64>,
    /// The number of calls for a pair of nodes; four nodes are two pairs, and three are a pair and one more.
    pub pairs: &'a Cell<u64>,
    /// The number of calls for one node.
    pub nodes: &'a Cell<u64>,
}

fn plain() -> Standard<Xor8>
    ensures { result ≡ Bagging.ForwardFold }
{
    Standard::new(Bagging::ForwardFold)
}

// The hasher by whose rule it says what is hashed together.
fn sha256() -> Standard<Sha256Plain> {
    Standard::new(Bagging::ForwardFold)
}

// Whether all elements have the same length.
fn have_equal_lengths<F>(leaves: &[(Position<F>, &[u8])]) -> bool {
    let Some((first, others)) = leaves.split_first() else {
        return true;
    };
    for leaf in others {
        if leaf.1.len() != first.1.len() {
            return false;
        }
    }
    true
}

impl<F: Family> Hasher<F> for Fours<'_> {
    type Digest = Xor8Digest;

    ghost hashing = { λ _. ⟦<Standard<Xor8> as Hasher<F>>⟧.hashing Bagging.ForwardFold };

    ghost bagging_of = { λ _. Bagging.ForwardFold };

    ghost scheme = { λ _. scheme_of (⟦<Standard<Xor8> as Hasher<F>>⟧.hashing Bagging.ForwardFold) Bagging.ForwardFold F.rule F.MAX_LEAVES F.DOMAIN };

    fn hash(&self, parts: &[&[u8]]) -> Xor8Digest {
        plain().hash(parts)
    }

    fn root_bagging(&self) -> Bagging {
        Bagging::ForwardFold
    }

    fn node_digest(
        &self,
        position: Position<F>,
        left: &Xor8Digest,
        right: &Xor8Digest,
    ) -> Xor8Digest
        ensures { result ≡ (⟦<Standard<Xor8> as Hasher<F>>⟧.hashing Bagging.ForwardFold).node position left.now right.now }
    {
        count(self.nodes);
        plain().node_digest(position, left, right)
    }

    fn node_digest_pair(
        &self,
        nodes: [(Position<F>, Xor8Digest, Xor8Digest); 2],
    ) -> (Xor8Digest, Xor8Digest)
        ensures { let h = ⟦<Standard<Xor8> as Hasher<F>>⟧.hashing Bagging.ForwardFold in (d : _) (e : _) → nodes ≡ d ∷ e ∷ []
            → (result.0 ≡ h.node d.0 d.1 d.2) × (result.1 ≡ h.node e.0 e.1 e.2) }
    {
        count(self.pairs);
        plain().node_digest_pair(nodes)
    }

    fn leaf_digest(&self, position: Position<F>, element: &[u8]) -> Xor8Digest
        ensures { result ≡ (⟦<Standard<Xor8> as Hasher<F>>⟧.hashing Bagging.ForwardFold).leaf position element.now }
    {
        count(self.leaves);
        plain().leaf_digest(position, element)
    }

    fn leaf_digests_four(
        &self,
        leaves: &[(Position<F>, &[u8])],
    ) -> (Xor8Digest, Xor8Digest, Xor8Digest, Xor8Digest)
        requires { length leaves.now ≡ 4 }
        ensures { map (λ l. (⟦<Standard<Xor8> as Hasher<F>>⟧.hashing Bagging.ForwardFold).leaf l.0 l.1.now) leaves.now
            ≡ result.0 ∷ result.1 ∷ result.2 ∷ result.3 ∷ [] }
    {
        if have_equal_lengths(leaves) {
            count(self.equal);
        } else {
            count(self.unequal);
        }
        plain().leaf_digests_four(leaves)
    }

    fn hashes_together(&self) -> bool {
        self.together
    }

    fn leaf_block_count(&self, length: usize) -> usize {
        Hasher::<F>::leaf_block_count(&sha256(), length)
    }

    fn pays_together(&self, a: usize, b: usize, c: usize, d: usize) -> bool {
        Hasher::<F>::pays_together(&sha256(), a, b, c, d)
    }

    fn digest(&self, bytes: &[u8]) -> Xor8Digest {
        plain().digest(bytes)
    }

    fn fold(&self, acc: &Xor8Digest, peak: &Xor8Digest) -> Xor8Digest {
        Hasher::<F>::fold(&plain(), acc, peak)
    }

    ghost clone_keeps = { Prim.search rules };

    ghost scheme_is = { λ x. refl };

    ghost over_digest = { λ x. record { bytes = refl; same = refl; empty = refl } };
}
