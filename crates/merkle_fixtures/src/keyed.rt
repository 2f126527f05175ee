//! A hasher whose digests depend on its value.
ghost use Rattle.std.specs.Prelude.{◌≡◌, ◌∷◌, []};
ghost use Rattle.std.proofs.Common.{refl, rules};
ghost use Rattle.merkle_base.specs.Scheme.{scheme_of};
ghost use Rattle.merkle_fixtures.specs.Masked.{keyed};

use merkle_base::family::{Bagging, Family};
use merkle_base::position::Position;
use merkle_digest::digest::{Digest, PlainHasher, Xor8, Xor8Digest};
use merkle_hasher::hasher::Hasher;
use merkle_leaves::standard::Standard;

/// The hasher over [`Xor8`] with a key: each digest is the exclusive or of the key and the digest
/// of [`Standard`].
#[derive(Clone, Copy, Debug)]
pub struct Keyed {
    key: u8,
    bagging: Bagging,
}

impl Keyed {
    /// Creates the hasher with this key that folds peaks by `bagging`.
    pub fn new(key: u8, bagging: Bagging) -> Self
        ensures { result ≡ record { key = key; bagging = bagging } }
    {
        Keyed { key, bagging }
    }

    // Returns the exclusive or of the key and a digest.
    fn mask(&self, digest: Xor8Digest) -> Xor8Digest
        ensures { result ≡ ⟦<Xor8 as PlainHasher>⟧.digest_of (self.now.key ∷ ⟦<Xor8Digest as Digest>⟧.bytes digest) }
    {
        Xor8::hash(&[&[self.key], digest.as_bytes()])
    }

    // Returns the hasher without a key.
    fn plain(&self) -> Standard<Xor8>
        ensures { result ≡ self.now.bagging }
    {
        Standard::new(self.bagging)
    }
}

impl<F: Family> Hasher<F> for Keyed {
    type Digest = Xor8Digest;

    ghost hashing = { λ s. keyed (⟦<Standard<Xor8> as Hasher<F>>⟧.hashing s.bagging) s.key };

    ghost bagging_of = { λ s. s.bagging };

    ghost scheme = { λ s. scheme_of (keyed (⟦<Standard<Xor8> as Hasher<F>>⟧.hashing s.bagging) s.key) s.bagging F.rule F.MAX_LEAVES F.DOMAIN };

    fn hash(&self, parts: &[&[u8]]) -> Xor8Digest {
        self.mask(self.plain().hash(parts))
    }

    fn root_bagging(&self) -> Bagging {
        self.bagging
    }

    fn node_digest(
        &self,
        position: Position<F>,
        left: &Xor8Digest,
        right: &Xor8Digest,
    ) -> Xor8Digest
        ensures { result ≡ (keyed (⟦<Standard<Xor8> as Hasher<F>>⟧.hashing self.now.bagging) self.now.key).node position left.now right.now }
    {
        self.mask(self.plain().node_digest(position, left, right))
    }

    fn node_digest_pair(
        &self,
        nodes: [(Position<F>, Xor8Digest, Xor8Digest); 2],
    ) -> (Xor8Digest, Xor8Digest)
        ensures { let h = keyed (⟦<Standard<Xor8> as Hasher<F>>⟧.hashing self.now.bagging) self.now.key in (d : _) (e : _) → nodes ≡ d ∷ e ∷ []
            → (result.0 ≡ h.node d.0 d.1 d.2) × (result.1 ≡ h.node e.0 e.1 e.2) }
    {
        let [(p, a, b), (q, c, d)] = nodes;
        (self.node_digest(p, &a, &b), self.node_digest(q, &c, &d))
    }

    fn leaf_digest(&self, position: Position<F>, element: &[u8]) -> Xor8Digest
        ensures { result ≡ (keyed (⟦<Standard<Xor8> as Hasher<F>>⟧.hashing self.now.bagging) self.now.key).leaf position element.now }
    {
        self.mask(self.plain().leaf_digest(position, element))
    }

    fn digest(&self, bytes: &[u8]) -> Xor8Digest {
        self.mask(self.plain().digest(bytes))
    }

    fn fold(&self, acc: &Xor8Digest, peak: &Xor8Digest) -> Xor8Digest {
        self.mask(Hasher::<F>::fold(&self.plain(), acc, peak))
    }

    ghost clone_keeps = { Prim.search rules };

    ghost scheme_is = { λ x. refl };

    ghost over_digest = { λ x. record { bytes = refl; same = refl; empty = refl } };
}
