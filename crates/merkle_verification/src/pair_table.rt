//! Digests of nodes, found by position.
ghost use Rattle.std.specs.Prelude.{◌≡◌, IfOk};
ghost use Rattle.merkle_store_theory.specs.StoreProof.{found_at};
ghost use Rattle.merkle_verification.specs.PairReads.{AnswersPairs};

use merkle_base::family::Family;
use merkle_base::position::Position;
use merkle_digest::digest::Digest;
use std::alloc::{AllocError, Global};
use std::collections::HashMap;
use std::marker::Model;

/// Pairs of a position and a digest, in order, with the digest found by position.
///
/// Contracts model it as the list of the pairs.
#[derive(Debug, Drop)]
pub(crate) struct PairTable<F: Family, D: Digest> {
    pairs: Vec<(Position<F>, D)>,
    // the digest of the first pair at each position
    digests: HashMap<Position<F>, D>,
}

impl<F: Family, D: Digest> Model for PairTable<F, D> {
    ghost use Rattle.std.specs.Prelude.{ℕ, List};
    ghost use Rattle.std.specs.Coded.{coded×, coded_ℕ, coded_list};
    ghost use Rattle.merkle_verification.specs.PairReads.{AnswersPairs};

    ghost Value = { List (ℕ × D) };

    ghost coded = { coded_list (coded× coded_ℕ D.code) };

    ghost view = { λ t. t.pairs.items };

    ghost invariant = { λ t. AnswersPairs t.digests.entries t.pairs.items };
}

// Maps each position to the digest of its first pair.
fn by_position<F: Family, D: Digest>(
    alloc: Global,
    pairs: &[(Position<F>, D)],
) -> Result<HashMap<Position<F>, D>, AllocError>
    ensures { IfOk result (λ m. AnswersPairs m.entries pairs.now) }
{
    let mut digests = HashMap::new(alloc);
    let mut index = pairs.len();
    while index > 0 {
        index -= 1;
        let (position, digest) = pairs[index];
        digests.insert(position, digest)?;
    }
    Ok(digests)
}

impl<F: Family, D: Digest> PairTable<F, D> {
    /// Creates a table of the pairs. Fails only if a memory request is refused.
    pub(crate) fn new(pairs: Vec<(Position<F>, D)>) -> Result<Self, AllocError>
        ensures { IfOk result (λ t. t ≡ pairs.items) }
    {
        let digests = by_position(*pairs.allocator(), &pairs)?;
        Ok(PairTable { pairs, digests })
    }

    /// Returns the digest of the first pair at `position`.
    pub(crate) fn get(&self, position: Position<F>) -> Option<D>
        ensures { result ≡ found_at self.now position }
    {
        self.digests.get(&position).copied()
    }

    /// Returns the allocator of the table.
    pub(crate) fn allocator(&self) -> Global {
        *self.pairs.allocator()
    }
}
