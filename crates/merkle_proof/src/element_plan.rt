//! Plans of proofs of a single leaf.
ghost use Rattle.std.specs.Prelude.{◌≡◌, ◌≢◌, ◌<◌, ◌≤◌, ◌+◌, length, IfOk, IfErr, IsOkUnless};
ghost use Rattle.std.specs.List.Sorted.{IsStrictlyIncreasing};
ghost use Rattle.merkle_forest_theory.specs.FewPeaks.{FewPeaks};
ghost use Rattle.merkle_proof.specs.ElementPlans.{IsElementRefusal};
ghost use Rattle.merkle_scattered.specs.Positions.{range_positions};

use crate::range_plan::RangePlan;
use merkle_base::error::Error;
use merkle_base::family::Family;
use merkle_base::location::Location;
use merkle_base::position::Position;
use std::alloc::Global;
use std::marker::Model;

/// What a proof of a single leaf reads: the plan of the range of that leaf alone.
///
/// Contracts model it as the location of the leaf and the leaf count of the list.
#[derive(Debug, Drop)]
pub struct ElementPlan<F: Family> {
    plan: RangePlan<F>,
    location: Location<F>,
}

impl<F: Family> Model for ElementPlan<F> {
    ghost use Rattle.std.specs.Prelude.{◌≡◌};
    ghost use Rattle.merkle_proof.specs.ElementPlans.{OneLeaf, leaf_range};

    ghost Value = { OneLeaf };

    ghost view = { λ p. record { leaves = p.plan.leaves; location = p.location } };

    ghost invariant = { λ p. p.plan ≡ leaf_range (record { leaves = p.plan.leaves; location = p.location }) };
}

impl<F: Family> ElementPlan<F> {
    /// Creates the plan of a proof of the leaf at `location` of a list of `leaves` leaves.
    ///
    /// # Errors
    ///
    /// The first that applies:
    /// - `LocationOverflow` of the location if it is not below [`MAX_LEAVES`](Family::MAX_LEAVES)
    /// - `RangeOutOfBounds` of the location after it if the list has no such leaf
    /// - `LocationOverflow` of the leaf count if it exceeds [`MAX_LEAVES`](Family::MAX_LEAVES)
    /// - `OutOfMemory` if a memory request is refused
    pub fn new(alloc: Global, leaves: Location<F>, location: Location<F>) -> Result<Self, Error<F>>
        ensures ok { IfOk result (λ p. p ≡ record { leaves = leaves; location = location }) }
        ensures within { IfOk result (λ _. (location < leaves) × (leaves ≤ F.MAX_LEAVES)) }
        ensures err { IfErr result (λ e. e ≢ Error.OutOfMemory → IsElementRefusal F.MAX_LEAVES leaves location e) }
    {
        let Some(end) = location.checked_add(1) else {
            return Err(Error::LocationOverflow(location));
        };
        match RangePlan::new(alloc, leaves, location..end) {
            Ok(plan) => Ok(ElementPlan { plan, location }),
            Err(error) => Err(error),
        }
    }

    /// Returns the location of the leaf.
    pub fn location(&self) -> Location<F>
        ensures { result ≡ self.now.location }
    {
        self.location
    }

    /// Returns the positions of all nodes that a proof of the leaf reads, ascending and each once:
    /// the peaks that the leaf is not below, and the siblings on its path.
    ///
    /// They do not depend on the bagging or the number of inactive peaks. There are at most
    /// [`MAX_PROOF_DIGESTS_PER_ELEMENT`](crate::proof::MAX_PROOF_DIGESTS_PER_ELEMENT).
    ///
    /// # Errors
    ///
    /// - `OutOfMemory` if a memory request is refused
    pub fn positions(&self) -> Result<Vec<Position<F>>, Error<F>>
        ensures ok { IfOk result (λ v. v.items ≡ range_positions F.rule self.now.leaves self.now.location (self.now.location + 1)) }
        ensures rises { IfOk result (λ v. IsStrictlyIncreasing v.items) }
        ensures at_most_122 { FewPeaks F.rule F.MAX_LEAVES → IfOk result (λ v. length v.items ≤ 122) }
        ensures refused { IsOkUnless result Error.OutOfMemory }
    {
        self.plan.positions()
    }
}

/// The same plan, as the plan of a range of one leaf.
impl<F: Family> From<ElementPlan<F>> for RangePlan<F> {
    ghost use Rattle.std.specs.Prelude.{◌≡◌};
    ghost use Rattle.merkle_proof.specs.ElementPlans.{leaf_range};

    ghost from_gives = { λ p r. r ≡ leaf_range p };

    fn from(plan: ElementPlan<F>) -> Self {
        plan.plan
    }
}
