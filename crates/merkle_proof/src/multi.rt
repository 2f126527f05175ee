//! The positions of the nodes that a proof of scattered leaves reads.
ghost use Rattle.std.specs.Prelude.{◌≡◌, ◌≢◌, ◌+◌, ◌*◌, ◌<◌, ◌≤◌, ◌∷◌, List, ℕ, Some, IfOk, IfErr, length};
ghost use Rattle.std.specs.List.{AllByRecursion};
ghost use Rattle.std.specs.List.Sorted.{IsStrictlyIncreasing};
ghost use Rattle.merkle_base.specs.Cases.{first_case};
ghost use Rattle.merkle_forest_theory.specs.Ascending.{AscendsFrom};
ghost use Rattle.merkle_forest_theory.specs.FewPeaks.{FewPeaks};
ghost use Rattle.merkle_claim_theory.specs.Multiproof.{multi_positions};
ghost use Rattle.merkle_scattered.specs.MultiPositions.{AreLocations, location_refusals, later_refusals, multi_refusals};

use merkle_base::error::Error;
use merkle_base::family::Family;
use merkle_base::location::Location;
use merkle_base::position::Position;
use merkle_scattered::multi::scattered_positions;
use merkle_scattered::positions::ascending;
use std::alloc::Global;

/// Returns the positions of all nodes that a proof of the leaves at `locations` of a list of
/// `leaves` leaves reads, ascending and each once.
///
/// They are those that the proofs of the leaves one by one read: the peaks that the leaf is not
/// below, and the siblings on its path. They do not depend on the bagging or the number of inactive
/// peaks. There are at most 122, [`MAX_PROOF_DIGESTS_PER_ELEMENT`](crate::proof::MAX_PROOF_DIGESTS_PER_ELEMENT), for each location.
///
/// # Errors
///
/// The first that applies:
/// - `Empty` if there are no locations
/// - `LocationOverflow` of the first location if it is not below [`MAX_LEAVES`](Family::MAX_LEAVES)
/// - `RangeOutOfBounds` of the location after the first one if the list has no leaf at the first
///   one
/// - `LocationOverflow` of the leaf count if it exceeds [`MAX_LEAVES`](Family::MAX_LEAVES)
///
/// then, for each further location in turn:
/// - `DuplicateLocation` if it equals the location before it
/// - `UnsortedLocation` if it is less than the location before it
/// - `LocationOverflow` if it is not below [`MAX_LEAVES`](Family::MAX_LEAVES)
/// - `RangeOutOfBounds` of the location after it if the list has no leaf at it
///
/// `OutOfMemory` at any point if a memory request is refused.
pub fn multi_proof_positions<F: Family>(
    alloc: Global,
    leaves: Location<F>,
    locations: &[Location<F>],
) -> Result<Vec<Position<F>>, Error<F>>
    ensures ok { IfOk result (λ v. v.items ≡ multi_positions F.rule leaves locations.now) }
    ensures rises { IfOk result (λ v. IsStrictlyIncreasing v.items) }
    ensures within { IfOk result (λ _. AreLocations F.MAX_LEAVES leaves locations.now) }
    ensures at_most_122_each { FewPeaks F.rule F.MAX_LEAVES → IfOk result (λ v. length v.items ≤ 122 * length locations.now) }
    ensures err { IfErr result (λ e. e ≢ Error.OutOfMemory → first_case (multi_refusals F.MAX_LEAVES leaves locations.now) ≡ Some e) }
{
    if let Err(error) = check_locations(leaves, locations) {
        return Err(error);
    }
    let positions = scattered_positions(alloc, leaves, locations)?;
    Ok(ascending(positions))
}

// Checks that the locations strictly ascend and are those of leaves of a list of `leaves` leaves.
fn check_locations<F: Family>(
    leaves: Location<F>,
    locations: &[Location<F>],
) -> Result<(), Error<F>>
    ensures ok { IfOk result (λ _. AreLocations F.MAX_LEAVES leaves locations.now) }
    ensures err { IfErr result (λ e. first_case (multi_refusals F.MAX_LEAVES leaves locations.now) ≡ Some e) }
{
    let Some((first, others)) = locations.split_first() else {
        return Err(Error::Empty);
    };
    if let Err(error) = check_location(leaves, *first) {
        return Err(error);
    }
    if !leaves.is_valid() {
        return Err(Error::LocationOverflow(leaves));
    }
    check_later_locations(leaves, *first, others)
}

// Checks that the locations after `first` go on ascending and are those of leaves.
fn check_later_locations<F: Family>(
    leaves: Location<F>,
    first: Location<F>,
    others: &[Location<F>],
) -> Result<(), Error<F>>
    ensures ok { IfOk result (λ _. AscendsFrom (first + 1) others.now × AllByRecursion (λ i. i < leaves) others.now) }
    ensures err { IfErr result (λ e. first_case (later_refusals F.MAX_LEAVES leaves first others.now) ≡ Some e) }
{
    let mut before = first;
    for location in others {
        if let Err(error) = check_later_location(leaves, before, *location) {
            return Err(error);
        }
        before = *location;
    }
    Ok(())
}

// Checks that a location is greater than the one before it and is that of a leaf.
fn check_later_location<F: Family>(
    leaves: Location<F>,
    before: Location<F>,
    location: Location<F>,
) -> Result<(), Error<F>>
    ensures ok { IfOk result (λ _. (before < location) × (location < F.MAX_LEAVES) × (location < leaves)) }
    ensures err { IfErr result (λ e. (more : List ℕ) → first_case (later_refusals F.MAX_LEAVES leaves before (location ∷ more)) ≡ Some e) }
{
    if location == before {
        return Err(Error::DuplicateLocation(location));
    }
    if location < before {
        return Err(Error::UnsortedLocation(location));
    }
    check_location(leaves, location)
}

// Checks that a location is that of one of the leaves.
fn check_location<F: Family>(leaves: Location<F>, location: Location<F>) -> Result<(), Error<F>>
    ensures ok { IfOk result (λ _. (location < F.MAX_LEAVES) × (location < leaves)) }
    ensures err { IfErr result (λ e. first_case (location_refusals F.MAX_LEAVES leaves location) ≡ Some e) }
{
    if !location.is_valid_index() {
        return Err(Error::LocationOverflow(location));
    }
    if location >= leaves {
        return Err(Error::RangeOutOfBounds(location + 1));
    }
    Ok(())
}
