//! Roots of older states, over any reader of nodes.
ghost use Rattle.std.specs.Prelude.{◌≡◌, ◌≤◌, ℕ, Some, map, take, IfOk, IfErr};
ghost use Rattle.merkle_base.specs.Places.{peak_positions};
ghost use Rattle.merkle_proof.specs.RangePlans.{IsFirstMissing};
ghost use Rattle.merkle_verification.specs.HistoricalRoots.{IsBuiltRoot, IsHistoricalRoot, GrantsRoot, RefusesRoot};

use crate::readers::peak_count;
use merkle_base::error::Error;
use merkle_base::family::{Family, MAX_PINNED_NODES};
use merkle_base::location::Location;
use merkle_digest::digest::Digest;
use merkle_hasher::hasher::Hasher;
use merkle_hasher::read::Readable;

// Returns the first `count` digests.
fn front<D>(digests: &[D; MAX_PINNED_NODES], count: usize) -> &[D]
    requires { count ≤ MAX_PINNED_NODES }
    ensures { result.now ≡ take count digests.now }
{
    &digests[..count]
}

// Writes the digests of the peaks of `leaves` leaves, the oldest first, and returns how many there
// are.
fn read_peaks<R: Readable>(
    reader: &R,
    leaves: Location<R::Family>,
    digests: &mut [R::Digest; MAX_PINNED_NODES],
) -> Result<usize, Error<R::Family>>
    requires { leaves ≤ R.Family.MAX_LEAVES }
    ensures at_most_max_pinned { IfOk result (λ count. count ≤ MAX_PINNED_NODES) }
    ensures read { IfOk result (λ count. map Some (take count digests.new) ≡ map (R.node reader.now) (peak_positions R.Family.rule leaves)) }
    ensures missing { IfErr result (λ e. (p : ℕ) × (e ≡ Error.ElementPruned p)
        × IsFirstMissing (λ q o. o ≡ R.node reader.now q) (peak_positions R.Family.rule leaves) p) }
{
    let mut count = 0;
    for position in R::Family::nodes_to_pin(leaves) {
        match reader.get_node(position) {
            Some(digest) => {
                digests[count] = digest;
                count += 1;
            }
            None => return Err(Error::ElementPruned(position)),
        }
    }
    Ok(count)
}

/// Returns the root of an older state with `leaves` leaves, from the nodes of a reader that may
/// have more, with `inactive` inactive peaks.
///
/// If the reader shows a list, this is the root of the list of its first `leaves` leaves. Only the
/// peaks of `leaves` leaves are read, which are at most 64, each once. No memory is requested.
///
/// # Errors
///
/// The first that applies:
/// - `LocationOverflow` of `leaves` if it exceeds [`MAX_LEAVES`](Family::MAX_LEAVES)
/// - `InvalidProof` if `inactive` exceeds the number of peaks
/// - `ElementPruned` of the position of the oldest peak that the reader has no node for
pub fn historical_root<R: Readable, H: Hasher<R::Family, Digest = R::Digest>>(
    hasher: &H,
    reader: &R,
    leaves: Location<R::Family>,
    inactive: usize,
) -> Result<R::Digest, Error<R::Family>>
    ensures within { IfOk result (λ _. leaves ≤ R.Family.MAX_LEAVES) }
    ensures built { IfOk result (IsBuiltRoot (H.scheme hasher.now) R.Family.rule (R.node reader.now) leaves inactive) }

    // It is the root of the first leaves of every list that the reader shows.
    ensures honest { IsHistoricalRoot (H.hashing hasher.now) (H.scheme hasher.now) R.Family.rule
        (R.size reader.now) (R.node reader.now) leaves inactive result }
    ensures held { GrantsRoot R.Family.rule R.Family.MAX_LEAVES (R.node reader.now) leaves inactive result }
    ensures err { RefusesRoot R.Family.rule R.Family.MAX_LEAVES leaves inactive (R.node reader.now) result }
{
    if !leaves.is_valid() {
        return Err(Error::LocationOverflow(leaves));
    }
    if inactive > peak_count(leaves) {
        return Err(Error::InvalidProof);
    }
    let mut digests = [R::Digest::EMPTY; MAX_PINNED_NODES];
    match read_peaks(reader, leaves, &mut digests) {
        Ok(count) => hasher.root(leaves, inactive, front(&digests, count)),
        Err(error) => Err(error),
    }
}
