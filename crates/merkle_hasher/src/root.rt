//! The root over the digests of peaks, and the folds that it is made of.
ghost use Rattle.std.specs.Prelude.{◌≡◌, ◌+◌, ◌≤◌, ◌++◌, ◌∷◌, None, Some, length, fold, option_map, IfOk};
ghost use Rattle.merkle_base.specs.Hashing.{Hashing};
ghost use Rattle.merkle_base.specs.Root.{right_fold, folded, root_string};

use crate::hasher::Hasher;
use merkle_base::error::OutOfMemory;
use merkle_base::family::{Bagging, Family};
use merkle_base::location::Location;
use merkle_digest::digest::Digest;
use std::alloc::Global;

// The root of a structure without leaves.
pub(crate) fn empty_root<F: Family, T: Hasher<F>>(
    hasher: &T,
    bagging: Bagging,
    leaves: Location<F>,
) -> T::Digest
    ensures { result ≡ (T.hashing hasher.now).hash (root_string (T.hashing hasher.now) F.DOMAIN bagging leaves 0 None) }
{
    hash_two(
        hasher,
        &[F::DOMAIN, bagging.domain()],
        &leaves.as_u64().to_be_bytes(),
    )
}

// The root over the digest that the peaks were folded to.
pub(crate) fn root_of_folded<F: Family, T: Hasher<F>>(
    hasher: &T,
    bagging: Bagging,
    leaves: Location<F>,
    committed: usize,
    folded: &T::Digest,
) -> T::Digest
    ensures { result ≡ (T.hashing hasher.now).hash (root_string (T.hashing hasher.now) F.DOMAIN bagging leaves committed (Some folded.now)) }
{
    let head = [F::DOMAIN, bagging.domain()];
    let leaves = leaves.as_u64().to_be_bytes();
    if committed == 0 {
        hash_three(hasher, &head, &leaves, folded.as_bytes())
    } else {
        hash_four(
            hasher,
            &head,
            &leaves,
            &(committed as u64).to_be_bytes(),
            folded.as_bytes(),
        )
    }
}

fn hash_two<F: Family, T: Hasher<F>>(hasher: &T, a: &[u8], b: &[u8]) -> T::Digest
    ensures { result ≡ (T.hashing hasher.now).hash (a.now ++ b.now) }
{
    hasher.hash(&[a, b])
}

fn hash_three<F: Family, T: Hasher<F>>(hasher: &T, a: &[u8], b: &[u8], c: &[u8]) -> T::Digest
    ensures { result ≡ (T.hashing hasher.now).hash (a.now ++ b.now ++ c.now) }
{
    hasher.hash(&[a, b, c])
}

fn hash_four<F: Family, T: Hasher<F>>(
    hasher: &T,
    a: &[u8],
    b: &[u8],
    c: &[u8],
    d: &[u8],
) -> T::Digest
    ensures { result ≡ (T.hashing hasher.now).hash (a.now ++ b.now ++ c.now ++ d.now) }
{
    hasher.hash(&[a, b, c, d])
}

/// Returns the bytes that a root hashes: the byte of the family, that of the bagging, the leaf
/// count, and, where there are peaks, the number of inactive peaks unless it is 0, and the digest
/// that the peaks are folded to.
///
/// The numbers are written as 8 bytes, the most significant first. Without a folded digest it is
/// the string of a structure without peaks, whatever `committed` is.
///
/// # Errors
///
/// - `OutOfMemory` if a memory request is refused
///
/// # Examples
///
/// ```
/// let leaves: mmr::Location = Location::new(3);
/// let folded = Xor8Digest::from_bytes(&[7])?;
/// let string = root_string(alloc, 0, Bagging::ForwardFold, leaves, 0, Some(&folded)).ok()?;
/// assert!(rt; string == [0, 0, 0, 0, 0, 0, 0, 0, 0, 3, 7].as_slice());
/// ```
pub fn root_string<F: Family, D: Digest>(
    alloc: Global,
    domain: u8,
    bagging: Bagging,
    leaves: Location<F>,
    committed: usize,
    folded: Option<&D>,
) -> Result<Vec<u8>, OutOfMemory>
    ensures { IfOk result (λ v. (h : Hashing D) → h.bytes ≡ D.bytes
        → v.items ≡ root_string h domain bagging leaves committed (option_map (λ d. d.now) folded.entry)) }
{
    let mut string = Vec::new(alloc);
    string.extend_from_slice(&[domain, bagging.domain()])?;
    string.extend_from_slice(&leaves.as_u64().to_be_bytes())?;
    if let Some(digest) = folded {
        if committed != 0 {
            string.extend_from_slice(&(committed as u64).to_be_bytes())?;
        }
        string.extend_from_slice(digest.as_bytes())?;
    }
    Ok(string)
}

// Folds `peaks` onto `start`, left to right.
fn fold_all<F: Family, T: Hasher<F>>(hasher: &T, start: T::Digest, peaks: &[T::Digest]) -> T::Digest
    ensures { result ≡ fold (T.hashing hasher.now).fold start peaks.now }
{
    let mut acc = start;
    for peak in peaks {
        acc = hasher.fold(&acc, peak);
    }
    acc
}

// Folds the peaks right to left; `None` if there are none.
fn bag_all<F: Family, T: Hasher<F>>(hasher: &T, peaks: &[T::Digest]) -> Option<T::Digest>
    ensures { result ≡ right_fold (T.hashing hasher.now).fold peaks.now }
{
    let mut bagged = None;
    let mut index = peaks.len();
    while index > 0 {
        index -= 1;
        bagged = match bagged {
            Some(other) => Some(hasher.fold(&peaks[index], &other)),
            None => Some(peaks[index]),
        };
    }
    bagged
}

// Folds all peaks, of which `first` is the oldest, to one digest.
pub(crate) fn fold_peaks<F: Family, T: Hasher<F>>(
    hasher: &T,
    bagging: Bagging,
    to_fold: usize,
    first: T::Digest,
    others: &[T::Digest],
) -> T::Digest
    requires { to_fold ≤ length others.now + 1 }
    ensures { folded (T.hashing hasher.now).fold bagging to_fold (first ∷ others.now) ≡ Some result }
{
    match bagging {
        Bagging::ForwardFold => fold_all(hasher, first, others),
        Bagging::BackwardFold => {
            let apart = to_fold.saturating_sub(1);
            let acc = fold_all(hasher, first, &others[..apart]);
            match bag_all(hasher, &others[apart..]) {
                Some(bagged) => hasher.fold(&acc, &bagged),
                None => acc,
            }
        }
    }
}
