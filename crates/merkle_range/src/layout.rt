//! The layout of a range proof: which peaks outside the range have a digest of their own, and which
//! are folded to one digest.
ghost use Rattle.std.specs.Prelude.{◌≡◌, ◌≤◌, ◌+◌, ℕ, List, length};
ghost use Rattle.merkle_base.specs.Tree.{Tree};
ghost use Rattle.merkle_root_theory.specs.Outside.{folded_prefix, single_after};
ghost use Rattle.merkle_root_theory.specs.Layouts.{count_before, count_after, count_inactive};

use merkle_base::family::Bagging;

/// Returns how many of the `before` peaks before a range are folded to one digest.
///
/// These are the oldest ones: all with [`Bagging::ForwardFold`], the inactive ones with
/// [`Bagging::BackwardFold`].
pub fn prefix_count(bagging: Bagging, inactive: usize, before: usize) -> usize
    ensures exact { (ts : List Tree) → length ts ≡ before → result ≡ length (folded_prefix bagging inactive ts) }
    ensures within { result ≤ before }
{
    match bagging {
        Bagging::ForwardFold => before,
        Bagging::BackwardFold => before.min(inactive),
    }
}

/// Returns how many of the `after` peaks after a range have a digest of their own.
///
/// These are the oldest ones: all with [`Bagging::ForwardFold`], the inactive ones with
/// [`Bagging::BackwardFold`]. `met` is the number of peaks before the range or overlapping it.
pub fn single_count(bagging: Bagging, inactive: usize, met: usize, after: usize) -> usize
    ensures exact { (ts : List Tree) → length ts ≡ after → result ≡ length (single_after bagging inactive met ts) }
    ensures within { result ≤ after }
{
    match bagging {
        Bagging::ForwardFold => after,
        Bagging::BackwardFold => after.min(inactive.saturating_sub(met)),
    }
}

/// The numbers of digests that a range proof has for the peaks outside the range.
#[derive(Clone, Copy, Debug)]
pub(crate) struct Layout {
    /// The number of digests for the peaks before the range.
    pub(crate) before: usize,
    /// The number of digests for the peaks after the range.
    pub(crate) after: usize,
    /// Of all digests that the root folds, the number of those of inactive peaks, of which the
    /// folded ones have one together.
    pub(crate) inactive: usize,
    /// The number of peaks before the range that are folded to one digest, which are the oldest.
    pub(crate) prefix: usize,
    /// The number of peaks after the range that have a digest of their own, which are the oldest.
    pub(crate) single: usize,
}

impl Layout {
    /// The layout for `before` peaks before the range, `over` overlapping it, and `after` after it.
    pub(crate) fn new(
        bagging: Bagging,
        inactive: usize,
        before: usize,
        over: usize,
        after: usize,
    ) -> Self
        requires at_most_64_peaks { before + over + after ≤ 64 }
        requires inactive { inactive ≤ 64 }
        ensures before { (ts : List Tree) → length ts ≡ before → result.before ≡ count_before bagging inactive ts }
        ensures after { (ts : List Tree) → length ts ≡ after → result.after ≡ count_after bagging inactive (before + over) ts }
        ensures inactive { (ts : List Tree) → length ts ≡ before → result.inactive ≡ count_inactive bagging inactive ts }
        ensures prefix { (ts : List Tree) → length ts ≡ before → result.prefix ≡ length (folded_prefix bagging inactive ts) }
        ensures single { (ts : List Tree) → length ts ≡ after → result.single ≡ length (single_after bagging inactive (before + over) ts) }
    {
        let prefix = prefix_count(bagging, inactive, before);
        let single = single_count(bagging, inactive, before + over, after);
        let front = prefix.min(1);
        Layout {
            before: front + (before - prefix),
            after: single + (after - single).min(1),
            inactive: front + inactive.saturating_sub(prefix),
            prefix,
            single,
        }
    }
}
