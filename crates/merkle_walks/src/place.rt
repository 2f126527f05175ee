//! Places where a digest is computed, and what is hashed there.

use merkle_base::position::Position;

/// A place where a digest is computed.
///
/// The peaks are numbered from 0, the oldest first. The places come in this order, and of two
/// collisions the first is that at the earlier place: the root; the join; the prefix folds from the
/// greatest number down; the suffix folds from the least number up; the nodes by peaks from the
/// oldest, each before its children, the left child before the right.
///
/// Below, m is the number of peaks and f the number of inactive ones, or 1 if there are none.
#[derive_where(Clone, Copy, Debug, PartialEq, Eq)]
pub enum Place<F> {
    /// The root. It comes first, and each list has it.
    Root,
    /// With [`BackwardFold`](merkle_base::family::Bagging::BackwardFold) and peaks that are folded right to left: the digest
    /// of the others and that of these, which are folded last. It comes after the root, where m > f.
    Join,
    /// The digest of the peaks before this one, and this one. These come after the join, from the greatest number down. With
    /// [`ForwardFold`](merkle_base::family::Bagging::ForwardFold) each number i with 1 <= i < m has one, with
    /// [`BackwardFold`](merkle_base::family::Bagging::BackwardFold) each with 1 <= i < f and i < m.
    PrefixFold(usize),
    /// This peak, and the digest of the peaks after it. These come after the prefix folds, from the least number up. With
    /// [`BackwardFold`](merkle_base::family::Bagging::BackwardFold) each number i with f <= i < m - 1 has one, with
    /// [`ForwardFold`](merkle_base::family::Bagging::ForwardFold) none.
    SuffixFold(usize),
    /// The children of the node at this position, which is not a leaf. These come last: by peaks from the oldest, each node
    /// before those below it, and what is below its left child before its right child.
    Node(Position<F>),
}

/// What is hashed at a place.
#[derive(Debug, Drop)]
pub enum Argument<D> {
    /// Two digests, at every place but the root.
    Pair(D, D),
    /// The byte string of the root.
    Bytes(Vec<u8>),
}
