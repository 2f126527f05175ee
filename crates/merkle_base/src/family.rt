//! Families of Merkle structures: a merge rule and the forest that it grows.
ghost use Rattle.std.specs.Prelude.{◌≡◌, ◌≢◌, ◌<◌, ◌≤◌, ◌↔◌, ℕ, List, IsTrue, IfSome, IfNone, length};
ghost use Rattle.merkle_base.specs.Bagging.{bagging_byte};
ghost use Rattle.merkle_base.specs.Forest.{size};
ghost use Rattle.merkle_base.specs.Heights.{IsLawful, parent_heights};
ghost use Rattle.merkle_base.specs.Grafting.{HasChunk, AreChunkPeaks, IsNode, IsBirthSize, AreCoordinates};
ghost use Rattle.merkle_base.specs.Tree.{Tree, first_leaf};
ghost use Rattle.merkle_base.specs.Places.{IsSize, IsNearestSize, ArePeaks, HasInner, AreChildren, IsHeightAt, inactive_peaks, peak_positions};

pub use crate::listed::Listed;
use crate::location::Location;
pub use crate::pins::NodesToPin;
use crate::position::Position;
pub use crate::work::Work;
use std::fmt::Debug;

/// An upper bound of the number of nodes to pin, for every family and location.
pub const MAX_PINNED_NODES: usize = 64;

/// A family of Merkle structures: the forests of one merge rule.
///
/// A family is defined by its merge rule. Adding leaf `n` stores the leaf at the next position;
/// then the rule chooses which peaks to merge, and each merge creates one parent node at the next
/// position. Every function here describes the forest that grows in this way.
///
/// Positions (node indices) and sizes in nodes are [`Position`]s; locations (leaf indices) and leaf
/// counts are [`Location`]s.
pub trait Family: Copy + Debug + Default {
    /// The first byte of the string that is hashed for a root; it separates the roots of the
    /// families.
    const DOMAIN: u8;

    /// The greatest size in nodes.
    const MAX_NODES: u64;

    /// The greatest leaf count.
    const MAX_LEAVES: u64;

    /// Iterates over the peaks, as pairs of position and height, from the oldest (leftmost) on.
    type Peaks: Iterator<Item = (Position<Self>, u32)> + Listed;

    /// Iterates over the heights of the parents that adding a leaf creates, in the order of the
    /// merges.
    type ParentHeights: Iterator<Item = u32> + Listed;

    ghost DOMAIN: { ℕ };

    ghost MAX_NODES: { ℕ };

    ghost MAX_LEAVES: { ℕ };

    // from the peak heights with a new leaf, newest first, to the merges: indices from the newest
    // peak, one after another
    ghost rule: { List ℕ → List ℕ };

    /// Returns the position of the leaf at `location`, which is also the size in nodes of a
    /// structure with `location` leaves.
    ///
    /// Requires `location` to be at most [`MAX_LEAVES`](Family::MAX_LEAVES).
    fn location_to_position(location: Location<Self>) -> Position<Self>
        requires { location ≤ MAX_LEAVES }
        ensures { result ≡ size rule location };

    /// Returns the location of the leaf at `position`, which is also the leaf count of a structure
    /// with `position` nodes; `None` if no leaf count has that many nodes.
    ///
    /// Requires `position` to be at most [`MAX_NODES`](Family::MAX_NODES).
    fn position_to_location(position: Position<Self>) -> Option<Location<Self>>
        requires { position ≤ MAX_NODES }
        ensures found { IfSome result (λ n. (n ≤ MAX_LEAVES) × (size rule n ≡ position)) }
        ensures none { IfNone result ((n : ℕ) → size rule n ≢ position) };

    /// Whether `nodes` is a valid size: the node count of some leaf count up to
    /// [`MAX_LEAVES`](Family::MAX_LEAVES).
    fn is_valid_size(nodes: Position<Self>) -> bool
        ensures { IsTrue result ↔ IsSize rule MAX_LEAVES nodes };

    /// Returns the largest valid size that is at most `nodes`.
    ///
    /// Requires `nodes` to be at most [`MAX_NODES`](Family::MAX_NODES).
    fn to_nearest_size(nodes: Position<Self>) -> Position<Self>
        requires { nodes ≤ MAX_NODES }
        ensures { IsNearestSize rule MAX_LEAVES nodes result };

    /// Returns the peaks of a structure with `nodes` nodes, with their heights, from the oldest on.
    ///
    /// Requires `nodes` to be a valid size.
    fn peaks(nodes: Position<Self>) -> Self::Peaks
        requires { IsSize rule MAX_LEAVES nodes }
        ensures { ArePeaks rule MAX_LEAVES nodes (Self.Peaks.left result) };

    /// Returns the number of peaks whose leaves are all below `floor`; these are the oldest ones.
    ///
    /// Requires `leaves` to be at most [`MAX_LEAVES`](Family::MAX_LEAVES); `floor` may be any
    /// location.
    final fn inactive_peaks(leaves: Location<Self>, floor: Location<Self>) -> usize
        requires { leaves ≤ MAX_LEAVES }
        ensures { result ≡ inactive_peaks rule leaves floor }
    {
        count_inactive(leaves, floor)
    }

    /// Returns the positions of the nodes to pin when the leaves before `location` are pruned, from
    /// the oldest on: the peaks of a structure with `location` leaves.
    ///
    /// Requires `location` to be at most [`MAX_LEAVES`](Family::MAX_LEAVES).
    final fn nodes_to_pin(location: Location<Self>) -> NodesToPin<Self>
        requires { location ≤ MAX_LEAVES }
        ensures peaks { result ≡ peak_positions rule location }
        ensures at_most_max_pinned { length result ≤ MAX_PINNED_NODES }
    {
        NodesToPin {
            peaks: Self::peaks(Self::location_to_position(location)),
        }
    }

    /// Returns the positions of the left and the right child of the node at `position`.
    ///
    /// Requires that some structure has a parent node of height `height` at `position`.
    fn children(position: Position<Self>, height: u32) -> (Position<Self>, Position<Self>)
        requires { HasInner rule MAX_LEAVES position height }
        ensures { AreChildren rule position result.0 result.1 };

    /// Returns the heights of the parents that adding the leaf at location `leaves` creates, in the
    /// order of the merges.
    ///
    /// Requires `leaves` to be below [`MAX_LEAVES`](Family::MAX_LEAVES).
    fn parent_heights(leaves: Location<Self>) -> Self::ParentHeights
        requires { leaves < MAX_LEAVES }
        ensures { Self.ParentHeights.left result ≡ parent_heights rule leaves };

    /// Returns the height of the node at `position`; a leaf has height 0.
    ///
    /// Requires `position` to be below [`MAX_NODES`](Family::MAX_NODES).
    fn pos_to_height(position: Position<Self>) -> u32
        requires { position < MAX_NODES }
        ensures { IsHeightAt rule position result };

    ghost lawful: { IsLawful rule MAX_LEAVES MAX_NODES };
}

/// A family in which a height and a first leaf determine a node, so that other structures can be
/// grafted on its subtrees.
///
/// A node of height `h` is over `2^h` leaves, the first of which is at a multiple of `2^h`. Chunk
/// `i` of grafting height `g` is the `2^g` leaves from location `i * 2^g` on.
pub trait Graftable: Family {
    /// Iterates over the maximal nodes inside a chunk, as pairs of position and height, left to
    /// right.
    type ChunkPeaks: Iterator<Item = (Position<Self>, u32)> + Listed;

    // by formula, from the first leaf and the height: a node's position, and the least leaf count
    // that has it
    ghost root: { ℕ → ℕ → ℕ };

    ghost birth: { ℕ → ℕ → ℕ };

    /// Returns the maximal nodes whose leaves all lie in chunk `chunk_idx`, with their heights,
    /// left to right.
    ///
    /// Requires `nodes` to be a valid size whose leaf count is at least the end of the chunk.
    fn chunk_peaks(nodes: Position<Self>, chunk_idx: u64, grafting_height: u32) -> Self::ChunkPeaks
        requires { HasChunk Self.rule Self.MAX_LEAVES nodes chunk_idx grafting_height }
        ensures { AreChunkPeaks Self.rule Self.MAX_LEAVES nodes chunk_idx grafting_height (Self.ChunkPeaks.left result) };

    /// Returns the position of the node of height `height` whose first leaf is at `leaf_start`.
    ///
    /// Requires `height` to be at most 62 and the position to be at most
    /// [`MAX_NODES`](Family::MAX_NODES). If `leaf_start` is not a multiple of `2^height`, or no
    /// leaf count has the node, the result is the value of the formula and denotes no node.
    fn subtree_root_position(leaf_start: Location<Self>, height: u32) -> Position<Self>
        requires low { height ≤ 62 }
        requires within { root leaf_start height ≤ Self.MAX_NODES }
        ensures formula { result ≡ root leaf_start height }
        ensures node { (p : ℕ) (t : Tree) → IsNode Self.rule Self.MAX_LEAVES p height t → first_leaf t ≡ leaf_start → result ≡ p };

    /// Returns the location of the first leaf of the node of height `height` at `position`.
    ///
    /// Requires `position` to be the result of
    /// [`subtree_root_position`](Graftable::subtree_root_position) for some location and this
    /// height.
    fn leftmost_leaf(position: Position<Self>, height: u32) -> Location<Self>
        requires low { height ≤ 62 }
        requires within { position ≤ Self.MAX_NODES }
        requires is_root { (s : ℕ) × (root s height ≡ position) }
        ensures formula { root result height ≡ position }
        ensures node { (t : Tree) → IsNode Self.rule Self.MAX_LEAVES position height t → result ≡ first_leaf t };

    /// Returns the least leaf count that has the node of height `height` at `position`.
    ///
    /// Requires `position` to be the result of
    /// [`subtree_root_position`](Graftable::subtree_root_position) for some location and this
    /// height.
    fn peak_birth_size(position: Position<Self>, height: u32) -> u64
        requires low { height ≤ 62 }
        requires within { position ≤ Self.MAX_NODES }
        requires is_root { (s : ℕ) × (root s height ≡ position) }
        ensures formula { (s : ℕ) → root s height ≡ position → result ≡ birth s height }
        ensures node { (t : Tree) → IsNode Self.rule Self.MAX_LEAVES position height t → IsBirthSize Self.rule position result };

    ghost coordinates: { AreCoordinates Self.rule Self.MAX_LEAVES root birth };
}

// Counts the oldest peaks whose leaves are all below `floor`.
fn count_inactive<F: Family>(leaves: Location<F>, floor: Location<F>) -> usize
    requires { leaves ≤ F.MAX_LEAVES }
    ensures { result ≡ inactive_peaks F.rule leaves floor }
{
    let mut count = 0;
    let mut end_leaf = 0;
    for (_, height) in F::peaks(F::location_to_position(leaves)) {
        end_leaf += 1u64 << height;
        if end_leaf > floor.as_u64() {
            return count;
        }
        count += 1;
    }
    count
}

/// How the digests of the peaks are folded into one.
#[derive(Clone, Copy, PartialEq, Eq, Debug)]
pub enum Bagging {
    /// All peaks left to right, from the oldest on.
    ForwardFold,
    /// The inactive peaks left to right; then the active ones right to left, and last the two
    /// results.
    BackwardFold,
}

impl Bagging {
    /// Returns the byte that encodes the bagging in the string that is hashed for a root.
    pub fn domain(self) -> u8
        ensures { result ≡ bagging_byte self }
    {
        match self {
            Bagging::ForwardFold => 0,
            Bagging::BackwardFold => 1,
        }
    }
}
