//! The Merkle Mountain Range (MMR): after a leaf is added, the two newest peaks are merged while
//! they have equal height.
//!
//! So every peak is higher than the newer ones, and `n` leaves have one peak for each one bit of
//! `n`. A node is created when the last leaf below it is added, and follows its right child.
//!
//! Five leaves have eight nodes. The leaves are at the positions 0, 1, 3, 4 and 7, and the peaks
//! are 6 and 7.
//!
//! ```text
//!       6
//!     /   \
//!    2     5
//!   / \   / \
//!  0   1 3   4   7
//! ```
ghost use Rattle.std.specs.Prelude.{◌≡◌, ◌≢◌, ◌⊎◌, ◌+◌, ◌-◌, ◌^◌, ◌<◌, ◌≤◌, ◌↔◌, ℕ, IsTrue, IfSome, IfNone, List, []};
ghost use Rattle.std.specs.Iterator.{YieldsFirst, item_count};
ghost use Rattle.std.specs.List.{range_with_len};
ghost use Rattle.std.specs.Option.{option_to_list};
ghost use Rattle.merkle_base.specs.Forest.{size};
ghost use Rattle.merkle_base.specs.Grafting.{HasChunk, AreChunkPeaks, IsNode, IsBirthSize};
ghost use Rattle.merkle_base.specs.Heights.{parent_heights};
ghost use Rattle.merkle_base.specs.Places.{IsSize, IsNearestSize, ArePeaks, HasInner, AreChildren, IsHeightAt};
ghost use Rattle.merkle_base.specs.Tree.{Tree, first_leaf};
ghost use Rattle.merkle_forest_theory.specs.Mmr.{mmr_merges, mmr_position, mmr_birth_leaf_count};
ghost use Rattle.merkle_topology.specs.Perfect.{trees_from};
ghost use Rattle.merkle_forest_theory.proofs.Coordinates.{mmr_coordinates};
ghost use Rattle.merkle_forest_theory.proofs.RangeLawful.{mmr_lawful};

use merkle_base::family::Work;
use merkle_base::listed::Listed;
use merkle_base::{error, family, location, position};
use std::cmp::Ordering;
use std::marker::Model;

/// The greatest size in nodes, 2^63 - 1.
const MAX_NODES: u64 = 9223372036854775807;

/// The greatest leaf count, 2^62, which has [`MAX_NODES`] nodes.
const MAX_LEAVES: u64 = 4611686018427387904;

/// The Mountain Range family.
#[derive(Clone, Copy, Debug, Default, PartialEq, Eq)]
pub struct Family;

/// A node index (position) or a size in nodes of a Mountain Range.
pub type Position = position::Position<Family>;

/// A leaf index (location) or a leaf count of a Mountain Range.
pub type Location = location::Location<Family>;

/// Why a call on a Mountain Range failed.
pub type Error = error::Error<Family>;

/// Iterates over the peaks, as pairs of position and height, from the oldest on.
#[derive(Debug, Drop)]
pub struct PeakIterator {
    // the position at which the next peak's tree begins
    next: u64,
    // the number of nodes from there on
    left: u64,
    ghost bounded: { next + left < 2 ^ 63 },
}

impl Model for PeakIterator {
    ghost Value = { List (ℕ × ℕ) };

    ghost view = { λ s. trees_from s.next s.left };
}

impl PeakIterator {
    /// Iterates over the peaks of a structure with `nodes` nodes.
    ///
    /// Requires `nodes` to be a valid size.
    pub fn new(nodes: Position) -> Self
        requires { IsSize mmr_merges MAX_LEAVES nodes }
        ensures { ArePeaks mmr_merges MAX_LEAVES nodes result }
    {
        PeakIterator {
            next: 0,
            left: nodes.as_u64(),
        }
    }

    /// Returns the largest valid size that is at most `nodes`.
    ///
    /// Requires `nodes` to be at most 2^63 - 1.
    pub fn to_nearest_size(nodes: Position) -> Position
        requires { nodes ≤ MAX_NODES }
        ensures { IsNearestSize mmr_merges MAX_LEAVES nodes result }
    {
        Position::new(node_count(leaf_count_within(nodes.as_u64())))
    }
}

impl Default for PeakIterator {
    ghost is_default = { λ s. s ≡ [] };

    /// No peaks: those of a structure without leaves.
    fn default() -> Self {
        PeakIterator { next: 0, left: 0 }
    }
}

impl Iterator for PeakIterator {
    type Item = (Position, u32);

    ghost next_gives = { YieldsFirst (λ s. s) };

    ghost remaining = { item_count (λ s. s) };

    fn next(&mut self) -> Option<(Position, u32)> {
        if self.left == 0 {
            return None;
        }
        let height = (self.left + 1).ilog2() - 1;
        let nodes = (2 << height) - 1;
        self.next += nodes;
        self.left -= nodes;
        Some((Position::new(self.next - 1), height))
    }
}

impl Listed for PeakIterator {
    ghost left = { λ s. s };

    ghost may_go = { λ _. tt };

    ghost gives_first = { λ _ _ _ h. h };

    ghost ends = { λ _. tt };
}

/// Iterates over the heights of the parents that adding a leaf creates, in the order of the merges:
/// 1, 2, and so on.
#[derive(Debug, Drop)]
pub struct ParentHeights {
    // the next height
    next: u32,
    // the number of heights that are not yielded yet
    left: u32,
    ghost bounded: { next + left ≤ 65 },
}

impl Model for ParentHeights {
    ghost Value = { List ℕ };

    ghost view = { λ s. range_with_len s.next s.left };
}

impl Iterator for ParentHeights {
    type Item = u32;

    ghost next_gives = { YieldsFirst (λ s. s) };

    ghost remaining = { item_count (λ s. s) };

    fn next(&mut self) -> Option<u32> {
        if self.left == 0 {
            return None;
        }
        let height = self.next;
        self.next += 1;
        self.left -= 1;
        Some(height)
    }
}

impl Listed for ParentHeights {
    ghost left = { λ s. s };

    ghost may_go = { λ _. tt };

    ghost gives_first = { λ _ _ _ h. h };

    ghost ends = { λ _. tt };
}

/// Iterates over the maximal nodes inside a chunk: only the node of the chunk itself, which is
/// created when the last leaf of the chunk is added.
#[derive(Debug, Drop)]
pub struct ChunkPeaks {
    peak: Option<(Position, u32)>,
}

impl Model for ChunkPeaks {
    ghost Value = { List (ℕ × ℕ) };

    ghost view = { λ s. option_to_list s.peak };
}

impl Iterator for ChunkPeaks {
    type Item = (Position, u32);

    ghost next_gives = { YieldsFirst (λ s. s) };

    ghost remaining = { item_count (λ s. s) };

    fn next(&mut self) -> Option<(Position, u32)> {
        self.peak.take()
    }
}

impl Listed for ChunkPeaks {
    ghost left = { λ s. s };

    ghost may_go = { λ _. tt };

    ghost gives_first = { λ _ _ _ h. h };

    ghost ends = { λ _. tt };
}

/// Returns the size in nodes of a structure with `leaves` leaves.
fn node_count(leaves: u64) -> u64
    requires { leaves ≤ MAX_LEAVES }
    ensures { result ≡ size mmr_merges leaves }
{
    2 * leaves - u64::from(leaves.count_ones())
}

/// Returns a leaf count whose size is about `nodes`.
fn estimate(nodes: u64) -> u64
    requires { nodes ≤ MAX_NODES }
{
    // nodes and peaks together are twice the leaves, and `n` leaves have a peak for each one bit of `n`
    let mut leaves = nodes / 2;
    for _ in 0..3 {
        leaves = (nodes + u64::from(leaves.count_ones())) / 2;
    }
    leaves
}

/// Returns the first and the last of the leaf counts from `low` to `high` that remain once the size of
/// `leaves` was compared with `nodes`.
fn narrow(nodes: u64, low: u64, high: u64, leaves: u64) -> (u64, u64)
    requires above { low < leaves }
    requires below { leaves ≤ high }
    requires limit { high ≤ MAX_LEAVES }
    requires within { size mmr_merges low ≤ nodes }
    requires greatest { nodes < size mmr_merges (high + 1) }
    ensures kept { (low ≤ result.0) × (result.0 ≤ result.1) × (result.1 ≤ high) }
    ensures within { size mmr_merges result.0 ≤ nodes }
    ensures greatest { nodes < size mmr_merges (result.1 + 1) }
    ensures narrowed { (result.1 + leaves ≤ result.0 + high) ⊎ (result.1 + 1 + low ≤ result.0 + leaves) }
{
    match node_count(leaves).cmp(&nodes) {
        Ordering::Equal => (leaves, leaves),
        Ordering::Less => (leaves, high),
        Ordering::Greater => (low, leaves - 1),
    }
}

/// Returns the greatest leaf count whose size is at most `nodes`, and the number of leaf counts whose
/// size was compared with `nodes`.
fn search(nodes: u64) -> (u64, u64)
    requires { nodes ≤ MAX_NODES }
    ensures limit { result.0 ≤ MAX_LEAVES }
    ensures within { size mmr_merges result.0 ≤ nodes }
    ensures greatest { nodes < size mmr_merges (result.0 + 1) }
    ensures at_least_one { 1 ≤ result.1 }
    ensures at_most_8 { result.1 ≤ 8 }
{
    // `n` leaves have at most `2 * n` nodes, and at least `2 * n - 64`, since there are at most 64
    // peaks
    let mut low = nodes / 2;
    let mut high = (low + 32).min(MAX_LEAVES);
    let mut guess = estimate(nodes);
    let mut probes = 0;
    while low < high {
        let leaves = if probes < 2 {
            guess.max(low + 1).min(high)
        } else {
            high - (high - low) / 2
        };
        (low, high) = narrow(nodes, low, high, leaves);
        guess = if low == leaves {
            leaves + 1
        } else {
            leaves - 1
        };
        probes += 1;
    }
    (low, probes)
}

/// Returns the greatest leaf count whose size is at most `nodes`.
fn leaf_count_within(nodes: u64) -> u64
    requires { nodes ≤ MAX_NODES }
    ensures limit { result ≤ MAX_LEAVES }
    ensures within { size mmr_merges result ≤ nodes }
    ensures greatest { nodes < size mmr_merges (result + 1) }
{
    search(nodes).0
}

/// Returns the location of the leaf at `position`, given the greatest leaf count whose size is at most
/// `position`.
fn location_of(leaves: u64, position: Position) -> Option<Location>
    requires limit { leaves ≤ MAX_LEAVES }
    requires within { size mmr_merges leaves ≤ position }
    requires greatest { position < size mmr_merges (leaves + 1) }
    ensures found { IfSome result (λ n. (n ≤ MAX_LEAVES) × (size mmr_merges n ≡ position)) }
    ensures none { IfNone result ((n : ℕ) → size mmr_merges n ≢ position) }
{
    if node_count(leaves) == position.as_u64() {
        Some(Location::new(leaves))
    } else {
        None
    }
}

/// Returns the location of the leaf at `position`, as
/// [`position_to_location`](family::Family::position_to_location) does, and counts its comparisons.
///
/// Requires `position` to be at most [`MAX_NODES`](family::Family::MAX_NODES). The probes of `work` are
/// set to the number of comparisons of `position` with the position of a leaf count, the one that ends
/// the search included: at least 1 and at most 9.
pub fn position_to_location_counted(position: Position, work: &mut Work) -> Option<Location>
    requires { position ≤ MAX_NODES }
    ensures found { IfSome result (λ n. (n ≤ MAX_LEAVES) × (size mmr_merges n ≡ position)) }
    ensures none { IfNone result ((n : ℕ) → size mmr_merges n ≢ position) }
    ensures at_least_one { 1 ≤ work.new.probes }
    ensures at_most_9 { work.new.probes ≤ 9 }
    ensures kept { work.new.node_digests ≡ work.old.node_digests }
{
    let (leaves, probes) = search(position.as_u64());
    work.set_probes(probes + 1);
    location_of(leaves, position)
}

/// Returns the number of nodes below a node of height `height`, without the node itself.
fn nodes_below(height: u32) -> u64
    requires { height ≤ 62 }
    ensures { result + 2 ≡ 2 ^ (height + 1) }
{
    (2 << height) - 2
}

/// Returns the position of the node of height `height` whose first leaf is `first`.
fn root_position(first: u64, height: u32) -> u64
    requires low { height ≤ 62 }
    requires within { mmr_position first height ≤ MAX_NODES }
    ensures { result ≡ mmr_position first height }
{
    node_count(first) + nodes_below(height)
}

/// Returns the first leaf of the node of height `height` at `position`.
///
/// Requires `position` to be the result of [`root_position`] for some leaf and this height.
fn first_below(position: u64, height: u32) -> u64
    requires low { height ≤ 62 }
    requires within { position ≤ MAX_NODES }
    requires is_root { (s : ℕ) × (mmr_position s height ≡ position) }
    ensures limit { result ≤ MAX_LEAVES }
    ensures root { mmr_position result height ≡ position }
{
    leaf_count_within(position - nodes_below(height))
}

impl family::Family for Family {
    const DOMAIN: u8 = 0;

    const MAX_NODES: u64 = MAX_NODES;

    const MAX_LEAVES: u64 = MAX_LEAVES;

    type Peaks = PeakIterator;

    type ParentHeights = ParentHeights;

    ghost DOMAIN = { 0 };

    ghost MAX_NODES = { 9223372036854775807 };

    ghost MAX_LEAVES = { 4611686018427387904 };

    ghost rule = { mmr_merges };

    fn location_to_position(location: Location) -> Position
        requires { location ≤ MAX_LEAVES }
        ensures { result ≡ size mmr_merges location }
    {
        Position::new(node_count(location.as_u64()))
    }

    fn position_to_location(position: Position) -> Option<Location>
        requires { position ≤ MAX_NODES }
        ensures found { IfSome result (λ n. (n ≤ MAX_LEAVES) × (size mmr_merges n ≡ position)) }
        ensures none { IfNone result ((n : ℕ) → size mmr_merges n ≢ position) }
    {
        location_of(leaf_count_within(position.as_u64()), position)
    }

    fn is_valid_size(nodes: Position) -> bool
        ensures { IsTrue result ↔ IsSize mmr_merges MAX_LEAVES nodes }
    {
        let nodes = nodes.as_u64();
        nodes <= MAX_NODES && node_count(leaf_count_within(nodes)) == nodes
    }

    fn to_nearest_size(nodes: Position) -> Position
        requires { nodes ≤ MAX_NODES }
        ensures { IsNearestSize mmr_merges MAX_LEAVES nodes result }
    {
        PeakIterator::to_nearest_size(nodes)
    }

    fn peaks(nodes: Position) -> PeakIterator
        requires { IsSize mmr_merges MAX_LEAVES nodes }
        ensures { ArePeaks mmr_merges MAX_LEAVES nodes result }
    {
        PeakIterator::new(nodes)
    }

    fn children(position: Position, height: u32) -> (Position, Position)
        requires { HasInner mmr_merges MAX_LEAVES position height }
        ensures { AreChildren mmr_merges position result.0 result.1 }
    {
        (position - (1 << height), position - 1)
    }

    fn parent_heights(leaves: Location) -> ParentHeights
        requires { leaves < MAX_LEAVES }
        ensures { result ≡ parent_heights mmr_merges leaves }
    {
        ParentHeights {
            next: 1,
            left: leaves.as_u64().trailing_ones(),
        }
    }

    fn pos_to_height(position: Position) -> u32
        requires { position < MAX_NODES }
        ensures { IsHeightAt mmr_merges position result }
    {
        let nodes = position.as_u64();
        (nodes - node_count(leaf_count_within(nodes))) as u32
    }

    ghost lawful = { mmr_lawful };
}

impl family::Graftable for Family {
    type ChunkPeaks = ChunkPeaks;

    ghost root = { mmr_position };

    ghost birth = { mmr_birth_leaf_count };

    fn chunk_peaks(nodes: Position, chunk_idx: u64, grafting_height: u32) -> ChunkPeaks
        requires { HasChunk mmr_merges MAX_LEAVES nodes chunk_idx grafting_height }
        ensures { AreChunkPeaks mmr_merges MAX_LEAVES nodes chunk_idx grafting_height result }
    {
        let first = chunk_idx << grafting_height;
        let root = root_position(first, grafting_height);
        ChunkPeaks {
            peak: Some((Position::new(root), grafting_height)),
        }
    }

    fn subtree_root_position(leaf_start: Location, height: u32) -> Position
        requires low { height ≤ 62 }
        requires within { mmr_position leaf_start height ≤ MAX_NODES }
        ensures formula { result ≡ mmr_position leaf_start height }
        ensures node { (p : ℕ) (t : Tree) → IsNode mmr_merges MAX_LEAVES p height t → first_leaf t ≡ leaf_start → result ≡ p }
    {
        Position::new(root_position(leaf_start.as_u64(), height))
    }

    fn leftmost_leaf(position: Position, height: u32) -> Location
        requires low { height ≤ 62 }
        requires within { position ≤ MAX_NODES }
        requires is_root { (s : ℕ) × (mmr_position s height ≡ position) }
        ensures formula { mmr_position result height ≡ position }
        ensures node { (t : Tree) → IsNode mmr_merges MAX_LEAVES position height t → result ≡ first_leaf t }
    {
        Location::new(first_below(position.as_u64(), height))
    }

    fn peak_birth_size(position: Position, height: u32) -> u64
        requires low { height ≤ 62 }
        requires within { position ≤ MAX_NODES }
        requires is_root { (s : ℕ) × (mmr_position s height ≡ position) }
        ensures formula { (s : ℕ) → mmr_position s height ≡ position → result ≡ mmr_birth_leaf_count s height }
        ensures node { (t : Tree) → IsNode mmr_merges MAX_LEAVES position height t → IsBirthSize mmr_merges position result }
    {
        first_below(position.as_u64(), height) + (1 << height)
    }

    ghost coordinates = { mmr_coordinates };
}
