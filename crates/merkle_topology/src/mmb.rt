//! The Merkle Mountain Belt (MMB): after a leaf is added, the newest adjacent pair of peaks of
//! equal height is merged, if there is one.
//!
//! So adding a leaf creates at most one parent, and `n` leaves have as many peaks as the (integer)
//! binary logarithm of `n + 1`. Counted from the newest as peak 0, peak `i` has height `i`, or
//! `i + 1` if bit `i` of `n + 1` is set.
//!
//! Five leaves have eight nodes. The leaves are at the positions 0, 1, 3, 4 and 6, and the parent
//! at 7 was created when the leaf at 6 was added; the peaks are 7 and 6.
//!
//! ```text
//!       7
//!     /   \
//!    2     5
//!   / \   / \
//!  0   1 3   4   6
//! ```
ghost use Rattle.std.specs.Prelude.{◌≡◌, ◌≢◌, ◌+◌, ◌^◌, ◌<◌, ◌≤◌, ◌↔◌, ℕ, IsTrue, IfSome, IfNone, List, [], ◌∷◌, length, cond, Some};
ghost use Rattle.std.specs.Iterator.{YieldsFirst, item_count};
ghost use Rattle.std.specs.Option.{option_to_list};
ghost use Rattle.merkle_base.specs.Forest.{size};
ghost use Rattle.merkle_base.specs.Grafting.{HasChunk, AreChunkPeaks, IsNode, IsBirthSize, stretch_nodes};
ghost use Rattle.merkle_base.specs.Heights.{parent_heights};
ghost use Rattle.merkle_base.specs.Places.{IsSize, IsNearestSize, ArePeaks, HasInner, AreChildren, IsHeightAt};
ghost use Rattle.merkle_base.specs.Tree.{Tree, first_leaf};
ghost use Rattle.merkle_forest_theory.specs.Mmb.{mmb_merges, birth_leaf, mmb_position, mmb_birth_leaf_count, newest_peaks};
ghost use Rattle.merkle_topology.specs.BeltIterators.{PeaksLeft};
ghost use Rattle.merkle_forest_theory.proofs.BeltLawful.{mmb_lawful};
ghost use Rattle.merkle_forest_theory.proofs.Coordinates.{mmb_coordinates};

use merkle_base::family::Work;
use merkle_base::listed::Listed;
use merkle_base::{error, family, location, position};
use std::marker::Model;

/// The greatest size in nodes, 2^63 - 2.
const MAX_NODES: u64 = 9223372036854775806;

/// The greatest leaf count, 2^62 + 30, which has [`MAX_NODES`] nodes.
const MAX_LEAVES: u64 = 4611686018427387934;

/// The Mountain Belt family.
#[derive(Clone, Copy, Debug, Default, PartialEq, Eq)]
pub struct Family;

/// A node index (position) or a size in nodes of a Mountain Belt.
pub type Position = position::Position<Family>;

/// A leaf index (location) or a leaf count of a Mountain Belt.
pub type Location = location::Location<Family>;

/// Why a call on a Mountain Belt failed.
pub type Error = error::Error<Family>;

/// Iterates over the peaks, as pairs of position and height, from the oldest on.
#[derive(Debug, Drop)]
pub struct PeakIterator {
    // the leaf count
    leaves: u64,
    // the number of peaks that are not yielded yet, which are the newest
    left: u32,
    ghost valid: { leaves ≤ 4611686018427387934 },
    ghost enough: { 2 ^ left ≤ leaves + 1 },
}

impl Model for PeakIterator {
    ghost Value = { PeaksLeft };

    ghost view = { λ s. record { leaves = s.leaves; left = newest_peaks s.left s.leaves } };
}

impl PeakIterator {
    /// Iterates over the peaks of a structure with `nodes` nodes.
    ///
    /// Requires `nodes` to be a valid size.
    pub fn new(nodes: Position) -> Self
        requires { IsSize mmb_merges MAX_LEAVES nodes }
        ensures leaves { size mmb_merges result.leaves ≡ nodes }
        ensures peaks { ArePeaks mmb_merges MAX_LEAVES nodes result.left }
    {
        let leaves = leaf_count_within(nodes.as_u64());
        PeakIterator {
            leaves,
            left: (leaves + 1).ilog2(),
        }
    }

    /// Returns the largest valid size that is at most `nodes`.
    ///
    /// Requires `nodes` to be at most 2^63 - 2.
    pub fn to_nearest_size(nodes: Position) -> Position
        requires { nodes ≤ MAX_NODES }
        ensures { IsNearestSize mmb_merges MAX_LEAVES nodes result }
    {
        Position::new(node_count(leaf_count_within(nodes.as_u64())))
    }

    /// Returns the leaf count of the structure that this iterator was created for.
    pub fn leaves(&self) -> Location
        ensures { result ≡ self.now.leaves }
    {
        Location::new(self.leaves)
    }
}

impl Default for PeakIterator {
    ghost is_default = { λ s. s ≡ record { leaves = 0; left = [] } };

    /// No peaks: those of a structure without leaves.
    fn default() -> Self {
        PeakIterator { leaves: 0, left: 0 }
    }
}

impl Iterator for PeakIterator {
    type Item = (Position, u32);

    ghost next_gives = { λ s r t. YieldsFirst (λ p. p.left) s r t × (t.leaves ≡ s.leaves) };

    ghost remaining = { item_count (λ s. s.left) };

    fn next(&mut self) -> Option<(Position, u32)> {
        if self.left == 0 {
            return None;
        }
        self.left -= 1;
        Some(peak(self.leaves, self.left))
    }

    fn size_hint(&self) -> (usize, Option<usize>)
        ensures { result ≡ (length self.now.left, Some (length self.now.left)) }
    {
        let left = self.len();
        (left, Some(left))
    }
}

impl ExactSizeIterator for PeakIterator {
    fn len(&self) -> usize {
        self.left as usize
    }
}

impl Listed for PeakIterator {
    ghost left = { λ s. s.left };

    ghost may_go = { λ _. tt };

    ghost gives_first = { λ _ _ _ h. h.0 };

    ghost ends = { λ _. tt };
}

/// Iterates over the heights of the parents that adding a leaf creates: at most one.
#[derive(Debug, Drop)]
pub struct ParentHeights {
    height: Option<u32>,
}

impl Model for ParentHeights {
    ghost Value = { List ℕ };

    ghost view = { λ s. option_to_list s.height };
}

impl Iterator for ParentHeights {
    type Item = u32;

    ghost next_gives = { YieldsFirst (λ s. s) };

    ghost remaining = { item_count (λ s. s) };

    fn next(&mut self) -> Option<u32> {
        self.height.take()
    }
}

impl Listed for ParentHeights {
    ghost left = { λ s. s };

    ghost may_go = { λ _. tt };

    ghost gives_first = { λ _ _ _ h. h };

    ghost ends = { λ _. tt };
}

/// Iterates over the maximal nodes inside a chunk, as pairs of position and height, left to right.
///
/// An aligned range of leaves has one maximal node, its own, or, before that node is created, the
/// node of its left half and then the maximal nodes of its right half.
#[derive(Debug, Drop)]
pub struct ChunkPeaks {
    // the leaf count
    leaves: u64,
    // the first leaf of the range that is left to cover
    first: u64,
    // the height of that range
    height: u32,
    // whether items are left
    left: bool,
    ghost valid: { leaves ≤ 4611686018427387934 },
    ghost within: { first + 2 ^ height ≤ leaves },
}

impl Model for ChunkPeaks {
    ghost Value = { List (ℕ × ℕ) };

    ghost view = { λ s. cond s.left (stretch_nodes mmb_position mmb_birth_leaf_count s.leaves s.first s.height) [] };
}

impl Iterator for ChunkPeaks {
    type Item = (Position, u32);

    ghost next_gives = { YieldsFirst (λ s. s) };

    ghost remaining = { item_count (λ s. s) };

    fn next(&mut self) -> Option<(Position, u32)> {
        if !self.left {
            return None;
        }
        if birth_leaf(self.first, self.height) < self.leaves {
            self.left = false;
            let root = root_position(self.first, self.height);
            return Some((Position::new(root), self.height));
        }
        self.height -= 1;
        let root = root_position(self.first, self.height);
        self.first += 1 << self.height;
        Some((Position::new(root), self.height))
    }
}

impl Listed for ChunkPeaks {
    ghost left = { λ s. s };

    ghost may_go = { λ _. tt };

    ghost gives_first = { λ _ _ _ h. h };

    ghost ends = { λ _. tt };
}

/// Returns the size in nodes of a structure with `leaves` leaves.
fn node_count(leaves: u64) -> u64
    requires { leaves ≤ MAX_LEAVES }
    ensures { result ≡ size mmb_merges leaves }
{
    2 * leaves - u64::from((leaves + 1).ilog2())
}

/// Returns the greatest leaf count whose size is at most `nodes`, and the number of leaf counts whose
/// size was compared with `nodes`.
fn search(nodes: u64) -> (u64, u64)
    requires { nodes ≤ MAX_NODES }
    ensures limit { result.0 ≤ MAX_LEAVES }
    ensures within { size mmb_merges result.0 ≤ nodes }
    ensures greatest { nodes < size mmb_merges (result.0 + 1) }
    ensures at_most_1 { result.1 ≤ 1 }
{
    // nodes and peaks together are twice the leaves, and the number of peaks is about the logarithm
    let low = (nodes + u64::from((nodes + 2).ilog2()) - 1) / 2;
    if low >= MAX_LEAVES {
        return (low, 0);
    }
    if node_count(low + 1) <= nodes {
        (low + 1, 1)
    } else {
        (low, 1)
    }
}

/// Returns the greatest leaf count whose size is at most `nodes`.
fn leaf_count_within(nodes: u64) -> u64
    requires { nodes ≤ MAX_NODES }
    ensures limit { result ≤ MAX_LEAVES }
    ensures within { size mmb_merges result ≤ nodes }
    ensures greatest { nodes < size mmb_merges (result + 1) }
{
    search(nodes).0
}

/// Returns the location of the leaf at `position`, given the greatest leaf count whose size is at most
/// `position`.
fn location_of(leaves: u64, position: Position) -> Option<Location>
    requires limit { leaves ≤ MAX_LEAVES }
    requires within { size mmb_merges leaves ≤ position }
    requires greatest { position < size mmb_merges (leaves + 1) }
    ensures found { IfSome result (λ n. (n ≤ MAX_LEAVES) × (size mmb_merges n ≡ position)) }
    ensures none { IfNone result ((n : ℕ) → size mmb_merges n ≢ position) }
{
    if node_count(leaves) == position.as_u64() {
        Some(Location::new(leaves))
    } else {
        None
    }
}

/// Returns the location of the leaf at `position`, as
/// [`position_to_location`](family::Family::position_to_location) does, and counts its comparisons.
///
/// Requires `position` to be at most [`MAX_NODES`](family::Family::MAX_NODES). The probes of `work` are
/// set to the number of comparisons of `position` with the position of a leaf count: 1 or 2.
pub fn position_to_location_counted(position: Position, work: &mut Work) -> Option<Location>
    requires { position ≤ MAX_NODES }
    ensures found { IfSome result (λ n. (n ≤ MAX_LEAVES) × (size mmb_merges n ≡ position)) }
    ensures none { IfNone result ((n : ℕ) → size mmb_merges n ≢ position) }
    ensures at_least_one { 1 ≤ work.new.probes }
    ensures at_most_2 { work.new.probes ≤ 2 }
    ensures kept { work.new.node_digests ≡ work.old.node_digests }
{
    let (leaves, probes) = search(position.as_u64());
    work.set_probes(probes + 1);
    location_of(leaves, position)
}

/// Returns the leaf whose addition creates the node of height `height` whose first leaf is `first`.
fn birth_leaf(first: u64, height: u32) -> u64
    requires { birth_leaf first height < 2 ^ 63 }
    ensures { result ≡ birth_leaf first height }
{
    if height == 0 {
        return first;
    }
    first + (3 << (height - 1)) - 2
}

/// Returns the position of the node of height `height` whose first leaf is `first`.
fn root_position(first: u64, height: u32) -> u64
    requires { birth_leaf first height ≤ MAX_LEAVES }
    ensures { result ≡ mmb_position first height }
{
    let leaf = node_count(birth_leaf(first, height));
    if height == 0 {
        return leaf;
    }
    leaf + 1
}

/// Returns the leaf whose addition creates the node of height `height` at `position`.
///
/// Requires `position` to be the result of [`root_position`] for some leaf and this height.
fn birth_leaf_of(position: u64, height: u32) -> u64
    requires within { position ≤ MAX_NODES }
    requires is_root { (s : ℕ) × (mmb_position s height ≡ position) }
    ensures limit { result ≤ MAX_LEAVES }
    ensures birth { (s : ℕ) → mmb_position s height ≡ position → result ≡ birth_leaf s height }
{
    if height == 0 {
        return leaf_count_within(position);
    }
    leaf_count_within(position - 1)
}

/// Returns the first leaf of the node of height `height` at `position`.
///
/// Requires `position` to be the result of [`root_position`] for some leaf and this height.
fn first_below(position: u64, height: u32) -> u64
    requires within { position ≤ MAX_NODES }
    requires is_root { (s : ℕ) × (mmb_position s height ≡ position) }
    ensures { mmb_position result height ≡ position }
{
    let birth = birth_leaf_of(position, height);
    if height == 0 {
        return birth;
    }
    birth + 2 - (3 << (height - 1))
}

/// Returns the position and the height of peak `index`, counted from the newest as 0.
///
/// Requires that there are more than `index` peaks.
fn peak(leaves: u64, index: u32) -> (Position, u32)
    requires valid { leaves ≤ MAX_LEAVES }
    requires exists { 2 ^ (index + 1) ≤ leaves + 1 }
    ensures { newest_peaks (index + 1) leaves ≡ result ∷ newest_peaks index leaves }
{
    let digits = (leaves + 1) >> index;
    let height = index + (digits % 2) as u32;
    let end = (digits - 1) << index;
    let position = root_position(end - (1 << height), height);
    (Position::new(position), height)
}

impl family::Family for Family {
    const DOMAIN: u8 = 1;

    const MAX_NODES: u64 = MAX_NODES;

    const MAX_LEAVES: u64 = MAX_LEAVES;

    type Peaks = PeakIterator;

    type ParentHeights = ParentHeights;

    ghost DOMAIN = { 1 };

    ghost MAX_NODES = { 9223372036854775806 };

    ghost MAX_LEAVES = { 4611686018427387934 };

    ghost rule = { mmb_merges };

    fn location_to_position(location: Location) -> Position
        requires { location ≤ MAX_LEAVES }
        ensures { result ≡ size mmb_merges location }
    {
        Position::new(node_count(location.as_u64()))
    }

    fn position_to_location(position: Position) -> Option<Location>
        requires { position ≤ MAX_NODES }
        ensures found { IfSome result (λ n. (n ≤ MAX_LEAVES) × (size mmb_merges n ≡ position)) }
        ensures none { IfNone result ((n : ℕ) → size mmb_merges n ≢ position) }
    {
        location_of(leaf_count_within(position.as_u64()), position)
    }

    fn is_valid_size(nodes: Position) -> bool
        ensures { IsTrue result ↔ IsSize mmb_merges MAX_LEAVES nodes }
    {
        let nodes = nodes.as_u64();
        nodes <= MAX_NODES && node_count(leaf_count_within(nodes)) == nodes
    }

    fn to_nearest_size(nodes: Position) -> Position
        requires { nodes ≤ MAX_NODES }
        ensures { IsNearestSize mmb_merges MAX_LEAVES nodes result }
    {
        PeakIterator::to_nearest_size(nodes)
    }

    fn peaks(nodes: Position) -> PeakIterator
        requires { IsSize mmb_merges MAX_LEAVES nodes }
        ensures leaves { size mmb_merges result.leaves ≡ nodes }
        ensures peaks { ArePeaks mmb_merges MAX_LEAVES nodes result.left }
    {
        PeakIterator::new(nodes)
    }

    fn children(position: Position, height: u32) -> (Position, Position)
        requires { HasInner mmb_merges MAX_LEAVES position height }
        ensures { AreChildren mmb_merges position result.0 result.1 }
    {
        let birth = leaf_count_within(position.as_u64());
        let below = height - 1;
        let first = birth + 2 - (3 << below);
        let left = root_position(first, below);
        let right = root_position(first + (1 << below), below);
        (Position::new(left), Position::new(right))
    }

    fn parent_heights(leaves: Location) -> ParentHeights
        requires { leaves < MAX_LEAVES }
        ensures { result ≡ parent_heights mmb_merges leaves }
    {
        let leaves = leaves.as_u64();
        let height = if (leaves + 2).is_power_of_two() {
            None
        } else {
            Some((leaves + 1).trailing_ones() + 1)
        };
        ParentHeights { height }
    }

    fn pos_to_height(position: Position) -> u32
        requires { position < MAX_NODES }
        ensures { IsHeightAt mmb_merges position result }
    {
        let nodes = position.as_u64();
        let birth = leaf_count_within(nodes);
        if node_count(birth) == nodes {
            0
        } else {
            (birth + 1).trailing_ones() + 1
        }
    }

    ghost lawful = { mmb_lawful };
}

impl family::Graftable for Family {
    type ChunkPeaks = ChunkPeaks;

    ghost root = { mmb_position };

    ghost birth = { mmb_birth_leaf_count };

    fn chunk_peaks(nodes: Position, chunk_idx: u64, grafting_height: u32) -> ChunkPeaks
        requires { HasChunk mmb_merges MAX_LEAVES nodes chunk_idx grafting_height }
        ensures { AreChunkPeaks mmb_merges MAX_LEAVES nodes chunk_idx grafting_height result }
    {
        ChunkPeaks {
            leaves: leaf_count_within(nodes.as_u64()),
            first: chunk_idx << grafting_height,
            height: grafting_height,
            left: true,
        }
    }

    fn subtree_root_position(leaf_start: Location, height: u32) -> Position
        requires low { height ≤ 62 }
        requires within { mmb_position leaf_start height ≤ MAX_NODES }
        ensures formula { result ≡ mmb_position leaf_start height }
        ensures node { (p : ℕ) (t : Tree) → IsNode mmb_merges MAX_LEAVES p height t → first_leaf t ≡ leaf_start → result ≡ p }
    {
        Position::new(root_position(leaf_start.as_u64(), height))
    }

    fn leftmost_leaf(position: Position, height: u32) -> Location
        requires low { height ≤ 62 }
        requires within { position ≤ MAX_NODES }
        requires is_root { (s : ℕ) × (mmb_position s height ≡ position) }
        ensures formula { mmb_position result height ≡ position }
        ensures node { (t : Tree) → IsNode mmb_merges MAX_LEAVES position height t → result ≡ first_leaf t }
    {
        Location::new(first_below(position.as_u64(), height))
    }

    fn peak_birth_size(position: Position, height: u32) -> u64
        requires low { height ≤ 62 }
        requires within { position ≤ MAX_NODES }
        requires is_root { (s : ℕ) × (mmb_position s height ≡ position) }
        ensures formula { (s : ℕ) → mmb_position s height ≡ position → result ≡ mmb_birth_leaf_count s height }
        ensures node { (t : Tree) → IsNode mmb_merges MAX_LEAVES position height t → IsBirthSize mmb_merges position result }
    {
        birth_leaf_of(position.as_u64(), height) + 1
    }

    ghost coordinates = { mmb_coordinates };
}
