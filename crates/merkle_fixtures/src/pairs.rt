//! A test family with small limits that merges the two leaves of each pair, and nothing else.
//!
//! So `n` leaves have `n + n / 2` nodes, and every third node is the parent of the two before it.
ghost use Rattle.std.specs.Prelude.{◌≡◌, ◌≢◌, ◌+◌, ◌<◌, ◌≤◌, ◌↔◌, ℕ, IsTrue, IfSome, IfNone, List, [], ◌∷◌, cond};
ghost use Rattle.std.specs.Iterator.{YieldsFirst, item_count};
ghost use Rattle.merkle_base.specs.Forest.{size};
ghost use Rattle.merkle_base.specs.Heights.{parent_heights};
ghost use Rattle.merkle_base.specs.Places.{IsSize, IsNearestSize, ArePeaks, HasInner, AreChildren, IsHeightAt};
ghost use Rattle.merkle_fixtures.specs.Pairs.{pairing, pairs_from};
ghost use Rattle.merkle_fixtures.specs.PairsLawful.{pairs_lawful};

use merkle_base::listed::Listed;
use merkle_base::{error, family, location, position};
use std::marker::Model;

/// The greatest size in nodes.
const MAX_NODES: u64 = 150;

/// The greatest leaf count, which has [`MAX_NODES`] nodes.
const MAX_LEAVES: u64 = 100;

/// The family of pairs.
#[derive(Clone, Copy, Debug, Default, PartialEq, Eq)]
pub struct Family;

/// A node index (position) or a size in nodes of the family.
pub type Position = position::Position<Family>;

/// A leaf index (location) or a leaf count of the family.
pub type Location = location::Location<Family>;

/// Why a call on a structure of the family failed.
pub type Error = error::Error<Family>;

/// Iterates over the peaks from the oldest on: the parents of the pairs, and then the leaf without
/// a partner, if there is one.
#[derive(Debug, Drop)]
pub struct PeakIterator {
    // the position at which the next pair begins
    next: u64,
    // the number of nodes from there on
    left: u64,
    ghost bounded: { next + left ≤ 150 },
}

impl Model for PeakIterator {
    ghost Value = { List (ℕ × ℕ) };

    ghost view = { λ s. pairs_from s.next s.left };
}

#[tactic(auto, using(crate::proofs::PairFacts::pairs_leaf, crate::proofs::PairFacts::pairs_pair))]
impl Iterator for PeakIterator {
    type Item = (Position, u32);

    ghost next_gives = { YieldsFirst (λ s. s) };

    ghost remaining = { item_count (λ s. s) };

    fn next(&mut self) -> Option<(Position, u32)> {
        if self.left == 0 {
            return None;
        }
        let (nodes, height) = if self.left < 3 { (1, 0) } else { (3, 1) };
        self.next += nodes;
        self.left -= nodes;
        Some((Position::new(self.next - 1), height))
    }
}

impl Listed for PeakIterator {
    ghost left = { λ s. s };

    ghost may_go = { λ _. tt };

    ghost gives_first = { λ _ _ _ h. h };

    ghost ends = { λ _. tt };
}

/// Iterates over the heights of the parents that adding a leaf creates: at most one.
#[derive(Debug, Drop)]
pub struct ParentHeights {
    is_due: bool,
}

impl Model for ParentHeights {
    ghost Value = { List ℕ };

    ghost view = { λ s. cond s.is_due (1 ∷ []) [] };
}

impl Iterator for ParentHeights {
    type Item = u32;

    ghost next_gives = { YieldsFirst (λ s. s) };

    ghost remaining = { item_count (λ s. s) };

    fn next(&mut self) -> Option<u32> {
        if !self.is_due {
            return None;
        }
        self.is_due = false;
        Some(1)
    }
}

impl Listed for ParentHeights {
    ghost left = { λ s. s };

    ghost may_go = { λ _. tt };

    ghost gives_first = { λ _ _ _ h. h };

    ghost ends = { λ _. tt };
}

impl family::Family for Family {
    const DOMAIN: u8 = 10;

    const MAX_NODES: u64 = MAX_NODES;

    const MAX_LEAVES: u64 = MAX_LEAVES;

    type Peaks = PeakIterator;

    type ParentHeights = ParentHeights;

    ghost DOMAIN = { 10 };

    ghost MAX_NODES = { 150 };

    ghost MAX_LEAVES = { 100 };

    ghost rule = { pairing };

    fn location_to_position(location: Location) -> Position
        requires { location ≤ 100 }
        ensures { result ≡ size pairing location }
    {
        Position::new(location.as_u64() + location.as_u64() / 2)
    }

    fn position_to_location(position: Position) -> Option<Location>
        requires { position ≤ 150 }
        ensures found { IfSome result (λ n. (n ≤ 100) × (size pairing n ≡ position)) }
        ensures none { IfNone result ((n : ℕ) → size pairing n ≢ position) }
    {
        let position = position.as_u64();
        if position % 3 == 2 {
            None
        } else {
            Some(Location::new(position - position / 3))
        }
    }

    fn is_valid_size(nodes: Position) -> bool
        ensures { IsTrue result ↔ IsSize pairing 100 nodes }
    {
        let nodes = nodes.as_u64();
        if nodes % 3 == 2 {
            false
        } else {
            nodes <= MAX_NODES
        }
    }

    fn to_nearest_size(nodes: Position) -> Position
        requires { nodes ≤ 150 }
        ensures { IsNearestSize pairing 100 nodes result }
    {
        if nodes.as_u64() % 3 == 2 {
            nodes - 1
        } else {
            nodes
        }
    }

    fn peaks(nodes: Position) -> PeakIterator
        requires { IsSize pairing 100 nodes }
        ensures { ArePeaks pairing 100 nodes result }
    {
        PeakIterator {
            next: 0,
            left: nodes.as_u64(),
        }
    }

    fn children(position: Position, height: u32) -> (Position, Position)
        requires { HasInner pairing 100 position height }
        ensures { AreChildren pairing position result.0 result.1 }
    {
        (position - 2, position - 1)
    }

    fn parent_heights(leaves: Location) -> ParentHeights
        requires { leaves < 100 }
        ensures { result ≡ parent_heights pairing leaves }
    {
        ParentHeights {
            is_due: leaves.as_u64() % 2 == 1,
        }
    }

    fn pos_to_height(position: Position) -> u32
        requires { position < 150 }
        ensures { IsHeightAt pairing position result }
    {
        if position.as_u64() % 3 == 2 { 1 } else { 0 }
    }

    ghost lawful = { pairs_lawful };
}
