//! A test family with small limits that never merges: every leaf is a peak.
//!
//! So `n` leaves have `n` nodes, and a leaf's position equals its location.
ghost use Rattle.std.specs.Prelude.{◌≡◌, ◌≢◌, ◌+◌, ◌<◌, ◌≤◌, ◌↔◌, ℕ, IsTrue, IfSome, IfNone, List, []};
ghost use Rattle.std.specs.Iterator.{YieldsFirst, item_count};
ghost use Rattle.merkle_base.specs.Forest.{size};
ghost use Rattle.merkle_base.specs.Heights.{parent_heights};
ghost use Rattle.merkle_base.specs.Places.{IsSize, IsNearestSize, ArePeaks, AreChildren, IsHeightAt};
ghost use Rattle.merkle_fixtures.specs.Flat.{never, leaves_from};
ghost use Rattle.merkle_fixtures.specs.FlatLawful.{flat_lawful};

use merkle_base::listed::Listed;
use merkle_base::{error, family, location, position};
use std::marker::Model;

/// The greatest leaf count and the greatest size in nodes.
const MOST: u64 = 64;

/// The family that never merges.
#[derive(Clone, Copy, Debug, Default, PartialEq, Eq)]
pub struct Family;

/// A node index (position) or a size in nodes of the family.
pub type Position = position::Position<Family>;

/// A leaf index (location) or a leaf count of the family.
pub type Location = location::Location<Family>;

/// Why a call on a structure of the family failed.
pub type Error = error::Error<Family>;

/// Iterates over the peaks, which are all leaves, from the oldest on.
#[derive(Debug, Drop)]
pub struct PeakIterator {
    // the next leaf
    next: u64,
    // the number of leaves that are not yielded yet
    left: u64,
    ghost bounded: { next + left ≤ 64 },
}

impl Model for PeakIterator {
    ghost Value = { List (ℕ × ℕ) };

    ghost view = { λ s. leaves_from s.next s.left };
}

impl Iterator for PeakIterator {
    type Item = (Position, u32);

    ghost next_gives = { YieldsFirst (λ s. s) };

    ghost remaining = { item_count (λ s. s) };

    fn next(&mut self) -> Option<(Position, u32)> {
        if self.left == 0 {
            return None;
        }
        let position = Position::new(self.next);
        self.next += 1;
        self.left -= 1;
        Some((position, 0))
    }
}

impl Listed for PeakIterator {
    ghost left = { λ s. s };

    ghost may_go = { λ _. tt };

    ghost gives_first = { λ _ _ _ h. h };

    ghost ends = { λ _. tt };
}

/// Iterates over the heights of the parents that adding a leaf creates: there are none.
#[derive(Debug, Drop)]
pub struct NoParents;

impl Iterator for NoParents {
    type Item = u32;

    ghost next_gives = { YieldsFirst (λ _. []) };

    ghost remaining = { item_count {A = ℕ} (λ _. []) };

    fn next(&mut self) -> Option<u32> {
        None
    }
}

impl Listed for NoParents {
    ghost left = { λ _. [] };

    ghost may_go = { λ _. tt };

    ghost gives_first = { λ _ _ _ h. h };

    ghost ends = { λ _. tt };
}

#[tactic(auto, using(crate::specs::FlatLawful::flat_size))]
impl family::Family for Family {
    const DOMAIN: u8 = 9;

    const MAX_NODES: u64 = MOST;

    const MAX_LEAVES: u64 = MOST;

    type Peaks = PeakIterator;

    type ParentHeights = NoParents;

    ghost DOMAIN = { 9 };

    ghost MAX_NODES = { 64 };

    ghost MAX_LEAVES = { 64 };

    ghost rule = { never };

    fn location_to_position(location: Location) -> Position
        requires { location ≤ 64 }
        ensures { result ≡ size never location }
    {
        Position::new(location.as_u64())
    }

    fn position_to_location(position: Position) -> Option<Location>
        requires { position ≤ 64 }
        ensures found { IfSome result (λ n. (n ≤ 64) × (size never n ≡ position)) }
        ensures none { IfNone result ((n : ℕ) → size never n ≢ position) }
    {
        Some(Location::new(position.as_u64()))
    }

    fn is_valid_size(nodes: Position) -> bool
        ensures { IsTrue result ↔ IsSize never 64 nodes }
    {
        nodes.as_u64() <= MOST
    }

    fn to_nearest_size(nodes: Position) -> Position
        requires { nodes ≤ 64 }
        ensures { IsNearestSize never 64 nodes result }
    {
        nodes
    }

    fn peaks(nodes: Position) -> PeakIterator
        requires { IsSize never 64 nodes }
        ensures { ArePeaks never 64 nodes result }
    {
        PeakIterator {
            next: 0,
            left: nodes.as_u64(),
        }
    }

    // No node has children, so this is never called and any result is right.
    fn children(position: Position, _height: u32) -> (Position, Position)
        ensures { AreChildren never position result.0 result.1 }
    {
        (position, position)
    }

    fn parent_heights(leaves: Location) -> NoParents
        requires { leaves < 64 }
        ensures { [] ≡ parent_heights never leaves }
    {
        NoParents
    }

    fn pos_to_height(position: Position) -> u32
        requires { position < 64 }
        ensures { IsHeightAt never position result }
    {
        0
    }

    ghost lawful = { flat_lawful };
}
