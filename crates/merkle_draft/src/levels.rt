//! Positions of parent nodes, listed by height.
ghost use Rattle.std.specs.Prelude.{◌≡◌, ◌<◌, ◌++◌, ◌∷◌, ◌==◌, ℕ, suc, [], cond, length, OnOk};
ghost use Rattle.merkle_draft.specs.Levels.{level_at, from_height};

use merkle_base::family::Family;
use merkle_base::position::Position;
use std::alloc::{AllocError, Global};
use std::marker::Model;

/// Positions of parent nodes, listed by height. There are at most 64 heights.
#[derive(Drop)]
pub(crate) struct Levels<F: Family> {
    /// The positions of each height.
    lists: Vec<Vec<Position<F>>>,
}

impl<F: Family> Model for Levels<F> {
    ghost use Rattle.std.specs.Prelude.{◌≤◌, ℕ, List, length, map};
    ghost use Rattle.std.specs.Coded.{coded_list, coded_ℕ};

    ghost Value = { List (List ℕ) };

    ghost coded = { coded_list (coded_list coded_ℕ) };

    ghost view = { λ l. map (λ v. v.items) l.lists.items };

    ghost invariant = { λ l. length l.lists.items ≤ 64 };
}

impl<F: Family> Levels<F> {
    /// Creates lists of no positions.
    pub(crate) fn new(alloc: Global) -> Self
        ensures { result ≡ [] }
    {
        Levels {
            lists: Vec::new(alloc),
        }
    }

    /// Returns how many heights have a list, from height 0 on.
    pub(crate) fn count(&self) -> u32
        ensures { result ≡ length self.now }
    {
        self.lists.len() as u32
    }

    /// Returns the positions of the height, in the order in which they were listed.
    pub(crate) fn at(&self, height: u32) -> &[Position<F>]
        requires { height < length self.now }
        ensures { result.now ≡ level_at self.now height }
    {
        self.lists[height as usize].as_slice()
    }

    /// Lists the position of a node of the height.
    pub(crate) fn add(&mut self, height: u32, position: Position<F>) -> Result<(), AllocError>
        requires { height < 64 }
        ensures pushed { OnOk result ((h : ℕ) → level_at self.new h ≡ level_at self.old h ++ cond (h == height) (position ∷ []) []) }
        ensures more { OnOk result (length (from_height self.new 0) ≡ suc (length (from_height self.old 0))) }
    {
        let height = height as usize;
        while self.lists.len() <= height {
            let level = Vec::new(*self.lists.allocator());
            self.lists.push(level)?;
        }
        self.lists[height].push(position)?;
        Ok(())
    }

    /// Takes the positions out of the lists, whose memory is kept.
    pub(crate) fn clear(&mut self)
        ensures { (h : ℕ) → level_at self.new h ≡ [] }
    {
        for height in 0..self.lists.len() {
            self.lists[height].clear();
        }
    }
}
