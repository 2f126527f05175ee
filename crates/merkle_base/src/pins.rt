//! The nodes that are kept when older ones are pruned.
ghost use Rattle.std.specs.Prelude.{ℕ, List, map};
ghost use Rattle.std.specs.Iterator.{YieldsFirst, item_count};

use crate::family::Family;
use crate::listed::Listed;
use crate::position::Position;
use std::marker::Model;

/// Iterates over the positions of the nodes to pin, from the oldest peak on. Returned by
/// [`nodes_to_pin`](Family::nodes_to_pin).
pub struct NodesToPin<F: Family> {
    pub(crate) peaks: F::Peaks,
}

// Written out, it is proved once; derived, it would be proved again in each crate that drops such an iterator.
impl<F: Family> Drop for NodesToPin<F> {
    fn drop(self) {
        let NodesToPin { peaks: _ } = self;
    }
}

impl<F: Family> Model for NodesToPin<F> {
    ghost Value = { List ℕ };

    ghost view = { λ s. map (λ p. p.0) (F.Peaks.left s.peaks) };
}

impl<F: Family> Iterator for NodesToPin<F> {
    type Item = Position<F>;

    ghost next_gives = { YieldsFirst (λ s. s) };

    ghost remaining = { item_count (λ s. s) };

    fn next(&mut self) -> Option<Position<F>> {
        let (position, _) = self.peaks.next()?;
        Some(position)
    }
}

impl<F: Family> Listed for NodesToPin<F> {
    ghost left = { λ s. s };

    ghost may_go = { λ _. tt };

    ghost gives_first = { λ _ _ _ h. h };

    ghost ends = { λ _. tt };
}
