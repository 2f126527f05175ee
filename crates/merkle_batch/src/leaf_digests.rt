//! The digests of leaves, from what holds nodes.
ghost use Rattle.std.specs.Prelude.{◌≡◌, ◌-◌, Some, IfSome, length};
ghost use Rattle.std.specs.Iterator.{YieldsFirst, item_count, at_most, UpTo};
ghost use Rattle.std.specs.Iterator.SizeHint.{IsWithinCount};
ghost use Rattle.merkle_batch.specs.HeldLeaves.{held_leaves, AreEntriesShown, AreLeavesHeld};

use merkle_base::family::Family;
use merkle_base::listed::Listed;
use merkle_base::location::Location;
use merkle_hasher::read::Readable;
use std::marker::Model;

/// Iterates over the digests of leaves that a reader of nodes holds, the oldest first.
///
/// It is returned by `leaf_digests` of `Mem` and of merkleized batches.
pub struct LeafDigests<'a, R: Readable> {
    reader: &'a R,
    // the location of the next leaf
    next: Location<R::Family>,
    // the location after the last leaf
    end: Location<R::Family>,
}

// Written out, it is proved once; derived, it would be proved again in each crate that drops such an iterator.
impl<'a, R: Readable> Drop for LeafDigests<'a, R> {
    fn drop(self) {
        let LeafDigests {
            reader: _,
            next: _,
            end: _,
        } = self;
    }
}

impl<'a, R: Readable> Model for LeafDigests<'a, R> {
    ghost use Rattle.std.specs.Prelude.{List};
    ghost use Rattle.merkle_batch.specs.HeldLeaves.{held_leaves, AreLeavesHeld};

    ghost Value = { List R.Digest };

    ghost view = { λ s. held_leaves R.Family.rule (R.node s.reader.now) s.next s.end };

    ghost invariant = { λ s. AreLeavesHeld R.Family.rule R.Family.MAX_LEAVES (R.node s.reader.now) s.next s.end };
}

impl<'a, R: Readable> Iterator for LeafDigests<'a, R> {
    type Item = R::Digest;

    ghost next_gives = { YieldsFirst (λ s. s) };

    ghost remaining = { item_count (λ s. s) };

    fn next(&mut self) -> Option<R::Digest> {
        if self.next >= self.end {
            return None;
        }
        let position = R::Family::location_to_position(self.next);
        let digest = self.reader.get_node(position)?;
        self.next = self.next + 1;
        Some(digest)
    }

    fn size_hint(&self) -> (usize, Option<usize>)
        ensures exact { result ≡ (length self.now, Some (length self.now)) }
        ensures lower { IsWithinCount result.0 (at_most (length self.now)) }
        ensures upper { IfSome result.1 (UpTo (at_most (length self.now))) }
    {
        let left = self.len();
        (left, Some(left))
    }
}

impl<'a, R: Readable> ExactSizeIterator for LeafDigests<'a, R> {
    fn len(&self) -> usize {
        let left = self.end - self.next;
        left.as_u64() as usize
    }
}

impl<'a, R: Readable> Listed for LeafDigests<'a, R> {
    ghost left = { λ s. s };

    ghost may_go = { λ _. tt };

    ghost gives_first = { λ _ _ _ h. h };

    ghost ends = { λ _. tt };
}

/// Iterates over the digests of the leaves from location `start` on up to `end`, from the nodes of a
/// reader.
///
/// Requires that the leaves are among those that a list may have, and that the reader has a node for
/// each of them.
pub fn held_leaf_digests<R: Readable>(
    reader: &R,
    start: Location<R::Family>,
    end: Location<R::Family>,
) -> LeafDigests<'_, R>
    requires { AreLeavesHeld R.Family.rule R.Family.MAX_LEAVES (R.node reader.now) start end }
    ensures listed { result ≡ held_leaves R.Family.rule (R.node reader.now) start end }
    ensures count { length result ≡ end - start }

    // They are entries of every list that the reader shows.
    ensures shown { AreEntriesShown R.Family.rule (R.size reader.now) (R.node reader.now) start end result }
{
    LeafDigests {
        reader,
        next: start,
        end,
    }
}
