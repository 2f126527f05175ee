//! Applying records to the nodes that are held.
ghost use Rattle.std.specs.Prelude.{◌≡◌, ◌+◌, ◌≤◌, ℕ, length, map};
ghost use Rattle.std.specs.FinMap.{get};
ghost use Rattle.merkle_batch_theory.specs.Held.{held_contents, total_appended, overwritten_by};
ghost use Rattle.merkle_batch_theory.specs.Replay.{with_records, with_record};

use crate::held_nodes::HeldNodes;
use crate::overwrites::Overwrites;
use crate::record::Record;
use merkle_base::family::Family;
use merkle_digest::digest::Digest;
use std::rc::Rc;

// Replaces the digest of each overwritten node that is held.
fn replace_all<F: Family, D: Digest>(held: &mut HeldNodes<F, D>, overwrites: &Overwrites<F, D>)
    ensures start { held.new.start ≡ held.old.start }
    ensures size { held.new.size ≡ held.old.size }
    ensures capacity { held.new.capacity ≡ held.old.capacity }
    ensures stored { (p : ℕ) → get held.new.stored p ≡ overwritten_by (get overwrites.now p) (get held.old.stored p) }
{
    // Read for the prover alone.
    let _len = overwrites.nodes.len();
    for (position, digest) in &overwrites.nodes {
        held.replace(*position, *digest);
    }
}

/// Applies a record to the nodes that are held. There is room for the nodes that it appends.
pub fn apply_record<F: Family, D: Digest>(held: &mut HeldNodes<F, D>, change: &Record<F, D>)
    requires { held.old.size + length change.now.appended ≤ held.old.capacity }
    ensures start { held.new.start ≡ held.old.start }
    ensures size { held.new.size ≡ held.old.size + length change.now.appended }
    ensures capacity { held.new.capacity ≡ held.old.capacity }
    ensures replayed { (b : ℕ) → held_contents b held.new ≡ with_record change.now (held_contents b held.old) }
{
    replace_all(held, &change.overwrites);
    held.append(&change.appended);
}

/// Applies records to the nodes that are held, one after another. There is room for the nodes that
/// they append.
pub fn apply_records<F: Family, D: Digest>(held: &mut HeldNodes<F, D>, changes: &[Rc<Record<F, D>>])
    requires { held.old.size + total_appended (map (λ r. r.value) changes.now) ≤ held.old.capacity }
    ensures start { held.new.start ≡ held.old.start }
    ensures size { held.new.size ≡ held.old.size + total_appended (map (λ r. r.value) changes.now) }
    ensures capacity { held.new.capacity ≡ held.old.capacity }
    ensures replayed { (b : ℕ) → held_contents b held.new ≡ with_records (map (λ r. r.value) changes.now) (held_contents b held.old) }
{
    for change in changes {
        apply_record(held, change);
    }
}
