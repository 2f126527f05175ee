//! Laws of structures that agree with a list, and of batches that have a history of lists.
//!
//! Each function is empty. Its contract is a law of the definitions in `specs/`.
ghost use Rattle.std.specs.Prelude.{◌≡◌, ℕ, suc, ◌+◌, ◌-◌, [], ◌++◌, ◌==◌, cond, slice_set, take, map, ◌<◌, ◌≤◌, ◌⊎◌, List, ◌∷◌, length, drop, true, Bool, Some, Ok, Err, slice_get, None, Option, false, is_some, nat_eq};
ghost use Rattle.std.specs.FinMap.{get};
ghost use Rattle.std.specs.Option.{option_or};
ghost use Rattle.std.specs.List.{IsDistinct, list_any};
ghost use Rattle.merkle_base.specs.Tree.{Tree, leaf, join, position, height, IsUnder};
ghost use Rattle.merkle_base.specs.Forest.{forest, size};
ghost use Rattle.merkle_base.specs.Hashing.{Hashing, EqDecides};
ghost use Rattle.merkle_base.specs.Digests.{node_digests, peak_digests};
ghost use Rattle.merkle_base.specs.Places.{peak_positions};
ghost use Rattle.merkle_batch_theory.specs.Contents.{Contents, Agrees, HoldsKept, is_kept, pruned, held_peaks};
ghost use Rattle.merkle_batch_theory.specs.Components.{AreComponents, made_of};
ghost use Rattle.merkle_batch_theory.specs.MemModel.{contents, no_leaves};
ghost use Rattle.merkle_batch_theory.specs.Applying.{IsAppliedTo};
ghost use Rattle.merkle_batch_theory.specs.Unmerkleized.{UnmerkleizedModel, kept, kept_lists, pending_list, update_error, first_error, forked, with_entries, with_updates, without_ancestors};
ghost use Rattle.merkle_batch_theory.specs.Records.{RecordModel, MerkleizedModel, records, after};
ghost use Rattle.merkle_batch_theory.specs.Replay.{with_record, with_records, matched, applied};
ghost use Rattle.merkle_batch_theory.specs.History.{IsHistory, last_list, edited, replaced, leaves_among, is_dirty, IsStep};
ghost use Rattle.merkle_batch_theory.specs.Read.{newest, read_over};
ghost use Rattle.merkle_base.specs.Shows.{Shows};
ghost use Rattle.merkle_batch_theory.specs.BaseAgrees.{IsBased};
ghost use Rattle.merkle_batch_theory.specs.Needed.{computed_nodes, level, is_computed, passes, total, IsUsed, IsNeeded};
ghost use Rattle.merkle_batch_theory.specs.Completed.{IsCompleted};
ghost use Rattle.merkle_base.specs.Collision.{Collide};
ghost use Rattle.std.specs.List.{range_with_len};
ghost use Rattle.merkle_base.specs.Root.{list_root};
ghost use Rattle.merkle_base.specs.declared.family.Bagging.TheVariants.{ForwardFold, BackwardFold};
ghost use Rattle.merkle_forest_theory.specs.Mmr.{mmr_merges};
ghost use Rattle.merkle_batch_theory.specs.Rows.{xor, xor_scheme, first_record, second_record, second_batch, nothing, one, two, at_two, five, change, exchange, exchanging, two_exchanged, addition, exchanged_batch, fourth, over_exchange, over_pruned};
ghost use Rattle.merkle_base.specs.declared.error.Error.TheVariants.{AncestorDropped, ElementPruned, LeafOutOfBounds, StaleBatch};
ghost use Rattle.merkle_batch_theory.specs.Replay.{apply_error};
ghost use Rattle.merkle_batch_theory.specs.Roots.{root_batch};

/// A node that is kept at a later boundary is kept at an earlier one.
pub fn keeping()
    ensures kept { (rule : List ℕ → List ℕ) → (a b p : ℕ) → a ≤ b → size rule a ≤ size rule b → is_kept rule b p ≡ true → is_kept rule a p ≡ true }
{}

/// What a `Mem` does preserves agreement.
pub fn agreement<D>()
    ensures replayed { (h : Hashing D) → (rule : List ℕ → List ℕ) → (rs : List (RecordModel D)) → (X : List D) → (ls : List (List D)) → (c : Contents D)
        → IsHistory h rule rs (X ∷ ls) → Agrees h rule c X → Agrees h rule (with_records rs c) (last_list (X ∷ ls)) }
    ensures pruned { (h : Hashing D) → (rule : List ℕ → List ℕ) → (b : ℕ) → (X : List D) → (c : Contents D) → b ≤ length X → Agrees h rule c X
        → Agrees h rule (pruned rule b c) X }
{}

/// A structure holds exactly the kept positions, whatever was pruned and applied, and as many peaks
/// as its forest has.
pub fn holding<D>()
    ensures none { (rule : List ℕ → List ℕ) → HoldsKept rule (contents (no_leaves {D = D})) }
    ensures made { (rule : List ℕ → List ℕ) → (b n : ℕ) → (pins nodes : List D) → length pins ≡ length (peak_positions rule b)
        → HoldsKept rule (contents (made_of rule b n pins nodes)) }
    ensures pruned { (rule : List ℕ → List ℕ) → (b : ℕ) → (c : Contents D) → HoldsKept rule c → HoldsKept rule (pruned rule b c) }
    ensures replayed { (rule : List ℕ → List ℕ) → (rs : List (RecordModel D)) → (c : Contents D) → size rule c.boundary ≤ c.size → HoldsKept rule c
        → HoldsKept rule (with_records rs c) }
    ensures peaks { (rule : List ℕ → List ℕ) → (c : Contents D) → (n : ℕ) → HoldsKept rule c → c.boundary ≤ n → c.size ≡ size rule n
        → length (held_peaks rule n c) ≡ length (peak_positions rule n) }
{}

/// A structure created from the digests of a list, those of the nodes from a boundary on and of the
/// peaks at the boundary, agrees with the list.
pub fn components<D>()
    ensures agrees { (h : Hashing D) → (rule : List ℕ → List ℕ) → (X : List D) → (b n : ℕ) → (pins nodes : List D)
        → AreComponents h rule X b pins nodes → Agrees h rule (contents (made_of rule b n pins nodes)) X }
{}

/// Pruning and then applying equals applying and then pruning, whatever the records are.
pub fn commuting<F, D>()
    ensures same { (a b : Contents D) → a.boundary ≡ b.boundary → a.size ≡ b.size → ((p : ℕ) → a.node p ≡ b.node p) → a ≡ b }
    ensures commutes { (same : D → D → Bool) → (rule : List ℕ → List ℕ) → (n b : ℕ) → (k : MerkleizedModel D) → (c : Contents D) → c.size ≡ size rule n → b ≤ n
        → applied {F = F} same rule n k (pruned rule b c) ≡ elim (applied same rule n k c) [ Ok a ↦ Ok (pruned rule b a) | Err e ↦ Err e ] }
{}

/// A batch with a history of lists is accepted at one of them, which has the length and the peak
/// digests of the list of the `Mem`. If it is that list, the `Mem` then agrees with the last list;
/// if it is not, the two lists collide at a node.
pub fn acceptance<F, D>()
    ensures accepted { (h : Hashing D) → (rule : List ℕ → List ℕ) → EqDecides h
        → (k : MerkleizedModel D) → (ls : List (List D)) → (c : Contents D) → (X : List D) → (i : ℕ)
        → IsHistory h rule (records k) ls → Agrees h rule c X → matched h.same c.size (held_peaks rule (length X) c) k ≡ Some i
        → (Z : List D) × (slice_get ls i ≡ Some Z) × (length X ≡ length Z) × (peak_digests h rule X ≡ peak_digests h rule Z)
        × (X ≡ Z → Agrees h rule (with_records (drop i (records k)) c) (last_list ls)) × ((X ≡ Z → ⊥) → Collide h rule X Z) }
    ensures applied { (h : Hashing D) → (rule : List ℕ → List ℕ) → EqDecides h
        → (k : MerkleizedModel D) → (ls : List (List D)) → (c d : Contents D) → (X : List D)
        → IsHistory h rule (records k) ls → Agrees h rule c X → applied {F = F} h.same rule (length X) k c ≡ Ok d → IsAppliedTo h rule k ls X c d }
    ensures accepts { (h : Hashing D) → (rule : List ℕ → List ℕ) → EqDecides h
        → (k : MerkleizedModel D) → (ls : List (List D)) → (c : Contents D) → (X : List D) → (i : ℕ)
        → IsHistory h rule (records k) ls → slice_get ls i ≡ Some X → i ≤ length k.ancestors → Agrees h rule c X
        → is_some (matched h.same c.size (held_peaks rule (length X) c) k) ≡ true }
    ensures peaks { (h : Hashing D) → (rule : List ℕ → List ℕ) → (c : Contents D) → (X : List D) → Agrees h rule c X
        → held_peaks rule (length X) c ≡ peak_digests h rule X }
{}

/// What is read through the records of a batch with a history of lists, and below them from a base
/// that agrees with one of those lists.
pub fn reading<D>()
    ensures newest { (h : Hashing D) → (rule : List ℕ → List ℕ) → (rs : List (RecordModel D)) → (X : List D) → (ls : List (List D)) → (p : ℕ)
        → IsHistory h rule rs (X ∷ ls)
        → slice_get (node_digests h rule (last_list (X ∷ ls))) p ≡ option_or (newest rs p) (slice_get (node_digests h rule X) p) }
    ensures right { (h : Hashing D) → (rule : List ℕ → List ℕ) → (rs : List (RecordModel D)) → (X : List D) → (ls : List (List D)) → (base : Contents D)
        → IsBased h rule rs X ls base → (p : ℕ) → (d : D) → read_over rs base p ≡ Some d
        → slice_get (node_digests h rule (last_list (X ∷ ls))) p ≡ Some d }
    ensures answered { (h : Hashing D) → (rule : List ℕ → List ℕ) → (rs : List (RecordModel D)) → (X : List D) → (ls : List (List D)) → (base : Contents D)
        → IsBased h rule rs X ls base → (p : ℕ) → is_kept rule base.boundary p ≡ true
        → read_over rs base p ≡ slice_get (node_digests h rule (last_list (X ∷ ls))) p }
{}

/// What the digests of an edited list are computed from.
pub fn computing<D>()
    ensures made { (h : Hashing D) → (rule : List ℕ → List ℕ) → (Y : List D) → (p : ℕ) → (l r : Tree) → (a b : D)
        → slice_get (forest rule (length Y)).nodes p ≡ Some (join p l r)
        → slice_get (node_digests h rule Y) (position l) ≡ Some a → slice_get (node_digests h rule Y) (position r) ≡ Some b
        → slice_get (node_digests h rule Y) p ≡ Some (h.node p a b) }
    ensures unchanged { (h : Hashing D) → (rule : List ℕ → List ℕ) → (r : RecordModel D) → (X : List D) → (p : ℕ) → (t : Tree)
        → slice_get (forest rule (length X)).nodes p ≡ Some t
        → is_dirty (get r.overwritten) t ≡ false → slice_get (node_digests h rule (edited rule r X)) p ≡ slice_get (node_digests h rule X) p }
    ensures used { (rule : List ℕ → List ℕ) → (m : ℕ → Option D) → (b n e : ℕ) → b ≤ n → n ≤ e → ((k : ℕ) → is_some (m (size rule k)) ≡ true → b ≤ k)
        → (t : Tree) → IsUsed rule m n e t → is_kept rule b (position t) ≡ true }
{}

/// What the calls of a batch do to its list; n is the leaf count with the appended leaves.
pub fn editing<D>()
    ensures length { (rule : List ℕ → List ℕ) → (r : RecordModel D) → (X : List D) → (n : ℕ) → r.before ≡ size rule (length X) → length X ≤ n
        → r.before + length r.appended ≡ size rule n → length (edited rule r X) ≡ n }
    ensures added { (rule : List ℕ → List ℕ) → (r s : RecordModel D) → (X : List D) → (n : ℕ) → (d : D) → (more : List D) → r.before ≡ size rule (length X)
        → length X ≤ n → r.before + length r.appended ≡ size rule n → size rule n + 1 + length more ≡ size rule (suc n)
        → s.before ≡ r.before → s.overwritten ≡ r.overwritten → s.appended ≡ r.appended ++ d ∷ more → edited rule s X ≡ edited rule r X ++ d ∷ [] }
    ensures overwritten { (rule : List ℕ → List ℕ) → (r s : RecordModel D) → (X : List D) → (k : ℕ) → (d : D) → r.before ≡ size rule (length X) → k < length X
        → s.before ≡ r.before → s.appended ≡ r.appended → ((p : ℕ) → get s.overwritten p ≡ cond (p == size rule k) (Some d) (get r.overwritten p))
        → edited rule s X ≡ slice_set (edited rule r X) k d }
    ensures replaced { (rule : List ℕ → List ℕ) → (r s : RecordModel D) → (X : List D) → (n k : ℕ) → (d : D) → r.before ≡ size rule (length X) → length X ≤ k
        → k < n
        → r.before + length r.appended ≡ size rule n → s.before ≡ r.before → s.overwritten ≡ r.overwritten
        → s.appended ≡ slice_set r.appended (size rule k - r.before) d → edited rule s X ≡ slice_set (edited rule r X) k d }
{}

/// What merkleizing produces: the record s from the pending record r, with n leaves in all.
pub fn completing<D>()
    ensures step { (h : Hashing D) → (rule : List ℕ → List ℕ) → (r s : RecordModel D) → (X : List D) → (n : ℕ) → r.before ≡ size rule (length X) → length X ≤ n
        → r.before + length r.appended ≡ size rule n → IsCompleted h rule r s X → IsStep h rule s X (edited rule r X) }
    ensures stands { (h : Hashing D) → (rule : List ℕ → List ℕ) → (rs : List (RecordModel D)) → (X : List D) → (ls : List (List D)) → (r : RecordModel D)
        → (Y : List D)
        → IsHistory h rule rs (X ∷ ls) → IsStep h rule r (last_list (X ∷ ls)) Y → IsHistory h rule (rs ++ r ∷ []) (X ∷ ls ++ Y ∷ [])
        × (last_list (X ∷ ls ++ Y ∷ []) ≡ Y) }
    ensures forgets { (h : Hashing D) → (rule : List ℕ → List ℕ) → (rs : List (RecordModel D)) → (ls : List (List D)) → (i : ℕ) → (X : List D)
        → IsHistory h rule rs ls → slice_get ls i ≡ Some X
        → (more : List (List D)) × IsHistory h rule (drop i rs) (X ∷ more) × (last_list (X ∷ more) ≡ last_list ls) }
    ensures splits { (h : Hashing D) → (rule : List ℕ → List ℕ) → (rs : List (RecordModel D)) → (r : RecordModel D) → (X : List D) → (ls : List (List D))
        → IsHistory h rule (rs ++ r ∷ []) (X ∷ ls)
        → (more : List (List D)) × IsHistory h rule rs (X ∷ more) × IsStep h rule r (last_list (X ∷ more)) (last_list (X ∷ ls)) }
    ensures still { (h : Hashing D) → (rule : List ℕ → List ℕ) → (r : RecordModel D) → (X : List D) → r.before ≡ size rule (length X) → r.appended ≡ []
        → ((p : ℕ) → get r.overwritten p ≡ None) → r.peaks_before ≡ peak_digests h rule X → r.peaks_after ≡ peak_digests h rule X → IsStep h rule r X X }
    ensures no_change { (h : Hashing D) → (rule : List ℕ → List ℕ) → (r : RecordModel D) → (X Y : List D) → IsStep h rule r X Y → r.appended ≡ []
        → ((p : ℕ) → get r.overwritten p ≡ None) → Y ≡ X }
    ensures needed_right { (h : Hashing D) → (rule : List ℕ → List ℕ) → (rs : List (RecordModel D)) → (X : List D) → (ls : List (List D)) → (base : Contents D)
        → IsBased h rule rs X ls base → (r : RecordModel D) → (e : ℕ) → (t : Tree) → (d : D)
        → IsNeeded rule (get r.overwritten) (length (last_list (X ∷ ls))) e t → read_over rs base (position t) ≡ Some d
        → slice_get (node_digests h rule (edited rule r (last_list (X ∷ ls)))) (position t) ≡ Some d }
    ensures none_missing { (h : Hashing D) → (rule : List ℕ → List ℕ) → (rs : List (RecordModel D)) → (X : List D) → (ls : List (List D)) → (base : Contents D)
        → IsBased h rule rs X ls base → (r : RecordModel D) → (e : ℕ) → length (last_list (X ∷ ls)) ≤ e
        → ((k : ℕ) → is_some (get r.overwritten (size rule k)) ≡ true → base.boundary ≤ k) → (t : Tree)
        → IsNeeded rule (get r.overwritten) (length (last_list (X ∷ ls))) e t → (d : D) × (read_over rs base (position t) ≡ Some d) }
{}

/// A used node t is read from what the batch has so far, then from the kept records, then from the
/// base.
///
/// What the batch has so far (`own`) is right wherever it has a digest, and it has one for t if t
/// is new or dirty.
pub fn gathering<D>()
    ensures right { (h : Hashing D) → (rule : List ℕ → List ℕ) → (rs : List (RecordModel D)) → (X : List D) → (ls : List (List D)) → (base : Contents D)
        → IsBased h rule rs X ls base → (r : RecordModel D) → (e : ℕ)
        → (own : ℕ → Option D) → ((p : ℕ) → (d : D) → own p ≡ Some d → slice_get (node_digests h rule (edited rule r (last_list (X ∷ ls)))) p ≡ Some d)
        → (t : Tree) → IsUsed rule (get r.overwritten) (length (last_list (X ∷ ls))) e t
        → ((size rule (length (last_list (X ∷ ls))) ≤ position t) ⊎ (is_dirty (get r.overwritten) t ≡ true) → is_some (own (position t)) ≡ true)
        → (d : D) → option_or (own (position t)) (read_over rs base (position t)) ≡ Some d
        → slice_get (node_digests h rule (edited rule r (last_list (X ∷ ls)))) (position t) ≡ Some d }
    ensures missing { (rule : List ℕ → List ℕ) → (m : ℕ → Option D) → (n e : ℕ) → (own : ℕ → Option D) → (t : Tree) → IsUsed rule m n e t
        → ((size rule n ≤ position t) ⊎ (is_dirty m t ≡ true) → is_some (own (position t)) ≡ true) → own (position t) ≡ None → IsNeeded rule m n e t }
{}

/// The number of nodes that a batch computes: it is the length of a list of their positions without
/// repetition, and the sum of the lengths of the levels.
pub fn counting<D>()
    ensures listed { (rule : List ℕ → List ℕ) → (m : ℕ → Option D) → (n e : ℕ) → (ps : List ℕ) → IsDistinct nat_eq ps
        → ((p : ℕ) → list_any (nat_eq p) ps ≡ passes (is_computed rule m n) (slice_get (forest rule e).nodes p))
        → length ps ≡ length (computed_nodes rule m n e) }
    ensures levels { (rule : List ℕ → List ℕ) → (m : ℕ → Option D) → (n e k : ℕ)
        → ((p : ℕ) → (t : Tree) → slice_get (forest rule e).nodes p ≡ Some t → is_computed rule m n t ≡ true → height t < k)
        → total (λ h. length (level rule m n e h)) k ≡ length (computed_nodes rule m n e) }
{}

/// What a proof of leaves at or after the boundary reads is kept: the peaks, and the children of
/// every node over such a leaf.
pub fn proving()
    ensures peaks { (rule : List ℕ → List ℕ) → (b n i : ℕ) → (t : Tree) → b ≤ n → slice_get (forest rule n).peaks i ≡ Some t
        → is_kept rule b (position t) ≡ true }
    ensures siblings { (rule : List ℕ → List ℕ) → (b n p q k : ℕ) → (l r : Tree) → b ≤ n → slice_get (forest rule n).nodes p ≡ Some (join p l r)
        → IsUnder (leaf q k) (join p l r) → b ≤ k → (is_kept rule b (position l) ≡ true) × (is_kept rule b (position r) ≡ true) }
{}

/// What is shown: by an empty and by an agreeing `Mem`, by a batch, and of the first entries of a
/// list.
pub fn showing<D>()
    ensures empty { (h : Hashing D) → (rule : List ℕ → List ℕ) → Agrees h rule (record { boundary = 0; size = 0; node = λ p. None }) [] }
    ensures agrees { (h : Hashing D) → (rule : List ℕ → List ℕ) → (c : Contents D) → (X : List D) → Agrees h rule c X → Shows h rule c.size c.node X }
    ensures batch { (h : Hashing D) → (rule : List ℕ → List ℕ) → (k : MerkleizedModel D) → (X : List D) → (ls : List (List D))
        → IsHistory h rule (records k) (X ∷ ls)
        → Shows h rule (after k.own) (newest (records k)) (last_list (X ∷ ls)) }
    ensures taken { (h : Hashing D) → (rule : List ℕ → List ℕ) → (X : List D) → (n p : ℕ) → (t : Tree) → n ≤ length X
        → slice_get (forest rule n).nodes p ≡ Some t → slice_get (node_digests h rule (take n X)) p ≡ slice_get (node_digests h rule X) p }
{}

/// The dirty nodes are those over an overwritten leaf, and what is used is new, dirty or needed.
pub fn marking<D>()
    ensures over { (m : ℕ → Option D) → (t : Tree) → (q k : ℕ) → IsUnder (leaf q k) t → is_some (m q) ≡ true → is_dirty m t ≡ true }
    ensures under { (m : ℕ → Option D) → (t : Tree) → is_dirty m t ≡ true → (q k : ℕ) × IsUnder (leaf q k) t × (is_some (m q) ≡ true) }
    ensures sources { (rule : List ℕ → List ℕ) → (m : ℕ → Option D) → (n e : ℕ) → (t : Tree) → IsUsed rule m n e t
        → (size rule n ≤ position t) ⊎ ((is_dirty m t ≡ true) ⊎ IsNeeded rule m n e t) }
{}

/// What a fork keeps of the records of its parent, and the lists that are their history.
pub fn forking<D>()
    ensures stands { (h : Hashing D) → (rule : List ℕ → List ℕ) → (p : UnmerkleizedModel D) → (ls : List (List D)) → p.forgotten ≤ length p.parent.ancestors
        → IsHistory h rule (records p.parent) ls
        → (X : List D) × (more : List (List D)) × (kept_lists p ls ≡ X ∷ more) × IsHistory h rule (kept p) (X ∷ more) × (last_list (X ∷ more) ≡ last_list ls) }
    ensures last { (ls : List (List D)) → (Y : List D) → last_list (ls ++ Y ∷ []) ≡ Y }
{}

/// The definitions, computed on small cases.
pub fn worked_rows()
    ensures leaves { xor.leaf 0 (1 ∷ []) ∷ xor.leaf 1 (2 ∷ []) ∷ xor.leaf 3 (4 ∷ []) ∷ [] ≡ 1 ∷ 3 ∷ 7 ∷ [] }
    ensures digests { node_digests xor mmr_merges (1 ∷ 3 ∷ 7 ∷ []) ≡ 1 ∷ 3 ∷ 0 ∷ 7 ∷ [] }
    ensures peaks { peak_digests xor mmr_merges (1 ∷ 3 ∷ 7 ∷ []) ≡ 0 ∷ 7 ∷ [] }
    ensures forward_root { list_root (xor_scheme ForwardFold) (1 ∷ 3 ∷ 7 ∷ []) 0 ≡ 4 }
    ensures forward_root_one { list_root (xor_scheme ForwardFold) (1 ∷ 3 ∷ 7 ∷ []) 1 ≡ 5 }
    ensures backward_root { list_root (xor_scheme BackwardFold) (1 ∷ 3 ∷ 7 ∷ []) 0 ≡ 5 }
    ensures backward_root_one { list_root (xor_scheme BackwardFold) (1 ∷ 3 ∷ 7 ∷ []) 1 ≡ 4 }
    ensures empty_root { (list_root (xor_scheme ForwardFold) [] 0 ≡ 0) × (list_root (xor_scheme BackwardFold) [] 0 ≡ 1) }
    ensures count_leaf { computed_nodes mmr_merges (at_two 25 25) 15 15 ≡ [] }
    ensures count_eight { map position (computed_nodes mmr_merges (at_two 0 22) 15 16) ≡ 2 ∷ 6 ∷ 14 ∷ 24 ∷ 27 ∷ 28 ∷ 29 ∷ 30 ∷ [] }
    ensures count_three { map position (computed_nodes mmr_merges (at_two 0 1) 4 6) ≡ 2 ∷ 6 ∷ 9 ∷ [] }
    ensures count_all { length (computed_nodes {D = ℕ} mmr_merges (λ p. Some 0) 8 8) ≡ 7 }
    ensures count_new { length (computed_nodes {D = ℕ} mmr_merges (λ p. None) 0 2) ≡ 1 }
    ensures edit { edited mmr_merges second_record (1 ∷ 3 ∷ []) ≡ 17 ∷ 3 ∷ 7 ∷ [] }
    ensures reads { map (newest (first_record ∷ second_record ∷ [])) (range_with_len 0 5) ≡ Some 17 ∷ Some 3 ∷ Some 16 ∷ Some 7 ∷ None ∷ [] }
    ensures matched { matched xor.same 0 [] second_batch ≡ Some 0 }
    ensures matched_later { matched xor.same 3 (0 ∷ []) second_batch ≡ Some 1 }
    ensures stale { (matched xor.same 4 (16 ∷ 7 ∷ []) second_batch ≡ None) × (apply_error {F = ℕ} 4 second_batch ≡ StaleBatch 0 4) }
    ensures dropped { apply_error {F = ℕ} 0 (record second_batch { ancestors = [] }) ≡ AncestorDropped 4 0 }
    ensures stale_of_that_size { apply_error {F = ℕ} 3 (record second_batch { ancestors = [] }) ≡ StaleBatch 0 3 }
    ensures applies { map (with_records (first_record ∷ second_record ∷ []) nothing).node (range_with_len 0 5)
        ≡ Some 17 ∷ Some 3 ∷ Some 16 ∷ Some 7 ∷ None ∷ [] }
    ensures prunes { map (with_record change (pruned mmr_merges 4 five)).node (range_with_len 0 9)
        ≡ None ∷ None ∷ None ∷ None ∷ None ∷ None ∷ Some 19 ∷ Some 2 ∷ None ∷ [] }
    ensures stands { IsHistory xor mmr_merges (first_record ∷ second_record ∷ []) ([] ∷ (1 ∷ 3 ∷ []) ∷ (17 ∷ 3 ∷ 7 ∷ []) ∷ []) }
    ensures needs { IsNeeded mmr_merges (at_two 0 0) 2 2 (leaf 1 1) }
    ensures collide { Collide xor mmr_merges (1 ∷ 3 ∷ []) (2 ∷ 0 ∷ []) }

    // A batch that exchanges two leaves, which does not change their peak, so that its two lists
    // collide. The structure of the first list is accepted at its own list; the structure of the
    // second list is accepted at the first one, which differs from its own.
    ensures exchange_stands { IsHistory xor mmr_merges (exchange ∷ []) ((1 ∷ 3 ∷ []) ∷ (3 ∷ 1 ∷ []) ∷ []) }
    ensures exchange_collides { Collide xor mmr_merges (1 ∷ 3 ∷ []) (3 ∷ 1 ∷ []) }
    ensures exchange_matched { matched xor.same 3 (0 ∷ []) exchanging ≡ Some 0 }
    ensures own_agrees { Agrees xor mmr_merges two (1 ∷ 3 ∷ []) }
    ensures own_applies { applied {F = ℕ} xor.same mmr_merges 2 exchanging two ≡ Ok (with_record exchange two) }
    ensures own_before { Agrees xor mmr_merges two (3 ∷ 1 ∷ []) → ⊥ }
    ensures foreign_agrees { Agrees xor mmr_merges two_exchanged (3 ∷ 1 ∷ []) }
    ensures foreign_applies { applied {F = ℕ} xor.same mmr_merges 2 exchanging two_exchanged ≡ Ok (with_record exchange two_exchanged) }

    // With a third leaf added after the exchange, the structure of the first list is accepted at
    // the second one, and then agrees with no list of the batch.
    ensures foreign_differs { Agrees xor mmr_merges (with_record addition two) (3 ∷ 1 ∷ 7 ∷ []) → ⊥ }

    // All nodes of five leaves are held, but not with the four oldest leaves counted as pruned; and
    // after pruning some are missing if nothing counts as pruned.
    ensures holds_all { HoldsKept mmr_merges five }
    ensures holds_too_many { HoldsKept mmr_merges (record five { boundary = 4 }) → ⊥ }
    ensures holds_too_few { HoldsKept mmr_merges (record (pruned mmr_merges 4 five) { boundary = 0 }) → ⊥ }

    // Three leaves pruned to location 2: the pinned peak of the first two leaves, and the third
    // leaf.
    ensures makes { map (contents {D = ℕ} (made_of mmr_merges 2 3 (0 ∷ []) (7 ∷ []))).node (range_with_len 0 5) ≡ None ∷ None ∷ Some 0 ∷ Some 7 ∷ None ∷ [] }

    // The leaves at the locations 2, 3 and 4 are at the positions 3, 4 and 7.
    ensures replaces { replaced mmr_merges (at_two 3 4) 0 (5 ∷ 6 ∷ 7 ∷ 8 ∷ []) ≡ 5 ∷ 6 ∷ 0 ∷ 0 ∷ [] }
    ensures added_leaves { leaves_among {D = ℕ} mmr_merges 2 3 (7 ∷ 8 ∷ 15 ∷ 16 ∷ 9 ∷ []) ≡ 7 ∷ 8 ∷ 9 ∷ [] }
    ensures touches { map (is_dirty (at_two 0 0)) (leaf 1 1 ∷ join 2 (leaf 0 0) (leaf 1 1) ∷ []) ≡ false ∷ true ∷ [] }
    ensures dirty_unneeded { IsNeeded mmr_merges (at_two 0 0) 2 2 (leaf 0 0) → ⊥ }
    ensures new_unneeded { IsNeeded {D = ℕ} mmr_merges (λ p. None) 1 2 (leaf 1 1) → ⊥ }

    // The size before the oldest record, and after it, with a different peak; then their peaks with
    // a different size.
    ensures unmatched { matched xor.same 0 (1 ∷ []) second_batch ≡ None }
    ensures unmatched_later { matched xor.same 3 (1 ∷ []) second_batch ≡ None }
    ensures unmatched_size { matched xor.same 1 [] second_batch ≡ None }
    ensures unmatched_size_later { matched xor.same 4 (0 ∷ []) second_batch ≡ None }

    // Two of the states have this size and this peak: the newer one is used, unless one of them is
    // the state before the oldest record.
    ensures matched_newest { matched xor.same 3 (0 ∷ []) exchanged_batch ≡ Some 2 }
    ensures matched_oldest { matched xor.same 3 (0 ∷ []) (record exchanged_batch { ancestors = exchange ∷ [] }) ≡ Some 0 }
    ensures accepts_later { applied {F = ℕ} xor.same mmr_merges 2 second_batch two ≡ Ok (with_record second_record two) }
    ensures stale_below { apply_error {F = ℕ} 3 (root_batch mmr_merges 5 five) ≡ StaleBatch 8 3 }
    ensures forks { ((forked second_batch).leaves_before ≡ 3) × ((root_batch mmr_merges 5 five).leaves ≡ 5) }
    ensures refuses { applied {F = ℕ} xor.same mmr_merges 1 second_batch one ≡ Err (StaleBatch 0 1) }
    ensures agrees { Agrees xor mmr_merges (pruned mmr_merges 4 five) (1 ∷ 3 ∷ 0 ∷ 0 ∷ 2 ∷ []) }

    // With a different leaf, with pruned nodes, without a node, with fewer nodes, and pruned past
    // the end.
    ensures agrees_otherwise { Agrees xor mmr_merges five (1 ∷ 3 ∷ 0 ∷ 0 ∷ 4 ∷ []) → ⊥ }
    ensures agrees_unpruned { Agrees xor mmr_merges (record five { boundary = 4 }) (1 ∷ 3 ∷ 0 ∷ 0 ∷ 2 ∷ []) → ⊥ }
    ensures agrees_partly { Agrees xor mmr_merges (record (pruned mmr_merges 4 five) { boundary = 0 }) (1 ∷ 3 ∷ 0 ∷ 0 ∷ 2 ∷ []) → ⊥ }
    ensures agrees_shorter { Agrees xor mmr_merges (record five { size = 7 }) (1 ∷ 3 ∷ 0 ∷ 0 ∷ 2 ∷ []) → ⊥ }
    ensures agrees_beyond { Agrees xor mmr_merges (pruned mmr_merges 6 five) (1 ∷ 3 ∷ 0 ∷ 0 ∷ 2 ∷ []) → ⊥ }
    ensures held { held_peaks mmr_merges 5 five ≡ 3 ∷ 2 ∷ [] }
    ensures applied_size { (with_records (first_record ∷ second_record ∷ []) nothing).size ≡ 4 }
    ensures applied_boundary { (with_record change (pruned mmr_merges 4 five)).boundary ≡ 4 }
    ensures pruned_size { (pruned mmr_merges 4 five).size ≡ 8 }
    ensures pruned_again { (pruned mmr_merges 2 (pruned mmr_merges 4 five)).boundary ≡ 4 }
    ensures reads_over { map (read_over (change ∷ []) five) (6 ∷ 7 ∷ 8 ∷ []) ≡ Some 19 ∷ Some 2 ∷ None ∷ [] }
    ensures keeps { kept fourth ≡ exchange ∷ addition ∷ [] }
    ensures keeps_lists { kept_lists fourth ([] ∷ (1 ∷ 3 ∷ []) ∷ (3 ∷ 1 ∷ []) ∷ (3 ∷ 1 ∷ 7 ∷ []) ∷ []) ≡ (1 ∷ 3 ∷ []) ∷ (3 ∷ 1 ∷ []) ∷ (3 ∷ 1 ∷ 7 ∷ []) ∷ [] }
    ensures keeps_overwritten { kept over_exchange ≡ first_record ∷ exchange ∷ [] }
    ensures keeps_none { kept (over_pruned 5) ≡ [] }
    ensures lets_go { (without_ancestors fourth 5).forgotten ≡ 2 }
    ensures adds { pending_list mmr_merges fourth (3 ∷ 1 ∷ 7 ∷ []) ≡ 3 ∷ 1 ∷ 7 ∷ 9 ∷ [] }

    // Of several updates of one leaf the last one is kept, for an old leaf and for an added one.
    ensures updates { pending_list mmr_merges (with_updates mmr_merges fourth ((2, 5) ∷ (3, 6) ∷ (2, 8) ∷ (3, 4) ∷ [])) (3 ∷ 1 ∷ 7 ∷ []) ≡ 3 ∷ 1 ∷ 8 ∷ 4 ∷ [] }
    ensures sets { with_entries {D = ℕ} (3 ∷ 1 ∷ 7 ∷ []) ((2, 5) ∷ (0, 6) ∷ (2, 8) ∷ []) ≡ 6 ∷ 1 ∷ 8 ∷ [] }
    ensures errors { map (update_error {F = ℕ} mmr_merges (over_pruned 5)) (0 ∷ 3 ∷ 4 ∷ 5 ∷ [])
        ≡ Some (ElementPruned 0) ∷ Some (ElementPruned 4) ∷ None ∷ Some (LeafOutOfBounds 5) ∷ [] }
    ensures first_of_errors { first_error {F = ℕ} mmr_merges (over_pruned 5) ((4, 1) ∷ (5, 1) ∷ (3, 1) ∷ []) ≡ Some (LeafOutOfBounds 5) }

    // With fewer leaves than were pruned, which no sequence of calls leads to, both errors apply,
    // and the missing leaf is reported.
    ensures both_errors { update_error {F = ℕ} mmr_merges (over_pruned 2) 3 ≡ Some (LeafOutOfBounds 3) }
{}
