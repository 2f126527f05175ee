//! Laws of the forests that the two families grow.
//!
//! Each function is empty. Its contract is a law of the definitions in `specs/`.
ghost use Rattle.std.specs.Prelude.{◌≡◌, ◌≢◌, ℕ, ◌+◌, ◌-◌, ◌*◌, ◌^◌, ◌<◌, ◌≤◌, ◌⊎◌, List, [], ◌∷◌, map, length, slice_get, slice_index, Some, count_ones};
ghost use Rattle.std.specs.Int.{bit_at, trailing_ones};
ghost use Rattle.std.specs.List.{range_with_len};
ghost use Rattle.std.proofs.Common.{w64};
ghost use Rattle.merkle_base.specs.Tree.{Tree, leaf, join, position, height, first_leaf};
ghost use Rattle.merkle_base.specs.Forest.{forest, size};
ghost use Rattle.merkle_base.specs.Heights.{IsLawful, peak_heights, parent_heights};
ghost use Rattle.merkle_base.specs.Places.{placed, peaks_of, inactive_peaks};
ghost use Rattle.merkle_base.specs.Grafting.{AreCoordinates, nodes_inside};
ghost use Rattle.merkle_base.specs.Digests.{node_digests, peak_digests};
ghost use Rattle.merkle_base.specs.Root.{folded, list_root};
ghost use Rattle.merkle_base.specs.declared.family.Bagging.TheVariants.{ForwardFold, BackwardFold};
ghost use Rattle.merkle_forest_theory.specs.Ascending.{AscendsFrom};
ghost use Rattle.merkle_forest_theory.specs.Mmr.{mmr_merges, IsPostorder, mmr_position, mmr_birth_leaf_count};
ghost use Rattle.merkle_forest_theory.specs.Mmb.{mmb_merges, birth_leaf, mmb_position, mmb_birth_leaf_count};
ghost use Rattle.merkle_forest_theory.specs.FewPeaks.{FewPeaks};
ghost use Rattle.merkle_forest_theory.specs.Rows.{unhashed, unhashed_scheme, unmerged, three_digests, four_peaks};

/// The Mountain Range: its merge rule is lawful, and its sizes and positions have formulas.
pub fn mountain_range()
    ensures lawful { IsLawful mmr_merges (2 ^ 62) (2 ^ 63 - 1) }
    ensures size { (n : ℕ) → size mmr_merges n ≡ 2 * n - count_ones n }

    // The parents that adding leaf n creates have the heights 1, 2, .. up to the number of trailing
    // ones of n.
    ensures parents { (n : ℕ) → n + 1 < 2 ^ 64 → parent_heights mmr_merges n ≡ range_with_len 1 (trailing_ones w64 n) }

    // There is one peak for each one bit of n, and every peak is higher than the newer ones.
    ensures peaks { (n : ℕ) → (length (peak_heights mmr_merges n) ≡ count_ones n) × AscendsFrom 0 (peak_heights mmr_merges n) }
    ensures children { (n p : ℕ) → (t : Tree) → slice_get (forest mmr_merges n).nodes p ≡ Some t → IsPostorder t }
    ensures place { (n p : ℕ) → (t : Tree) → slice_get (forest mmr_merges n).nodes p ≡ Some t → p ≡ size mmr_merges (first_leaf t) + 2 ^ (height t + 1) - 2 }

    // A node is created when the last leaf below it is added.
    ensures birth { (n p : ℕ) → (t : Tree) → slice_get (forest mmr_merges n).nodes p ≡ Some t
        → (slice_get (forest mmr_merges (first_leaf t + 2 ^ height t)).nodes p ≡ Some t) × ((m : ℕ) → m < first_leaf t + 2 ^ height t → size mmr_merges m ≤ p) }
    ensures aligned { (n p : ℕ) → (t : Tree) → slice_get (forest mmr_merges n).nodes p ≡ Some t → (a : ℕ) × (first_leaf t ≡ a * 2 ^ height t) }

    // Every range of 2 ^ h leaves that begins at a multiple of 2 ^ h has a node.
    ensures range_has { (n s a h : ℕ) → s ≡ a * 2 ^ h → s + 2 ^ h ≤ n → (p : ℕ) × (t : Tree) × (slice_get (forest mmr_merges n).nodes p ≡ Some t)
        × (first_leaf t ≡ s) × (height t ≡ h) }
    ensures coordinates { AreCoordinates mmr_merges (2 ^ 62) mmr_position mmr_birth_leaf_count }

    // The height of a peak and the number of peaks add up to at most 123.
    ensures few_peaks { FewPeaks mmr_merges (2 ^ 62) }
{}

/// The Mountain Belt: its merge rule is lawful, and its sizes and positions have formulas.
pub fn mountain_belt()
    ensures lawful { IsLawful mmb_merges (2 ^ 62 + 30) (2 ^ 63 - 2) }

    // Here k is the binary logarithm of n + 1.
    ensures size { (n k : ℕ) → 2 ^ k ≤ n + 1 → n + 1 < 2 ^ (k + 1) → size mmb_merges n ≡ 2 * n - k }

    // Adding leaf n creates no parent if n + 2 is a power of two, and one parent otherwise.
    ensures parents { (n : ℕ) → n + 2 < 2 ^ 64 →
        ((parent_heights mmb_merges n ≡ []) × ((k : ℕ) × (n + 2 ≡ 2 ^ k)))
        ⊎ ((parent_heights mmb_merges n ≡ (trailing_ones w64 (n + 1) + 1) ∷ []) × ((k : ℕ) → n + 2 ≢ 2 ^ k)) }

    // The number of peaks is the binary logarithm of n + 1.
    ensures peaks { (n : ℕ) → (2 ^ length (peak_heights mmb_merges n) ≤ n + 1) × (n + 1 < 2 ^ (length (peak_heights mmb_merges n) + 1)) }

    // Counted from the newest as peak 0, peak i has height i, or i + 1 if bit i of n + 1 is set; so
    // no peak is lower than a newer one.
    ensures heights { (n i : ℕ) → i < length (peak_heights mmb_merges n) → slice_index (peak_heights mmb_merges n) i ≡ i + bit_at (n + 1) i }
    ensures older { (n i : ℕ) → i + 1 < length (peak_heights mmb_merges n)
        → slice_index (peak_heights mmb_merges n) i ≤ slice_index (peak_heights mmb_merges n) (i + 1) }
    ensures children { (n p : ℕ) → (a b : Tree) → slice_get (forest mmb_merges n).nodes p ≡ Some (join p a b)
        → (position a ≡ mmb_position (first_leaf a) (height a)) × (position b ≡ mmb_position (first_leaf a + 2 ^ height a) (height a)) }
    ensures place { (n p : ℕ) → (t : Tree) → slice_get (forest mmb_merges n).nodes p ≡ Some t → p ≡ mmb_position (first_leaf t) (height t) }

    // A node is created when its birth leaf is added.
    ensures birth { (n p : ℕ) → (t : Tree) → slice_get (forest mmb_merges n).nodes p ≡ Some t
        → (slice_get (forest mmb_merges (birth_leaf (first_leaf t) (height t) + 1)).nodes p ≡ Some t)
        × ((m : ℕ) → m ≤ birth_leaf (first_leaf t) (height t) → size mmb_merges m ≤ p) }
    ensures aligned { (n p : ℕ) → (t : Tree) → slice_get (forest mmb_merges n).nodes p ≡ Some t → (a : ℕ) × (first_leaf t ≡ a * 2 ^ height t) }

    // Every range of 2 ^ h leaves that begins at a multiple of 2 ^ h has a node as soon as its
    // birth leaf is added.
    ensures belt_has { (n s a h : ℕ) → s ≡ a * 2 ^ h → birth_leaf s h < n → (p : ℕ) × (t : Tree) × (slice_get (forest mmb_merges n).nodes p ≡ Some t)
        × (first_leaf t ≡ s) × (height t ≡ h) }
    ensures coordinates { AreCoordinates mmb_merges (2 ^ 62 + 30) mmb_position mmb_birth_leaf_count }

    // The height of a peak and the number of peaks add up to at most 123.
    ensures few_peaks { FewPeaks mmb_merges (2 ^ 62 + 30) }
{}

/// The definitions, computed on small numbers.
pub fn worked_rows()
    ensures range_positions { map (size mmr_merges) (range_with_len 0 16) ≡ 0 ∷ 1 ∷ 3 ∷ 4 ∷ 7 ∷ 8 ∷ 10 ∷ 11 ∷ 15 ∷ 16 ∷ 18 ∷ 19 ∷ 22 ∷ 23 ∷ 25 ∷ 26 ∷ [] }
    ensures range_peaks { map placed (peaks_of mmr_merges 11) ≡ (14, 3) ∷ (17, 1) ∷ (18, 0) ∷ [] }
    ensures range_parents { map (parent_heights mmr_merges) (range_with_len 0 8)
        ≡ [] ∷ (1 ∷ []) ∷ [] ∷ (1 ∷ 2 ∷ []) ∷ [] ∷ (1 ∷ []) ∷ [] ∷ (1 ∷ 2 ∷ 3 ∷ []) ∷ [] }
    ensures belt_positions { map (size mmb_merges) (range_with_len 0 16) ≡ 0 ∷ 1 ∷ 3 ∷ 4 ∷ 6 ∷ 8 ∷ 10 ∷ 11 ∷ 13 ∷ 15 ∷ 17 ∷ 19 ∷ 21 ∷ 23 ∷ 25 ∷ 26 ∷ [] }
    ensures belt_peaks_8 { map placed (peaks_of mmb_merges 8) ≡ (7, 2) ∷ (9, 1) ∷ (12, 1) ∷ [] }
    ensures belt_peaks_11 { map placed (peaks_of mmb_merges 11) ≡ (18, 3) ∷ (16, 1) ∷ (17, 0) ∷ [] }
    ensures belt_parents { map (parent_heights mmb_merges) (range_with_len 0 16)
        ≡ [] ∷ (1 ∷ []) ∷ [] ∷ (1 ∷ []) ∷ (2 ∷ []) ∷ (1 ∷ []) ∷ [] ∷ (1 ∷ []) ∷ (2 ∷ []) ∷ (1 ∷ [])
        ∷ (3 ∷ []) ∷ (1 ∷ []) ∷ (2 ∷ []) ∷ (1 ∷ []) ∷ [] ∷ (1 ∷ []) ∷ [] }

    // Leaf 9 is added when there are two pairs of equal peaks, and the newer pair is merged.
    ensures belt_pairs { (0 ∷ peak_heights mmb_merges 9 ≡ 0 ∷ 0 ∷ 2 ∷ 2 ∷ []) × (peak_heights mmb_merges 10 ≡ 1 ∷ 2 ∷ 2 ∷ []) }
    ensures belt_root { mmb_position 4 2 ≡ 14 }

    // The node over the leaves 4 to 7: its position in the Mountain Range, and the least leaf
    // counts that have it.
    ensures range_stands { mmr_position 4 2 ≡ 13 }
    ensures range_comes { mmr_birth_leaf_count 4 2 ≡ 8 }
    ensures belt_comes { mmb_birth_leaf_count 4 2 ≡ 9 }

    // Three leaves, of which the first two are merged at position 2, the older one on the left.
    ensures three_nodes { (forest mmr_merges 3).nodes ≡ leaf 0 0 ∷ leaf 1 1 ∷ join 2 (leaf 0 0) (leaf 1 1) ∷ leaf 3 2 ∷ [] }
    ensures three_peaks { (forest mmr_merges 3).peaks ≡ leaf 3 2 ∷ join 2 (leaf 0 0) (leaf 1 1) ∷ [] }

    // The peaks of 11 leaves end at the locations 8, 10 and 11.
    ensures inactive { map (inactive_peaks mmr_merges 11) (7 ∷ 8 ∷ 9 ∷ 10 ∷ 11 ∷ []) ≡ 0 ∷ 1 ∷ 1 ∷ 2 ∷ 3 ∷ [] }

    // If nothing is merged there are as many peaks as leaves, each of height 0.
    ensures few_peaks { FewPeaks unmerged 123 }
    ensures too_many { FewPeaks unmerged 124 → ⊥ }

    // With 8 leaves the node over the last four of them is not created yet.
    ensures belt_chunk { map placed (nodes_inside mmb_merges 8 4 8) ≡ (9, 1) ∷ (12, 1) ∷ [] }

    // If nothing is hashed, a digest shows what it was computed from.
    ensures digests { node_digests unhashed mmr_merges three_digests ≡ (5 ∷ []) ∷ (6 ∷ []) ∷ (2 ∷ 5 ∷ 6 ∷ []) ∷ (7 ∷ []) ∷ [] }
    ensures digests_of_peaks { peak_digests unhashed mmr_merges three_digests ≡ (2 ∷ 5 ∷ 6 ∷ []) ∷ (7 ∷ []) ∷ [] }

    // Four peaks folded left to right, folded right to left, and with the first two folded left to
    // right and the rest right to left.
    ensures folds_forward { folded unhashed.fold ForwardFold 2 four_peaks ≡ Some (99 ∷ 99 ∷ 99 ∷ 1 ∷ 2 ∷ 3 ∷ 4 ∷ []) }
    ensures folds_backward { folded unhashed.fold BackwardFold 0 four_peaks ≡ Some (99 ∷ 1 ∷ 99 ∷ 2 ∷ 99 ∷ 3 ∷ 4 ∷ []) }
    ensures folds_apart { folded unhashed.fold BackwardFold 2 four_peaks ≡ Some (99 ∷ 99 ∷ 1 ∷ 2 ∷ 99 ∷ 3 ∷ 4 ∷ []) }

    // The family's byte is 8. The bagging's byte, the leaf count, the number of inactive peaks
    // unless it is 0, and the folded digest follow.
    ensures root_bytes { list_root (unhashed_scheme ForwardFold) three_digests 0 ≡ 8 ∷ 0 ∷ 0 ∷ 0 ∷ 0 ∷ 0 ∷ 0 ∷ 0 ∷ 0 ∷ 3 ∷ 99 ∷ 2 ∷ 5 ∷ 6 ∷ 7 ∷ [] }
    ensures root_bytes_one { list_root (unhashed_scheme BackwardFold) three_digests 1
        ≡ 8 ∷ 1 ∷ 0 ∷ 0 ∷ 0 ∷ 0 ∷ 0 ∷ 0 ∷ 0 ∷ 3 ∷ 0 ∷ 0 ∷ 0 ∷ 0 ∷ 0 ∷ 0 ∷ 0 ∷ 1 ∷ 99 ∷ 2 ∷ 5 ∷ 6 ∷ 7 ∷ [] }
    ensures root_bytes_empty { list_root (unhashed_scheme BackwardFold) [] 0 ≡ 8 ∷ 1 ∷ 0 ∷ 0 ∷ 0 ∷ 0 ∷ 0 ∷ 0 ∷ 0 ∷ 0 ∷ [] }
{}
