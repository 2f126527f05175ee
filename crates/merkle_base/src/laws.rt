//! Laws of every forest: the theory that the layers above build on.
//!
//! Each function is empty. Its contract is a law of the definitions in `specs/`.
ghost use Rattle.std.specs.Prelude.{◌≡◌, ℕ, suc, ◌+◌, ◌*◌, ◌^◌, ◌<◌, ◌≤◌, ◌⊎◌, List, [], ◌∷◌, ◌++◌, map, reverse, length, slice_get, Some};
ghost use Rattle.std.specs.List.{range_with_len, flat_map};
ghost use Rattle.merkle_base.specs.Tree.{Tree, leaf, height, first_leaf, width, end_leaf, locations, IsUnder, IsBuilt};
ghost use Rattle.merkle_base.specs.Forest.{forest, size};
ghost use Rattle.merkle_base.specs.Heights.{IsLawful, peak_heights, parent_heights};
ghost use Rattle.merkle_base.specs.Laws.{IsGrown};
ghost use Rattle.merkle_base.specs.Held.{ChildrenHeld};
ghost use Rattle.merkle_base.specs.Places.{placed};
ghost use Rattle.merkle_base.specs.Hashing.{Hashing, EqDecides};
ghost use Rattle.merkle_base.specs.Digests.{peak_digests};
ghost use Rattle.merkle_base.specs.Collision.{Collide};
ghost use Rattle.merkle_base.specs.Grafting.{nodes_inside, stretch_nodes, AreCoordinates};

/// Laws of every forest, under any merge rule.
pub fn every_forest()
    ensures grown { (rule : List ℕ → List ℕ) → (n : ℕ) → IsGrown n (forest rule n) }

    // A node and all nodes below it are at their positions, children before parents, and the leaves
    // of a right child follow those of the left one.
    ensures built { (rule : List ℕ → List ℕ) → (n p : ℕ) → (t : Tree) → slice_get (forest rule n).nodes p ≡ Some t → IsBuilt (forest rule n).nodes t }

    // A node keeps its position, and with it its height, children and span, in every larger forest.
    ensures prefix { (rule : List ℕ → List ℕ) → (n m : ℕ) → n ≤ m → (more : List Tree) × ((forest rule m).nodes ≡ (forest rule n).nodes ++ more) }
    ensures sizes { (rule : List ℕ → List ℕ) → (n m : ℕ) → n < m → size rule n < size rule m }
    ensures size { (rule : List ℕ → List ℕ) → (n : ℕ) → size rule n + length (peak_heights rule n) ≡ 2 * n }

    // The peaks cover the leaves from left to right, with no gap and no overlap.
    ensures covered { (rule : List ℕ → List ℕ) → (n : ℕ) → flat_map locations (reverse (forest rule n).peaks) ≡ range_with_len 0 n }
    ensures leaves { (rule : List ℕ → List ℕ) → (n m : ℕ) → n < m → slice_get (forest rule m).nodes (size rule n) ≡ Some (leaf (size rule n) n) }
    ensures heights { (rule : List ℕ → List ℕ) → (n : ℕ) → map height (forest rule n).peaks ≡ peak_heights rule n }
    ensures one_peak { (rule : List ℕ → List ℕ) → (n p : ℕ) → (t : Tree) → slice_get (forest rule n).nodes p ≡ Some t
        → (i : ℕ) × (a : Tree) × (slice_get (forest rule n).peaks i ≡ Some a) × IsUnder t a
        × ((j : ℕ) → (b : Tree) → slice_get (forest rule n).peaks j ≡ Some b → IsUnder t b → i ≡ j) }
{}

/// Laws of forests under a lawful rule, up to its greatest leaf count.
pub fn lawful_forest()
    ensures counts { (rule : List ℕ → List ℕ) → (max_leaves max_nodes : ℕ) → IsLawful rule max_leaves max_nodes → (n p : ℕ) → (t : Tree) → n ≤ max_leaves
        → slice_get (forest rule n).nodes p ≡ Some t → width t ≡ 2 ^ height t }
    ensures one_node { (rule : List ℕ → List ℕ) → (max_leaves max_nodes : ℕ) → IsLawful rule max_leaves max_nodes → (n p q : ℕ) → (a b : Tree) → n ≤ max_leaves
        → slice_get (forest rule n).nodes p ≡ Some a → slice_get (forest rule n).nodes q ≡ Some b → first_leaf a ≡ first_leaf b → height a ≡ height b → a ≡ b }
    ensures born { (rule : List ℕ → List ℕ) → (max_leaves max_nodes : ℕ) → IsLawful rule max_leaves max_nodes → (n : ℕ) → n < max_leaves
        → (more : List Tree) × ((forest rule (suc n)).nodes ≡ (forest rule n).nodes ++ leaf (size rule n) n ∷ more)
        × (map height more ≡ parent_heights rule n) }
    ensures low { (rule : List ℕ → List ℕ) → (max_leaves max_nodes : ℕ) → IsLawful rule max_leaves max_nodes → (n p : ℕ) → (t : Tree) → n ≤ max_leaves
        → slice_get (forest rule n).nodes p ≡ Some t → (height t < 63) × (p < max_nodes) }
{}

/// What a structure still has after the nodes of its oldest leaves were dropped, under any rule.
pub fn pruned_forest()
    ensures held { (rule : List ℕ → List ℕ) → (b n p : ℕ) → (t : Tree) → b ≤ n → slice_get (forest rule n).nodes p ≡ Some t → size rule b ≤ p
        → ChildrenHeld (size rule b) (forest rule b).peaks t }
    ensures leaf_below { (rule : List ℕ → List ℕ) → (n p k : ℕ) → (t : Tree) → slice_get (forest rule n).nodes p ≡ Some t → first_leaf t ≤ k
        → k < first_leaf t + width t → IsUnder (leaf (size rule k) k) t }
    ensures holding { (rule : List ℕ → List ℕ) → (n k : ℕ) → k < n → (i : ℕ) × (t : Tree) × (slice_get (forest rule n).peaks i ≡ Some t) × (first_leaf t ≤ k)
        × (k < first_leaf t + width t) }
{}

/// Laws of the nodes over an aligned range of leaves.
pub fn grafted_forest()
    // Over the leaves of a node, that node is the only maximal one, under any rule.
    ensures own { (rule : List ℕ → List ℕ) → (n p : ℕ) → (t : Tree) → slice_get (forest rule n).nodes p ≡ Some t
        → nodes_inside rule n (first_leaf t) (end_leaf t) ≡ t ∷ [] }

    // Under a lawful rule whose nodes are given by formulas, the formulas give the maximal nodes
    // inside an aligned range of leaves.
    ensures stretch { (rule : List ℕ → List ℕ) → (max_leaves max_nodes : ℕ) → IsLawful rule max_leaves max_nodes → (root birth : ℕ → ℕ → ℕ)
        → AreCoordinates rule max_leaves root birth
        → (n s a h : ℕ) → n ≤ max_leaves → s ≡ a * 2 ^ h → s + 2 ^ h ≤ n → map placed (nodes_inside rule n s (s + 2 ^ h)) ≡ stretch_nodes root birth n s h }
{}

/// Two lists of the same length with the same peak digests are equal, or collide at a node.
pub fn collision<D>()
    ensures collides { (h : Hashing D) → (rule : List ℕ → List ℕ) → EqDecides h → (X Y : List D) → length X ≡ length Y
        → peak_digests h rule X ≡ peak_digests h rule Y → (X ≡ Y) ⊎ Collide h rule X Y }
{}
