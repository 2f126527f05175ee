//! What a walk finds that compares a claim with a list.
ghost use Rattle.std.specs.Prelude.{◌≡◌, [], ◌∷◌, ℕ, Some, None};
ghost use Rattle.merkle_base.specs.Tree.{leaf, join};
ghost use Rattle.merkle_root_theory.specs.Check.{in_range};
ghost use Rattle.merkle_root_theory.specs.Expression.{Node, Pair, supplied, computed, cross_checked};
ghost use Rattle.merkle_claim_theory.specs.Rebuilt.{pin_at};
ghost use Rattle.merkle_claim_theory.specs.ThreeLeaves.{xor_hashing};
ghost use Rattle.merkle_audit_theory.specs.AuditRows.{merged, listed, proof_of};
ghost use Rattle.merkle_audit_theory.specs.Rows.{toy, ends};
ghost use Rattle.merkle_audit_theory.specs.Searches.{input_at};
ghost use Rattle.merkle_audit_theory.specs.Seen.{children_of};
ghost use Rattle.merkle_pins_theory.specs.PinRows.{late};
ghost use Rattle.merkle_walk_theory.specs.Compared.{WalkFindsFirst, found_over, found_in, found_among, Lists};
ghost use Rattle.merkle_walk_theory.specs.Walked.{WalksFindFirst, multi_claims, over_claims, pinned_claims, pinned_over_claims, range_claims, sibling_digests};

/// A walk over the nodes of a claim, which compares what is hashed at each with what is listed there, finds
/// the first difference.
pub fn walks<D>()
    // Whatever the claim is.
    ensures claim { WalkFindsFirst D }

    // For the claims of the checks.
    ensures checks { WalksFindFirst D }
{}

/// The definitions, computed on small cases.
pub fn worked_rows()
    // At the node before what is found below it, the left child before the right one, and below alone where
    // nothing is listed.
    ensures over_own { found_over xor_hashing 2 (4, 3) (Some (1, 3)) None None ≡ Some (record { place = Node 2; claimed = Pair 4 3; listed = Pair 1 3 }) }
    ensures over_left { found_over xor_hashing 2 (1, 3) (Some (1, 3)) (Some (record { place = Node 0; claimed = Pair 1 2; listed = Pair 1 3 }))
        (Some (record { place = Node 1; claimed = Pair 5 6; listed = Pair 7 8 }))
        ≡ Some (record { place = Node 0; claimed = Pair 1 2; listed = Pair 1 3 }) }
    ensures over_none { found_over xor_hashing 2 (4, 3) None None (Some (record { place = Node 1; claimed = Pair 5 6; listed = Pair 7 8 }))
        ≡ Some (record { place = Node 1; claimed = Pair 5 6; listed = Pair 7 8 }) }
    ensures over_equal { found_over xor_hashing 2 (1, 3) (Some (1, 3)) None None ≡ None }

    // Four leaves, of which the digests of the first two are claimed the other way round.
    ensures in_node { found_in xor_hashing (children_of (λ p. p)) (join 6 (join 2 (leaf 0 0) (leaf 1 1)) (join 5 (leaf 3 2) (leaf 4 3)))
        (computed (Node 6) (computed (Node 2) (supplied 1) (supplied 0)) (supplied 5))
        ≡ Some (record { place = Node 6; claimed = Pair 3 5; listed = Pair 2 5 }) }
    ensures in_checked { found_in xor_hashing (children_of (λ p. p)) (join 2 (leaf 0 0) (leaf 1 1))
        (cross_checked 9 (computed (Node 2) (supplied 1) (supplied 0)))
        ≡ Some (record { place = Node 2; claimed = Pair 1 0; listed = Pair 0 1 }) }
    ensures in_given { found_in xor_hashing (children_of (λ p. p)) (join 2 (leaf 0 0) (leaf 1 1)) (supplied 9) ≡ None }
    ensures among { found_among xor_hashing (children_of (λ p. p))
        ((leaf 3 2, supplied 3) ∷ (join 2 (leaf 0 0) (leaf 1 1), computed (Node 2) (supplied 1) (supplied 0)) ∷ [])
        ≡ Some (record { place = Node 2; claimed = Pair 1 0; listed = Pair 0 1 }) }

    // What is listed for the leaves 1, 3 and 7, the first two merged.
    ensures lists { Lists (λ t. Some (1, 3)) (input_at listed) (join 2 (leaf 0 0) (leaf 1 1)) }
    ensures lists_not { Lists (λ t. Some (3, 1)) (input_at listed) (join 2 (leaf 0 0) (leaf 1 1)) → ⊥ }

    // What is claimed of three leaves, the first two merged: by a proof of the first, whose digests are those of
    // the peak after it and of the sibling; and of the peaks by a proof of the last, of which none but its own overlaps
    // the range.
    ensures siblings { sibling_digests merged (proof_of 3 0 (7 ∷ 3 ∷ []) (1 ∷ [])) ≡ 3 ∷ [] }
    ensures range { range_claims merged (proof_of 3 0 (7 ∷ 3 ∷ []) (1 ∷ []))
        ≡ (join 2 (leaf 0 0) (leaf 1 1), computed (Node 2) (supplied 1) (supplied 3)) ∷ [] }
    ensures range_last { range_claims merged (proof_of 3 2 (2 ∷ []) (7 ∷ [])) ≡ (leaf 3 2, supplied 7) ∷ [] }

    // Two peaks that overlap a range each take the digests of their own siblings.
    ensures over { over_claims xor_hashing (in_range 1 3) (λ i. 9) (join 2 (leaf 0 0) (leaf 1 1) ∷ join 5 (leaf 3 2) (leaf 4 3) ∷ []) (1 ∷ 4 ∷ [])
        ≡ (join 2 (leaf 0 0) (leaf 1 1), computed (Node 2) (supplied 1) (supplied 9))
        ∷ (join 5 (leaf 3 2) (leaf 4 3), computed (Node 5) (supplied 9) (supplied 4)) ∷ [] }

    // Scattered leaves: each peak, beside the digest that the proof has of it.
    ensures multi { multi_claims toy (ends (1 ∷ 3 ∷ 7 ∷ []))
        ≡ (leaf 0 0, cross_checked 1 (supplied 1)) ∷ (leaf 1 1, supplied 3) ∷ (leaf 2 2, cross_checked 7 (supplied 7)) ∷ [] }

    // A node before the range is rebuilt from the pins, below a peak that overlaps the range too.
    ensures pinned { pinned_claims late (record { leaves = 3; inactive = 0; digests = 1 ∷ []; start = 2; elements = 7 ∷ [] }) (1 ∷ 3 ∷ [])
        ≡ (join 3 (leaf 0 0) (leaf 1 1), computed (Node 3) (supplied 1) (supplied 3)) ∷ (leaf 2 2, supplied 7) ∷ [] }
    ensures pinned_over { pinned_over_claims xor_hashing (pin_at merged 1 (1 ∷ [])) (in_range 0 1) (in_range 1 2) (λ i. 3)
        (join 2 (leaf 0 0) (leaf 1 1) ∷ []) (5 ∷ [])
        ≡ (join 2 (leaf 0 0) (leaf 1 1), computed (Node 2) (cross_checked 5 (supplied 1)) (supplied 3)) ∷ [] }
{}
