//! What a range check with pins hashes.
ghost use Rattle.std.specs.Prelude.{◌≡◌, [], ◌∷◌, ℕ, Some, None};
ghost use Rattle.merkle_base.specs.Tree.{leaf, join};
ghost use Rattle.merkle_root_theory.specs.Check.{in_range};
ghost use Rattle.merkle_root_theory.specs.Expression.{Root, PrefixFold, Node, Pair, Bytes};
ghost use Rattle.merkle_root_theory.specs.Range.{list_inputs};
ghost use Rattle.merkle_claim_theory.specs.FirstCollision.{first_collision};
ghost use Rattle.merkle_claim_theory.specs.Rebuilt.{pin_at};
ghost use Rattle.merkle_claim_theory.specs.ThreeLeaves.{xor_hashing};
ghost use Rattle.merkle_audit_theory.specs.AuditRows.{merged};
ghost use Rattle.merkle_audit_theory.specs.Searches.{input_at};
ghost use Rattle.merkle_pins_theory.specs.PinRows.{late, hashed_with};
ghost use Rattle.merkle_pins_theory.specs.PinnedFolds.{pinned_over_inputs, PinnedByPeaks};
ghost use Rattle.merkle_pins_theory.specs.PinnedNodes.{pinned_value, pinned_children, SeesDown, PinnedIsSeen};

/// At which nodes a range check with pins hashes, and what.
pub fn nodes<D>()
    // It hashes what it rebuilds from the pins at the nodes before the range that have no pin, down to
    // those that have one, and the digests of the children at the nodes that overlap the range.
    ensures { PinnedIsSeen D }
{}

/// What it hashes, by the digests of the peaks: the root's string and the folds, and then the nodes of
/// each peak.
pub fn by_peaks<D>()
    // Each peak before the range has its own digest, which is rebuilt from the pins.
    ensures { PinnedByPeaks D }
{}

/// The definitions, computed on small cases.
pub fn worked_rows()
    // Three leaves of which the first two are merged only with the third, at position 3, and a proof
    // of the third with the pins of those two: their node is hashed. With the pins swapped it has
    // the same digest, and collides.
    ensures rebuilt { hashed_with (1 ∷ []) (1 ∷ 3 ∷ []) ≡ record { place = Root; argument = Bytes (0 ∷ 0 ∷ 0 ∷ 0 ∷ 0 ∷ 0 ∷ 0 ∷ 0 ∷ 0 ∷ 3 ∷ 6 ∷ []) }
        ∷ record { place = PrefixFold 1; argument = Pair 1 7 } ∷ record { place = Node 3; argument = Pair 1 3 } ∷ [] }
    ensures pins_swapped { first_collision late.hashing (hashed_with (1 ∷ []) (3 ∷ 1 ∷ [])) (list_inputs late (1 ∷ 3 ∷ 7 ∷ []) 0)
        ≡ Some (record { place = Node 3; claimed = Pair 3 1; listed = Pair 1 3 }) }
    ensures pins_clear { first_collision late.hashing (hashed_with (1 ∷ []) (1 ∷ 3 ∷ [])) (list_inputs late (1 ∷ 3 ∷ 7 ∷ []) 0) ≡ None }

    // A node before the range has the digest that is rebuilt, any other the one that is given.
    ensures value_before { pinned_value xor_hashing (pin_at late 2 (1 ∷ 3 ∷ [])) 2 (λ p. 9) (join 3 (leaf 0 0) (leaf 1 1)) ≡ 1 }
    ensures value_other { pinned_value xor_hashing (pin_at late 2 (1 ∷ 3 ∷ [])) 2 (λ p. 9) (leaf 2 2) ≡ 9 }

    // What is hashed at a node before the range, at one with a pin, at one that overlaps it, and at
    // one after it.
    ensures children_before { pinned_children xor_hashing (pin_at late 2 (1 ∷ 3 ∷ [])) 2 3 (λ p. 9) (join 3 (leaf 0 0) (leaf 1 1)) ≡ Some (1, 3) }
    ensures children_pinned { pinned_children xor_hashing (pin_at merged 2 (0 ∷ [])) 2 3 (λ p. 9) (join 2 (leaf 0 0) (leaf 1 1)) ≡ None }
    ensures children_over { pinned_children xor_hashing (pin_at merged 1 (1 ∷ [])) 1 2 (λ p. 9) (join 2 (leaf 0 0) (leaf 1 1)) ≡ Some (1, 9) }
    ensures children_after { pinned_children xor_hashing (λ p. None) 0 1 (λ p. 9) (join 5 (leaf 3 2) (leaf 4 3)) ≡ None }
    ensures pinned_over { pinned_over_inputs xor_hashing (pin_at merged 1 (1 ∷ [])) (in_range 0 1) (in_range 1 2) (λ i. 3)
        (join 2 (leaf 0 0) (leaf 1 1) ∷ []) (1 ∷ [])
        ≡ record { place = Node 2; argument = Pair 1 3 } ∷ [] }

    // Where nothing is said nothing stands.
    ensures seen_down { SeesDown (pinned_children xor_hashing (pin_at late 2 (1 ∷ 3 ∷ [])) 2 3 (λ p. 9)) (input_at (hashed_with (1 ∷ []) (1 ∷ 3 ∷ [])))
        (join 3 (leaf 0 0) (leaf 1 1)) }
    ensures not_seen { SeesDown {D = ℕ} (λ t. None) (input_at (record { place = Node 2; argument = Pair 1 3 } ∷ [])) (join 2 (leaf 0 0) (leaf 1 1)) → ⊥ }
{}
