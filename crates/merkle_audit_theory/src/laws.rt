//! Laws of what is hashed for inputs and lists, and of where they collide.
//!
//! Each function is empty. Its contract is a law of the definitions in `specs/` and below.
ghost use Rattle.std.specs.Prelude.{◌≡◌, ℕ, ◌+◌, ◌*◌, ◌^◌, [], ◌∷◌, true, false, nat_eq, Some, None, map, ◌↔◌};
ghost use Rattle.merkle_base.specs.Tree.{position, leaf, join};
ghost use Rattle.merkle_base.specs.declared.family.Bagging.TheVariants.{ForwardFold, BackwardFold};
ghost use Rattle.merkle_forest_theory.specs.Mmr.{mmr_merges};
ghost use Rattle.merkle_forest_theory.specs.Mmb.{mmb_merges};
ghost use Rattle.merkle_forest_theory.specs.Rows.{unmerged};
ghost use Rattle.merkle_leaves.specs.Standard.{standard};
ghost use Rattle.merkle_root_theory.specs.Check.{in_range, range_inputs};
ghost use Rattle.merkle_root_theory.specs.Collision.{Collides};
ghost use Rattle.merkle_root_theory.specs.Expression.{Root, Join, PrefixFold, SuffixFold, Node, Pair, Bytes, inputs, supplied, computed};
ghost use Rattle.merkle_root_theory.specs.Expression.{cross_checked};
ghost use Rattle.merkle_audit_theory.specs.FewDigests.{FewPositions};
ghost use Rattle.merkle_claim_theory.specs.FirstCollision.{first_collision, is_collision};
ghost use Rattle.merkle_audit_theory.specs.Located.{node_inputs, CollideIsLocated, LocatedIsCollide};
ghost use Rattle.merkle_claim_theory.specs.Multiproof.{multi_positions, AcceptsMulti, IsHonestMulti};
ghost use Rattle.merkle_root_theory.specs.Layouts.{count_before, count_after, count_inactive, laid_out};
ghost use Rattle.merkle_root_theory.specs.Outside.{layout};
ghost use Rattle.merkle_claim_theory.specs.Pinned.{AcceptsPinned};
ghost use Rattle.merkle_audit_theory.specs.PlainHash.{IsPlain, joined_at, string_at, IsHashCollision, SameForm, StandardIsPlain, RootCollision};
ghost use Rattle.merkle_audit_theory.specs.PlainHash.{PlainCollision, RangeCollision, MultiCollision, PinnedCollision, PairCollision, NodeCollision};
ghost use Rattle.merkle_root_theory.specs.Plan.{folding, plan_expression, siblings, root_plan};
ghost use Rattle.merkle_root_theory.specs.Range.{AcceptsNonempty, IsHonestRange, IsHonestNonempty, overlapping, wholly_after, range_siblings};
ghost use Rattle.merkle_root_theory.specs.Range.{range_digests, list_inputs};
ghost use Rattle.merkle_root_theory.specs.Reads.{reading_order};
ghost use Rattle.merkle_base.specs.declared.error.ReconstructionError.TheVariants.{InvalidProof, MissingDigests, ExtraDigests, InvalidStartLoc};
ghost use Rattle.merkle_base.specs.declared.error.ReconstructionError.TheVariants.{InvalidEndLoc, MissingElements, InvalidSize};
ghost use Rattle.merkle_root_theory.specs.Reconstruction.{reconstructed};
ghost use Rattle.merkle_root_theory.specs.RootNames.{NamesRoot, AreApart, RootsCollide};
ghost use Rattle.merkle_audit_theory.specs.Rows.{ends, four, seven, single, alone, paired, toy, middle, no_elements, swapped_inputs, three_inputs};
ghost use Rattle.merkle_audit_theory.specs.Rows.{other_family, other_inputs, bare, bare_root, xor_bytes, one_byte};
ghost use Rattle.merkle_audit_theory.specs.Siblings.{PathHasSiblings};
ghost use Rattle.merkle_claim_theory.specs.ThreeLeaves.{xor_hashing, three, plan_of_three};
ghost use Rattle.merkle_claim_theory.specs.Verdict.{HonestMultiHasNoCollision, HonestPinnedHasNoCollision};
ghost use Rattle.merkle_audit_theory.specs.AuditRows.{merged, listed, hashed_for};
ghost use Rattle.merkle_audit_theory.specs.Clear.{HonestRangeIsClear, HonestMultiIsClear, HonestPinnedIsClear};
ghost use Rattle.merkle_audit_theory.specs.Cuts.{IsCutOf, IsSublist, places_in, full_places, ClaimPlaces};
ghost use Rattle.merkle_audit_theory.specs.Differences.{is_difference, first_difference, DifferencesCollide};
ghost use Rattle.merkle_audit_theory.specs.Searches.{along, input_at, looked_up, SearchesFind};
ghost use Rattle.merkle_audit_theory.specs.NodePairs.{NodesAreExtracted, MultiNodes};
ghost use Rattle.merkle_audit_theory.specs.Folds.{fold_inputs, top_inputs, multi_digest, numbered_inputs, over_inputs, InputsByPeaks, RangeByPeaks};
ghost use Rattle.merkle_audit_theory.specs.Outcomes.{rejected, clear, collision, outcome_of, IsOutcome, IsPairOutcome, AcceptedPairs, AuditsRanges};
ghost use Rattle.merkle_audit_theory.specs.Outcomes.{AuditsMultis, AuditsPins, AuditsPairs, AuditsLists, ListsCollideAtNodes};

/// Two lists of one length collide at a node exactly if the inputs of their forests collide at its
/// place.
pub fn node_collisions<D>()
    ensures located { CollideIsLocated D }
    ensures nodes { LocatedIsCollide D }
{}

/// Honest inputs have no collision with the list.
pub fn honest_inputs<D>()
    // Of scattered leaves.
    ensures multi { HonestMultiHasNoCollision D }

    // Of a range with pins.
    ensures pinned { HonestPinnedHasNoCollision D }
{}

/// Under a hasher whose nodes and folds are a plain hash of joined bytes, a located collision is
/// two different byte strings with one plain hash.
pub fn plain_hash<D>()
    // The hasher over a plain hash function is such a hasher.
    ensures standard { StandardIsPlain D }

    // Two roots that collide are such a pair, under any hasher.
    ensures roots { RootCollision D }

    // So are two arguments of one form that collide.
    ensures strings { PlainCollision D }

    // Whatever collides between a range input and a list is of one form.
    ensures ranges { RangeCollision D }

    // This also holds for checks of scattered leaves and for checks with pins.
    ensures multi { MultiCollision D }
    ensures pinned { PinnedCollision D }

    // And between two range inputs.
    ensures pairs { PairCollision D }

    // Two lists that collide at a node are such a pair too.
    ensures nodes { NodeCollision D }
{}

/// A proof needs at most 122 digests for each location, in both families, up to their greatest leaf
/// counts.
pub fn few_digests<D>()
    ensures range_positions { FewPositions D mmr_merges (2 ^ 62) }
    ensures belt_positions { FewPositions D mmb_merges (2 ^ 62 + 30) }
{}

/// The siblings on the path to a leaf, from the top down, are those that a proof of that leaf
/// needs.
pub fn paths()
    ensures { PathHasSiblings }
{}

/// What audits say, from what the checks say and what the search for the first collision finds.
pub fn verdicts<D>()
    // An honest input has no collision, the empty input of the empty list included.
    ensures clear_range { HonestRangeIsClear D }
    ensures clear_multi { HonestMultiIsClear D }
    ensures clear_pinned { HonestPinnedIsClear D }

    // An audit against a list says that the input is rejected, or honest, or what the first
    // collision is, each exactly when it is so.
    ensures ranges { AuditsRanges D }
    ensures multis { AuditsMultis D }
    ensures pins { AuditsPins D }

    // An audit of two range inputs.
    ensures pairs { AuditsPairs D }
    ensures accepted_pairs { AcceptedPairs D }

    // An audit of two lists.
    ensures lists { AuditsLists D }
    ensures at_nodes { ListsCollideAtNodes D }
{}

/// The places of claims are some of those of their leaf and inactive count, in their order.
pub fn places<D>()
    ensures { ClaimPlaces D }
{}

/// Of accepted inputs the first difference is the first collision.
pub fn differences<D>()
    ensures { DifferencesCollide D }
{}

/// Searches along the places, by two cursors or by what stands at each place, find the first
/// collision and the first difference.
pub fn searches<D>()
    ensures { SearchesFind D }
{}

/// What checks hash at nodes, and at which nodes.
pub fn nodes<D>()
    // A range check hashes the digests that are extracted for their children, at the nodes that
    // overlap the range.
    ensures ranges { NodesAreExtracted D }

    // A check of scattered leaves hashes its digests of their children, at the nodes over the
    // leaves.
    ensures multis { MultiNodes D }
{}

/// What is hashed for a list and for scattered leaves: the root's string and the folds, by the
/// digests of the peaks, and then the nodes of each peak.
pub fn by_peaks<D>()
    ensures whole { InputsByPeaks D }

    // The same of an accepted range input, by the digests that it has for the parts, of which the
    // first may stand for several peaks.
    ensures range { RangeByPeaks D }
{}

/// The definitions of layouts, checks, roots and collisions, computed on small cases.
pub fn worked_rows()
    ensures inside { map (in_range 1 3) (0 ∷ 1 ∷ 2 ∷ 3 ∷ []) ≡ false ∷ true ∷ true ∷ false ∷ [] }
    ensures overlap { map position (overlapping 4 6 seven) ≡ 9 ∷ [] }
    ensures after { map position (wholly_after 4 seven) ≡ 9 ∷ 10 ∷ [] }

    // For leaf 1 of four: its sibling, and then the node over the other two.
    ensures sibling_nodes { map position (siblings (in_range 1 2) four) ≡ 0 ∷ 5 ∷ [] }
    ensures sibling_nodes_two { map position (range_siblings 3 5 seven) ≡ 2 ∷ 3 ∷ 8 ∷ [] }
    ensures plan_forward { root_plan ForwardFold 2 (single 0 ∷ single 1 ∷ single 2 ∷ [])
        ≡ Some (folding (PrefixFold 2) (folding (PrefixFold 1) (alone 0) (alone 1)) (alone 2)) }
    ensures plan_backward { root_plan BackwardFold 2 (single 0 ∷ single 1 ∷ single 2 ∷ single 3 ∷ single 4 ∷ [])
        ≡ Some (folding Join (folding (PrefixFold 1) (alone 0) (alone 1)) (folding (SuffixFold 2) (alone 2) (folding (SuffixFold 3) (alone 3) (alone 4)))) }

    // The first part of a proof of the leaves of one peak. Forward: the peaks before it folded,
    // those after it individual. Backward: the inactive peaks before it folded, the active peaks
    // after it folded, and the rest individual.
    ensures layout_forward { layout ForwardFold 0 (single 0 ∷ single 1 ∷ []) (single 2 ∷ []) (single 3 ∷ single 4 ∷ [])
        ≡ folding (PrefixFold 1) (alone 0) (alone 1) ∷ alone 3 ∷ alone 4 ∷ [] }
    ensures layout_before { layout BackwardFold 1 (single 0 ∷ single 1 ∷ single 2 ∷ []) (single 3 ∷ []) (single 4 ∷ single 5 ∷ [])
        ≡ alone 0 ∷ alone 1 ∷ alone 2 ∷ folding (SuffixFold 4) (alone 4) (alone 5) ∷ [] }
    ensures layout_after { layout BackwardFold 5 (single 0 ∷ single 1 ∷ []) (single 2 ∷ []) (single 3 ∷ single 4 ∷ single 5 ∷ single 6 ∷ [])
        ≡ folding (PrefixFold 1) (alone 0) (alone 1) ∷ alone 3 ∷ alone 4 ∷ folding (SuffixFold 5) (alone 5) (alone 6) ∷ [] }

    // The numbers of digests of these layouts: before, after, and of inactive peaks, of which the
    // folded ones have one together.
    ensures counts_forward { count_before ForwardFold 0 (single 0 ∷ single 1 ∷ [])
        ∷ count_after ForwardFold 0 3 (single 3 ∷ single 4 ∷ [])
        ∷ count_inactive ForwardFold 0 (single 0 ∷ single 1 ∷ []) ∷ []
        ≡ 1 ∷ 2 ∷ 1 ∷ [] }
    ensures counts_before { count_before BackwardFold 1 (single 0 ∷ single 1 ∷ single 2 ∷ [])
        ∷ count_after BackwardFold 1 4 (single 4 ∷ single 5 ∷ [])
        ∷ count_inactive BackwardFold 1 (single 0 ∷ single 1 ∷ single 2 ∷ []) ∷ []
        ≡ 3 ∷ 1 ∷ 1 ∷ [] }
    ensures counts_after { count_before BackwardFold 5 (single 0 ∷ single 1 ∷ [])
        ∷ count_after BackwardFold 5 3 (single 3 ∷ single 4 ∷ single 5 ∷ single 6 ∷ [])
        ∷ count_inactive BackwardFold 5 (single 0 ∷ single 1 ∷ []) ∷ []
        ≡ 1 ∷ 3 ∷ 4 ∷ [] }

    // The prefix is folded left to right, and the suffix right to left.
    ensures laid { laid_out (λ a b. 10 * a + b) (1 ∷ 2 ∷ []) (3 ∷ 4 ∷ []) (5 ∷ 6 ∷ []) (7 ∷ []) ≡ 12 ∷ 3 ∷ 4 ∷ 56 ∷ 7 ∷ [] }
    ensures laid_backward { laid_out (λ a b. a + 2 * b) [] [] (1 ∷ 2 ∷ 4 ∷ []) (9 ∷ []) ≡ 21 ∷ 9 ∷ [] }

    // For leaf 1 of five that are all peaks.
    ensures reads_forward { map position (reading_order ForwardFold 0 toy.rule 5 1 2) ≡ 0 ∷ 2 ∷ 3 ∷ 4 ∷ [] }
    ensures reads_backward { map position (reading_order BackwardFold 0 toy.rule 5 1 2) ≡ 0 ∷ 4 ∷ 3 ∷ 2 ∷ [] }
    ensures reads_inactive { map position (reading_order BackwardFold 3 toy.rule 5 1 2) ≡ 0 ∷ 2 ∷ 4 ∷ 3 ∷ [] }

    // For the first leaf, if the first two are merged: the peak after it, and then the second leaf.
    ensures digests { range_digests (record toy { rule = paired }) (1 ∷ 3 ∷ 7 ∷ []) 0 0 1 ≡ 7 ∷ 3 ∷ [] }

    // The digests 1, 3 and 7 fold to 5, and with the leaf count hash to 6.
    ensures honest { IsHonestNonempty toy (1 ∷ 3 ∷ 7 ∷ []) 0 (middle 0 (1 ∷ 7 ∷ [])) }
    ensures other_digests { IsHonestNonempty toy (1 ∷ 3 ∷ 7 ∷ []) 0 (middle 0 (7 ∷ 1 ∷ [])) → ⊥ }
    ensures other_element { IsHonestNonempty toy (1 ∷ 2 ∷ 7 ∷ []) 0 (middle 0 (1 ∷ 7 ∷ [])) → ⊥ }
    ensures honest_range { IsHonestRange toy (1 ∷ 3 ∷ 7 ∷ []) 0 (middle 0 (1 ∷ 7 ∷ [])) }
    ensures honest_range_other { IsHonestRange toy (1 ∷ 3 ∷ 7 ∷ []) 0 (middle 0 (7 ∷ 1 ∷ [])) → ⊥ }
    ensures honest_empty { IsHonestRange toy [] 0 (record { leaves = 0; inactive = 0; digests = []; start = 0; elements = [] }) }
    ensures honest_no_elements { IsHonestRange toy (1 ∷ []) 0 (record { leaves = 1; inactive = 0; digests = 1 ∷ []; start = 0; elements = [] }) → ⊥ }
    ensures accepts { AcceptsNonempty toy (middle 0 (1 ∷ 7 ∷ [])) 6 }
    ensures accepts_inactive { AcceptsNonempty toy (middle 3 (1 ∷ 7 ∷ [])) 5 }

    // The one pin before leaf 1 is the digest of leaf 0, which the proof has too.
    ensures accepts_pinned { AcceptsPinned toy (middle 0 (1 ∷ 7 ∷ [])) (1 ∷ []) 6 }
    ensures pin_missing { AcceptsPinned toy (middle 0 (1 ∷ 7 ∷ [])) [] 6 → ⊥ }
    ensures pin_other { AcceptsPinned toy (middle 0 (1 ∷ 7 ∷ [])) (2 ∷ []) 6 → ⊥ }

    // Each of the three leaves is a peak. A proof of the first and the last one has the digests of
    // all: the two digests that are computed too are needed for proofs of one leaf.
    ensures honest_multi { IsHonestMulti toy (1 ∷ 3 ∷ 7 ∷ []) 0 (ends (1 ∷ 3 ∷ 7 ∷ [])) }
    ensures honest_multi_other { IsHonestMulti toy (1 ∷ 3 ∷ 7 ∷ []) 0 (ends (1 ∷ 2 ∷ 7 ∷ [])) → ⊥ }
    ensures accepts_multi { AcceptsMulti toy (ends (1 ∷ 3 ∷ 7 ∷ [])) 6 }
    ensures multi_other_redundant { AcceptsMulti toy (ends (2 ∷ 3 ∷ 7 ∷ [])) 6 → ⊥ }
    ensures multi_other_digest { AcceptsMulti toy (ends (1 ∷ 2 ∷ 7 ∷ [])) 6 → ⊥ }
    ensures multi_digest_missing { AcceptsMulti toy (ends (1 ∷ 3 ∷ [])) 6 → ⊥ }
    ensures multi_descending { AcceptsMulti toy (record (ends (1 ∷ 3 ∷ 7 ∷ [])) { elements = (2, 7) ∷ (0, 1) ∷ [] }) 6 → ⊥ }

    // Each of these inputs has one thing wrong. All but the first are against the root that is
    // computed for them.
    ensures other_root { AcceptsNonempty toy (middle 0 (1 ∷ 7 ∷ [])) 5 → ⊥ }
    ensures too_many_inactive { AcceptsNonempty toy (middle 4 (1 ∷ 7 ∷ [])) 2 → ⊥ }
    ensures too_many_digests { AcceptsNonempty toy (middle 0 (1 ∷ 7 ∷ 9 ∷ [])) 6 → ⊥ }
    ensures too_many_elements { AcceptsNonempty toy (record { leaves = 3; inactive = 0; digests = 2 ∷ []; start = 2; elements = 7 ∷ 9 ∷ [] }) 6 → ⊥ }
    ensures too_many_leaves { AcceptsNonempty toy (record { leaves = 4; inactive = 0; digests = 1 ∷ 7 ∷ 2 ∷ []; start = 1; elements = 3 ∷ [] }) 3 → ⊥ }
    ensures no_elements { AcceptsNonempty toy (record { leaves = 3; inactive = 0; digests = 1 ∷ 3 ∷ 7 ∷ []; start = 1; elements = [] }) 2 → ⊥ }

    // What is hashed for a list: the string of the root, then the folds from the last one down, and
    // then the nodes.
    ensures inputs_folds { three_inputs ≡ record { place = Root; argument = Bytes (0 ∷ 0 ∷ 0 ∷ 0 ∷ 0 ∷ 0 ∷ 0 ∷ 0 ∷ 0 ∷ 3 ∷ 5 ∷ []) }
        ∷ record { place = PrefixFold 2; argument = Pair 2 7 } ∷ record { place = PrefixFold 1; argument = Pair 1 3 } ∷ [] }
    ensures inputs_nodes { inputs xor_hashing (plan_expression three plan_of_three)
        ≡ record { place = PrefixFold 1; argument = Pair 0 7 } ∷ record { place = Node 2; argument = Pair 1 3 } ∷ [] }

    // With its two digests swapped, the proof of the middle leaf has the root too, and collides
    // where the last peak is folded.
    ensures accepts_swapped { AcceptsNonempty toy (middle 0 (7 ∷ 1 ∷ [])) 6 }
    ensures collides { Collides toy.hashing swapped_inputs three_inputs (record { place = PrefixFold 2; claimed = Pair 4 1; listed = Pair 2 7 }) }
    ensures no_collision { Collides toy.hashing swapped_inputs three_inputs (record { place = PrefixFold 1; claimed = Pair 7 3; listed = Pair 1 3 }) → ⊥ }
    ensures no_collision_alike { Collides toy.hashing three_inputs three_inputs (record { place = PrefixFold 2; claimed = Pair 2 7; listed = Pair 2 7 }) → ⊥ }
    ensures no_collision_elsewhere { first_collision toy.hashing
        (record { place = PrefixFold 1; argument = Pair 4 1 } ∷ []) (record { place = PrefixFold 2; argument = Pair 2 7 } ∷ []) ≡ None }

    // The string of a root of family 8 with three leaves, folded right to left, is none of a
    // different family, bagging or leaf count.
    ensures names { NamesRoot bare 3 bare_root }
    ensures names_another_count { NamesRoot bare 4 bare_root → ⊥ }
    ensures names_another_family { NamesRoot (record bare { domain = 9 }) 3 bare_root → ⊥ }
    ensures names_another_bagging { NamesRoot (record bare { bagging = ForwardFold }) 3 bare_root → ⊥ }

    // The root 6 of the leaves 1, 3 and 7 is, with the byte of a different family, that of 1, 3 and
    // 6, whose fold is 4.
    ensures apart_family { AreApart toy other_family }
    ensures apart_bagging { AreApart toy (record toy { bagging = BackwardFold }) }
    ensures not_apart { AreApart toy toy → ⊥ }
    ensures not_apart_in_hash { AreApart toy (record other_family { hashing = xor_hashing }) → ⊥ }
    ensures roots_collide { RootsCollide toy.hashing three_inputs other_inputs }
    ensures no_roots_collide { RootsCollide toy.hashing swapped_inputs three_inputs → ⊥ }

    // The bytes of two digests, at a node after its position, and of a string. Positions above 255
    // have two significant bytes.
    ensures joined_node { joined_at one_byte (Node 258) 7 9 ≡ 0 ∷ 0 ∷ 0 ∷ 0 ∷ 0 ∷ 0 ∷ 1 ∷ 2 ∷ 7 ∷ 9 ∷ [] }
    ensures joined_fold { joined_at one_byte (PrefixFold 258) 7 9 ≡ 7 ∷ 9 ∷ [] }
    ensures string_pair { string_at one_byte (Node 1) (Pair 7 9) ≡ 0 ∷ 0 ∷ 0 ∷ 0 ∷ 0 ∷ 0 ∷ 0 ∷ 1 ∷ 7 ∷ 9 ∷ [] }
    ensures string_bytes { string_at one_byte Root (Bytes (4 ∷ 5 ∷ [])) ≡ 4 ∷ 5 ∷ [] }
    ensures plain { IsPlain (standard xor_bytes one_byte nat_eq 0) }
    ensures not_plain_node { IsPlain toy.hashing → ⊥ }
    ensures not_plain_fold { IsPlain (record (standard xor_bytes one_byte nat_eq 0) { fold = λ a b. a }) → ⊥ }
    ensures hash_collision { IsHashCollision xor_bytes (2 ∷ 7 ∷ []) (4 ∷ 1 ∷ []) }
    ensures no_hash_collision { IsHashCollision xor_bytes (2 ∷ 7 ∷ []) (2 ∷ 6 ∷ []) → ⊥ }
    ensures no_hash_collision_alike { IsHashCollision xor_bytes (2 ∷ 7 ∷ []) (2 ∷ 7 ∷ []) → ⊥ }
    ensures one_form { SameForm {D = ℕ} (Pair 1 2) (Pair 3 4) × SameForm {D = ℕ} (Bytes []) (Bytes (1 ∷ [])) }
    ensures two_forms { (SameForm {D = ℕ} (Pair 1 2) (Bytes (1 ∷ 2 ∷ [])) → ⊥) × (SameForm {D = ℕ} (Bytes (1 ∷ 2 ∷ [])) (Pair 1 2) → ⊥) }

    // Three leaves of which the first two are merged at position 2, and the same with those two
    // swapped.
    ensures inputs_forest { node_inputs xor_hashing paired (1 ∷ 3 ∷ 7 ∷ []) ≡ record { place = Node 2; argument = Pair 1 3 } ∷ [] }
    ensures collides_at_node { Collides xor_hashing (node_inputs xor_hashing paired (1 ∷ 3 ∷ 7 ∷ [])) (node_inputs xor_hashing paired (3 ∷ 1 ∷ 7 ∷ []))
        (record { place = Node 2; claimed = Pair 1 3; listed = Pair 3 1 }) }

    // Every error for a proof of the middle one of three leaves, and for a proof without elements.
    ensures leads { reconstructed toy (middle 0 (1 ∷ 7 ∷ [])) ≡ Ok 6 }
    ensures start_past { reconstructed toy (record (middle 0 []) { start = 3 }) ≡ Err InvalidStartLoc }
    ensures end_past_limit { reconstructed toy (record (middle 0 []) { start = 2; leaves = 9; elements = 3 ∷ 3 ∷ [] }) ≡ Err InvalidEndLoc }
    ensures end_past_leaves { reconstructed toy (record (middle 0 []) { leaves = 1 }) ≡ Err InvalidEndLoc }
    ensures leaves_past_limit { reconstructed toy (record (middle 9 []) { leaves = 4 }) ≡ Err InvalidSize }
    ensures inactive_past_peaks { reconstructed toy (middle 4 []) ≡ Err InvalidSize }
    ensures digest_missing { reconstructed toy (middle 0 (1 ∷ [])) ≡ Err MissingDigests }
    ensures digest_extra { reconstructed toy (middle 0 (1 ∷ 7 ∷ 7 ∷ [])) ≡ Err ExtraDigests }
    ensures empty_leads { reconstructed toy (no_elements 0 0 0 []) ≡ Ok 0 }
    ensures empty_start { reconstructed toy (no_elements 1 1 1 []) ≡ Err MissingElements }
    ensures empty_inactive { reconstructed toy (no_elements 0 1 1 []) ≡ Err InvalidProof }
    ensures empty_leaves { reconstructed toy (no_elements 0 0 1 (1 ∷ [])) ≡ Err MissingElements }
    ensures empty_digest { reconstructed toy (no_elements 0 0 0 (1 ∷ [])) ≡ Err ExtraDigests }

    // If nothing is merged, the digests for a leaf are those of all other leaves.
    ensures positions { multi_positions toy.rule 3 (1 ∷ []) ≡ 0 ∷ 2 ∷ [] }
    ensures too_many_positions { FewPositions ℕ unmerged 124 → ⊥ }
{}

/// Small cases: each leaf is a peak, or of three leaves the first two are merged at position 2; the
/// hash is the exclusive or.
pub fn worked_audits()
    // An input whose two digests are swapped: it collides where the last peak is folded.
    ensures said_collision { outcome_of true (first_collision toy.hashing swapped_inputs three_inputs)
        ≡ collision (record { place = PrefixFold 2; claimed = Pair 4 1; listed = Pair 2 7 }) }
    ensures said_clear { outcome_of true (first_collision toy.hashing three_inputs three_inputs) ≡ clear }
    ensures said_rejected { outcome_of false (first_collision toy.hashing swapped_inputs three_inputs) ≡ rejected }

    // It is wrong to name a place where both arguments are equal, or where the digests differ, and
    // to say nothing where something collides.
    ensures equal_arguments { IsOutcome Unit ⊥ toy.hashing three_inputs three_inputs (collision (record {
      place = PrefixFold 2;
      claimed = Pair 2 7;
      listed = Pair 2 7;
    })) → ⊥ }
    ensures other_digests { IsOutcome Unit ⊥ toy.hashing swapped_inputs three_inputs (collision (record {
      place = PrefixFold 1;
      claimed = Pair 7 3;
      listed = Pair 1 3;
    })) → ⊥ }
    ensures silent { IsPairOutcome Unit Unit toy.hashing swapped_inputs three_inputs clear → ⊥ }
    ensures refused_yes { IsOutcome Unit ⊥ toy.hashing swapped_inputs three_inputs rejected → ⊥ }

    // The empty input of the empty list.
    ensures empty_clear { first_collision toy.hashing (range_inputs toy (no_elements 0 0 0 [])) (list_inputs toy [] 0) ≡ None }

    // Proofs against the leaves 1, 3 and 7: a leaf count of one, wrong digests, and the right ones.
    ensures at_root { first_collision merged.hashing (hashed_for 1 0 [] (5 ∷ [])) listed
        ≡ Some (record {
          place = Root;
          claimed = Bytes (0 ∷ 0 ∷ 0 ∷ 0 ∷ 0 ∷ 0 ∷ 0 ∷ 0 ∷ 0 ∷ 1 ∷ 5 ∷ []);
          listed = Bytes (0 ∷ 0 ∷ 0 ∷ 0 ∷ 0 ∷ 0 ∷ 0 ∷ 0 ∷ 0 ∷ 3 ∷ 7 ∷ []);
        }) }
    ensures at_fold { first_collision merged.hashing (hashed_for 3 0 (3 ∷ 7 ∷ []) (1 ∷ [])) listed
        ≡ Some (record { place = PrefixFold 1; claimed = Pair 4 3; listed = Pair 0 7 }) }
    ensures at_node { first_collision merged.hashing (hashed_for 3 0 (7 ∷ 0 ∷ []) (2 ∷ [])) listed
        ≡ Some (record { place = Node 2; claimed = Pair 2 0; listed = Pair 1 3 }) }
    ensures nowhere { first_collision merged.hashing (hashed_for 3 0 (7 ∷ 3 ∷ []) (1 ∷ [])) listed ≡ None }

    // Two proofs against one root.
    ensures pair_at_node { first_collision merged.hashing (hashed_for 3 0 (7 ∷ 3 ∷ []) (1 ∷ [])) (hashed_for 3 0 (7 ∷ 0 ∷ []) (2 ∷ []))
        ≡ Some (record { place = Node 2; claimed = Pair 1 3; listed = Pair 2 0 }) }
    ensures pair_at_fold { first_collision merged.hashing (hashed_for 3 0 (3 ∷ 7 ∷ []) (1 ∷ [])) (hashed_for 3 2 (0 ∷ []) (7 ∷ []))
        ≡ Some (record { place = PrefixFold 1; claimed = Pair 4 3; listed = Pair 0 7 }) }
    ensures pair_clear { first_collision merged.hashing (hashed_for 3 0 (7 ∷ 3 ∷ []) (1 ∷ [])) (hashed_for 3 2 (0 ∷ []) (7 ∷ [])) ≡ None }

    // Two lists with one peak digest.
    ensures lists_at_node { first_collision xor_hashing (node_inputs xor_hashing paired (2 ∷ 0 ∷ [])) (node_inputs xor_hashing paired (1 ∷ 3 ∷ []))
        ≡ Some (record { place = Node 2; claimed = Pair 2 0; listed = Pair 1 3 }) }
    ensures lists_clear { first_collision xor_hashing (node_inputs xor_hashing paired (1 ∷ 3 ∷ [])) (node_inputs xor_hashing paired (1 ∷ 3 ∷ [])) ≡ None }

    // All places of three leaves, and those of proofs of the first and the last of them.
    ensures all_places { full_places merged 3 0 ≡ Root ∷ PrefixFold 1 ∷ Node 2 ∷ [] }
    ensures places_alone { full_places toy 3 0 ≡ Root ∷ PrefixFold 2 ∷ PrefixFold 1 ∷ [] }
    ensures no_places { full_places toy 0 0 ≡ Root ∷ [] }
    ensures first_places { places_in (hashed_for 3 0 (7 ∷ 3 ∷ []) (1 ∷ [])) ≡ Root ∷ PrefixFold 1 ∷ Node 2 ∷ [] }
    ensures last_places { places_in (hashed_for 3 2 (0 ∷ []) (7 ∷ [])) ≡ Root ∷ PrefixFold 1 ∷ [] }
    ensures in_order { IsSublist (Root ∷ Node 2 ∷ []) (Root ∷ PrefixFold 1 ∷ Node 2 ∷ []) }
    ensures out_of_order { IsSublist (Node 2 ∷ Root ∷ []) (Root ∷ PrefixFold 1 ∷ Node 2 ∷ []) → ⊥ }

    // The folds of four peaks with the digests 1, 3, 7 and 8, none or two of them inactive.
    ensures folds_forward { fold_inputs xor_hashing ForwardFold 0 (1 ∷ 3 ∷ 7 ∷ 8 ∷ [])
        ≡ record { place = PrefixFold 3; argument = Pair 5 8 } ∷ record { place = PrefixFold 2; argument = Pair 2 7 }
        ∷ record { place = PrefixFold 1; argument = Pair 1 3 } ∷ [] }
    ensures folds_backward { fold_inputs xor_hashing BackwardFold 0 (1 ∷ 3 ∷ 7 ∷ 8 ∷ [])
        ≡ record { place = Join; argument = Pair 1 12 } ∷ record { place = SuffixFold 1; argument = Pair 3 15 }
        ∷ record { place = SuffixFold 2; argument = Pair 7 8 } ∷ [] }
    ensures folds_inactive { fold_inputs xor_hashing BackwardFold 2 (1 ∷ 3 ∷ 7 ∷ 8 ∷ [])
        ≡ record { place = Join; argument = Pair 2 15 } ∷ record { place = PrefixFold 1; argument = Pair 1 3 }
        ∷ record { place = SuffixFold 2; argument = Pair 7 8 } ∷ [] }
    ensures folds_numbered { numbered_inputs xor_hashing BackwardFold 4 2 3 (1 ∷ 3 ∷ 7 ∷ 8 ∷ [])
        ≡ record { place = Join; argument = Pair 2 15 } ∷ record { place = PrefixFold 3; argument = Pair 1 3 }
        ∷ record { place = SuffixFold 4; argument = Pair 7 8 } ∷ [] }
    ensures nodes_over { over_inputs xor_hashing (in_range 0 1) (λ i. 2) (join 2 (leaf 0 0) (leaf 1 1) ∷ leaf 3 2 ∷ []) (0 ∷ 7 ∷ [])
        ≡ record { place = Node 2; argument = Pair 2 0 } ∷ [] }
    ensures folds_one { fold_inputs xor_hashing BackwardFold 0 (1 ∷ []) ≡ [] }
    ensures top_of_none { top_inputs toy 0 0 [] ≡ record { place = Root; argument = Bytes (0 ∷ 0 ∷ 0 ∷ 0 ∷ 0 ∷ 0 ∷ 0 ∷ 0 ∷ 0 ∷ 0 ∷ []) } ∷ [] }
    ensures peak_digest { multi_digest toy (ends (1 ∷ 3 ∷ 7 ∷ [])) (leaf 1 1) ≡ 3 }

    // What is hashed may be supplied instead, and may be told too; what is supplied is not hashed.
    ensures cut { IsCutOf {D = ℕ} (computed Join (supplied 1) (cross_checked 5 (supplied 2)))
        (computed Join (computed (Node 2) (supplied 3) (supplied 4)) (supplied 0)) }
    ensures no_cut { IsCutOf {D = ℕ} (computed Join (supplied 1) (supplied 2)) (supplied 3) → ⊥ }
    ensures no_cut_elsewhere { IsCutOf {D = ℕ} (computed Join (supplied 1) (supplied 2)) (computed Root (supplied 1) (supplied 2)) → ⊥ }

    // A difference need not have one digest.
    ensures difference { first_difference toy.hashing swapped_inputs three_inputs
        ≡ Some (record { place = PrefixFold 2; claimed = Pair 4 1; listed = Pair 2 7 }) }
    ensures difference_alone { first_difference toy.hashing (record { place = PrefixFold 1; argument = Pair 4 1 } ∷ [])
        (record { place = PrefixFold 1; argument = Pair 4 2 } ∷ [])
        ≡ Some (record { place = PrefixFold 1; claimed = Pair 4 1; listed = Pair 4 2 }) }
    ensures no_difference { first_difference toy.hashing three_inputs three_inputs ≡ None }

    // With a cursor in each list.
    ensures cursors { along (is_collision toy.hashing) (full_places toy 3 0) swapped_inputs three_inputs
        ≡ Some (record { place = PrefixFold 2; claimed = Pair 4 1; listed = Pair 2 7 }) }
    ensures cursors_skip { along (is_difference toy.hashing) (Root ∷ PrefixFold 1 ∷ Node 2 ∷ [])
        (record { place = Node 2; argument = Pair 4 1 } ∷ []) (record { place = PrefixFold 1; argument = Pair 4 0 }
        ∷ record { place = Node 2; argument = Pair 4 2 } ∷ [])
        ≡ Some (record { place = Node 2; claimed = Pair 4 1; listed = Pair 4 2 }) }
    ensures looked { looked_up (is_difference toy.hashing) (Root ∷ PrefixFold 1 ∷ Node 2 ∷ [])
        (input_at (record { place = Node 2; argument = Pair 4 1 } ∷ [])) (input_at (record { place = PrefixFold 1; argument = Pair 4 0 }
        ∷ record { place = Node 2; argument = Pair 4 2 } ∷ []))
        ≡ Some (record { place = Node 2; claimed = Pair 4 1; listed = Pair 4 2 }) }
{}
