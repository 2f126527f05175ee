//! The digests of nodes from those of scattered leaves and the digests that a proof supplies.
ghost use Rattle.std.specs.Prelude.{◌≡◌, ◌+◌, ◌<◌, ◌≤◌, ◌++◌, ℕ, List, Option, false, OnOk, IfOk, IfSome, IsTrue, IsNone, drop, length, map};
ghost use Rattle.std.specs.List.Sorted.{IsStrictlyIncreasing};
ghost use Rattle.merkle_base.specs.Hashing.{Hashing};
ghost use Rattle.merkle_base.specs.Places.{peaks_of};
ghost use Rattle.merkle_base.specs.Tree.{Tree};
ghost use Rattle.merkle_forest_theory.specs.Ascending.{AscendsFrom};
ghost use Rattle.merkle_base.specs.Table.{digest_for};
ghost use Rattle.merkle_root_theory.specs.Expression.{value};
ghost use Rattle.merkle_scattered.specs.Confirmed.{ConfirmsPeaks, RefutesPeaks, EachHolds, IsChecked, AreChecked, locations_of, node_checked, nodes_checked, checked_node, all_children_met, all_parents_met, parent_met};

use crate::checked_node::{CheckedNode, count_before};
use crate::supplied::SuppliedDigests;
use merkle_base::family::Family;
use merkle_base::location::Location;
use merkle_digest::digest::Digest;
use merkle_hasher::hasher::{Hasher, Parent};
use merkle_hasher::nodes::node_digests;
use merkle_hasher::peaks::peak_subtrees;
use std::alloc::{AllocError, Global};

/// Computes the digests of the peaks of `leaves` leaves, oldest first, from those of some leaves and
/// the supplied digests.
///
/// The leaves in `located` ascend by location. `None` if a supplied digest differs from the one that
/// is computed for the same node.
pub fn confirm_peaks<F: Family, H: Hasher<F>>(
    alloc: Global,
    leaves: Location<F>,
    hasher: &H,
    told: &SuppliedDigests<'_, F, H::Digest>,
    located: &[(Location<F>, H::Digest)],
) -> Result<Option<Vec<H::Digest>>, AllocError>
    requires within_max_leaves { leaves ≤ F.MAX_LEAVES }
    requires rises { IsStrictlyIncreasing told.now.positions.now }
    requires ascend { AscendsFrom 0 (locations_of located.now) }
    ensures some { IfOk result (λ o. IfSome o (
        ConfirmsPeaks (H.hashing hasher.now) F.rule leaves told.now.positions.now told.now.digests.now located.now)) }
    ensures none { IfOk result (λ o. IsNone o
        → RefutesPeaks (H.hashing hasher.now) F.rule leaves told.now.positions.now told.now.digests.now located.now) }
{
    let peaks = list_peaks(alloc, leaves, located)?;
    confirm_nodes(alloc, hasher, told, located, &peaks)
}

// Lists the peaks of `leaves` leaves, oldest first.
fn list_peaks<F: Family, D: Digest>(
    alloc: Global,
    leaves: Location<F>,
    located: &[(Location<F>, D)],
) -> Result<Vec<CheckedNode<F>>, AllocError>
    requires within_max_leaves { leaves ≤ F.MAX_LEAVES }
    ensures { IfOk result (λ v. v.items ≡ map (checked_node located.now) (peaks_of F.rule leaves)) }
{
    let mut peaks = Vec::new(alloc);
    let mut from = 0;
    for subtree in peak_subtrees(leaves) {
        let to = count_before(located, from, subtree.leaf_end());
        peaks.push(CheckedNode { subtree, from, to })?;
        from = to;
    }
    Ok(peaks)
}

// Computes the digests of nodes from those of the leaves in `located` below them, which ascend by
// location, and the supplied digests of the maximal nodes without such leaves.
//
// The children of all nodes are computed before, so that parents are hashed several at a time.
// `None` if a supplied digest differs from the one that is computed for one of the nodes, or for a
// node below them.
fn confirm_nodes<F: Family, H: Hasher<F>>(
    alloc: Global,
    hasher: &H,
    told: &SuppliedDigests<'_, F, H::Digest>,
    located: &[(Location<F>, H::Digest)],
    nodes: &[CheckedNode<F>],
) -> Result<Option<Vec<H::Digest>>, AllocError>
    requires rises { IsStrictlyIncreasing told.now.positions.now }
    requires ascend { AscendsFrom 0 (locations_of located.now) }
    requires nodes { (ts : List Tree) × AreChecked F.rule F.MAX_LEAVES located.now nodes.now ts }
    ensures some { let h = H.hashing hasher.now in let a = digest_for told.now.positions.now told.now.digests.now in
        IfOk result (λ o. IfSome o (λ v. (ts : List Tree) → AreChecked F.rule F.MAX_LEAVES located.now nodes.now ts
        → EachHolds h a located.now ts × (v.items ≡ nodes_checked h a located.now ts))) }
    ensures none { let h = H.hashing hasher.now in let a = digest_for told.now.positions.now told.now.digests.now in
        IfOk result (λ o. IsNone o → (ts : List Tree) → AreChecked F.rule F.MAX_LEAVES located.now nodes.now ts
        → ¬ EachHolds h a located.now ts) }
{
    let mut children = Vec::with_capacity(alloc, nodes.len())?;
    push_children(located, nodes, &mut children)?;
    let mut parents = Vec::with_capacity(alloc, children.len() / 2)?;
    if children.is_empty() {
        return confirm_over(alloc, hasher, told, located, nodes, &parents);
    }
    let Some(below) = confirm_nodes(alloc, hasher, told, located, &children)? else {
        return Ok(None);
    };
    push_parents(nodes, &below, &mut parents)?;
    confirm_over(alloc, hasher, told, located, nodes, &parents)
}

// Computes the digests of nodes whose children are computed: `parents` are the positions of those
// that have some of the leaves below them, with the digests of their children.
//
// `None` if a supplied digest differs from the one that is computed for one of the nodes.
fn confirm_over<F: Family, H: Hasher<F>>(
    alloc: Global,
    hasher: &H,
    told: &SuppliedDigests<'_, F, H::Digest>,
    located: &[(Location<F>, H::Digest)],
    nodes: &[CheckedNode<F>],
    parents: &[Parent<F, H::Digest>],
) -> Result<Option<Vec<H::Digest>>, AllocError>
    requires rises { IsStrictlyIncreasing told.now.positions.now }
    requires ascend { AscendsFrom 0 (locations_of located.now) }
    requires nodes { let h = H.hashing hasher.now in let a = digest_for told.now.positions.now told.now.digests.now in
        (ts : List Tree) × AreChecked F.rule F.MAX_LEAVES located.now nodes.now ts × (parents.now ≡ all_parents_met h a located.now ts) }
    ensures some { let h = H.hashing hasher.now in let a = digest_for told.now.positions.now told.now.digests.now in
        IfOk result (λ o. IfSome o (λ v. (ts : List Tree) → AreChecked F.rule F.MAX_LEAVES located.now nodes.now ts
        → parents.now ≡ all_parents_met h a located.now ts → EachHolds h a located.now (all_children_met located.now ts)
        → EachHolds h a located.now ts × (v.items ≡ nodes_checked h a located.now ts))) }
    ensures none { let h = H.hashing hasher.now in let a = digest_for told.now.positions.now told.now.digests.now in
        IfOk result (λ o. IsNone o → (ts : List Tree) → AreChecked F.rule F.MAX_LEAVES located.now nodes.now ts
        → parents.now ≡ all_parents_met h a located.now ts → ¬ EachHolds h a located.now ts) }
{
    let mut computed = Vec::with_capacity(alloc, parents.len())?;
    node_digests(hasher, parents, &mut computed)?;
    let mut digests = Vec::with_capacity(alloc, nodes.len())?;
    if !push_digests(told, located, nodes, &computed, &mut digests)? {
        return Ok(None);
    }
    Ok(Some(digests))
}

// Appends the children of those nodes that have some of the leaves below them, in the order of the
// nodes.
fn push_children<F: Family, D: Digest>(
    located: &[(Location<F>, D)],
    nodes: &[CheckedNode<F>],
    children: &mut Vec<CheckedNode<F>>,
) -> Result<(), AllocError>
    requires ascend { AscendsFrom 0 (locations_of located.now) }
    requires nodes { (ts : List Tree) × AreChecked F.rule F.MAX_LEAVES located.now nodes.now ts }
    ensures { OnOk result ((ts : List Tree) → AreChecked F.rule F.MAX_LEAVES located.now nodes.now ts
        → children.new.items ≡ children.old.items ++ map (checked_node located.now) (all_children_met located.now ts)) }
{
    for node in nodes {
        if node.is_parent() {
            let (left, right) = node.children(located);
            children.push(left)?;
            children.push(right)?;
        }
    }
    Ok(())
}

// Appends the positions of those nodes that have some of the leaves below them, with the digests of
// their children, in the order of the nodes. `below` are the digests of all these children.
fn push_parents<F: Family, D: Digest>(
    nodes: &[CheckedNode<F>],
    below: &[D],
    parents: &mut Vec<Parent<F, D>>,
) -> Result<(), AllocError>
    requires nodes { (es : List (ℕ × D)) × (ts : List Tree) × AscendsFrom 0 (locations_of es) × AreChecked F.rule F.MAX_LEAVES es nodes.now ts
        × (length below.now ≡ length (all_children_met es ts)) }
    ensures { OnOk result ((h : Hashing D) (a : ℕ → Option D) (es : List (ℕ × D)) (ts : List Tree) → AscendsFrom 0 (locations_of es)
        → AreChecked F.rule F.MAX_LEAVES es nodes.now ts → below.now ≡ nodes_checked h a es (all_children_met es ts)
        → parents.new.items ≡ parents.old.items ++ all_parents_met h a es ts) }
{
    let mut next = 0;
    for node in nodes {
        if node.is_parent() {
            parents.push((node.subtree.position, below[next], below[next + 1]))?;
            next += 2;
        }
    }
    Ok(())
}

// Appends the digests of nodes, in their order: those that are computed of parents, those of the
// leaves in `located`, and the supplied ones of the other nodes. `computed` are those of all
// parents.
//
// `false` if a supplied digest differs from the one that is computed for the same node.
fn push_digests<F: Family, D: Digest>(
    told: &SuppliedDigests<'_, F, D>,
    located: &[(Location<F>, D)],
    nodes: &[CheckedNode<F>],
    computed: &[D],
    digests: &mut Vec<D>,
) -> Result<bool, AllocError>
    requires rises { IsStrictlyIncreasing told.now.positions.now }
    requires ascend { AscendsFrom 0 (locations_of located.now) }
    requires nodes { (h : Hashing D) × (a : ℕ → Option D) × (ts : List Tree) × AreChecked F.rule F.MAX_LEAVES located.now nodes.now ts
        × (length computed.now ≡ length (all_parents_met h a located.now ts)) }
    ensures confirmed { let a = digest_for told.now.positions.now told.now.digests.now in
        IfOk result (λ yes. IsTrue yes → (h : Hashing D) (ts : List Tree) → h.empty ≡ D.EMPTY
        → AreChecked F.rule F.MAX_LEAVES located.now nodes.now ts → EachHolds h a located.now (all_children_met located.now ts)
        → computed.now ≡ map (λ n. h.node n.0 n.1 n.2) (all_parents_met h a located.now ts)
        → EachHolds h a located.now ts × (digests.new.items ≡ digests.old.items ++ nodes_checked h a located.now ts)) }
    ensures refuted { let a = digest_for told.now.positions.now told.now.digests.now in
        IfOk result (λ yes. yes ≡ false → (h : Hashing D) (ts : List Tree) → h.empty ≡ D.EMPTY
        → AreChecked F.rule F.MAX_LEAVES located.now nodes.now ts → computed.now ≡ map (λ n. h.node n.0 n.1 n.2) (all_parents_met h a located.now ts)
        → ¬ EachHolds h a located.now ts) }
{
    let mut next = 0;
    let mut place = 0;
    for node in nodes {
        let position = node.subtree.position;
        if node.is_unmet() {
            digests.push(told.or_empty(position, &mut place))?;
        } else {
            let digest = digest_met(located, node, computed, &mut next);
            if !told.agrees(position, &digest, &mut place) {
                return Ok(false);
            }
            digests.push(digest)?;
        }
    }
    Ok(true)
}

// Returns the digest of a node with some of the leaves in `located` below it: that of the leaf, or
// else the next one of `computed`, of which `next` are taken.
fn digest_met<F: Family, D: Digest>(
    located: &[(Location<F>, D)],
    node: &CheckedNode<F>,
    computed: &[D],
    next: &mut usize,
) -> D
    requires met { node.now.from < node.now.to }
    requires ascend { AscendsFrom 0 (locations_of located.now) }
    requires node { (h : Hashing D) × (a : ℕ → Option D) × (t : Tree) × IsChecked F.rule F.MAX_LEAVES located.now node.now t
        × (next.old + length (parent_met h a located.now t) ≤ length computed.now) }
    ensures digest { (h : Hashing D) (a : ℕ → Option D) (t : Tree) (more : List D) → IsChecked F.rule F.MAX_LEAVES located.now node.now t
        → drop next.old computed.now ≡ map (λ n. h.node n.0 n.1 n.2) (parent_met h a located.now t) ++ more
        → (result ≡ value h (node_checked h a located.now t)) × (drop next.new computed.now ≡ more) }
    ensures taken { (h : Hashing D) (a : ℕ → Option D) (t : Tree) → IsChecked F.rule F.MAX_LEAVES located.now node.now t
        → next.new ≡ next.old + length (parent_met h a located.now t) }
{
    if node.subtree.height == 0 {
        return located[node.from].1;
    }
    let digest = computed[*next];
    *next += 1;
    digest
}
