//! Calls of plans of proofs.

use crate::refusal::granted;
use crate::values::range;
use crate::writing::write_granted_positions;
use merkle_core::digest::Digest;
use merkle_core::family::Family;
use merkle_core::hasher::Hasher;
use merkle_core::location::Location;
use merkle_core::position::Position;
use merkle_core::proof::{ElementPlan, RangePlan};
use merkle_core::range_plan::Groups;
use rows_text::answer::Answer;
use rows_text::refusal::Refusal;
use rows_text::words::Words;

// The plan of the leaf count and the range that the words name.
fn range_plan<F: Family>(words: &mut Words) -> Result<RangePlan<F>, Refusal> {
    let leaves = Location::new(words.number());
    let range = range(words);
    words.end()?;
    granted(RangePlan::new(words.alloc(), leaves, range))
}

// The plan of the leaf count and the leaf that the words name.
fn leaf_plan<F: Family>(words: &mut Words) -> Result<ElementPlan<F>, Refusal> {
    let leaves = Location::new(words.number());
    let leaf = Location::new(words.number());
    words.end()?;
    granted(ElementPlan::new(words.alloc(), leaves, leaf))
}

// The plan's proof, for the number of inactive peaks that a word names, over nodes of which those past the position that
// another names alone are there, all with the digest of no nodes.
fn build_above<F: Family, H: Hasher<F>>(
    hasher: &H,
    plan: RangePlan<F>,
    words: &mut Words,
) -> Result<(), Refusal> {
    let inactive = words.count();
    let above = words.number();
    words.end()?;
    let built = plan.build(
        hasher,
        inactive,
        move |position: Position<F>| -> Option<H::Digest> {
            if position.as_u64() > above {
                Some(H::Digest::EMPTY)
            } else {
                None
            }
        },
    );
    let _proof = granted(built)?;
    Ok(())
}

/// Whether there is a plan of the proof of a range.
pub fn plan<F: Family>(words: &mut Words) -> Result<(), Refusal> {
    let _plan = range_plan::<F>(words)?;
    Ok(())
}

/// The leaf and the leaf count of the plan of the proof of a leaf.
pub fn plan_leaf<F: Family>(words: &mut Words, answer: &mut Answer) -> Result<(), Refusal> {
    let plan = leaf_plan::<F>(words)?;
    answer.number(plan.location().as_u64());
    answer.text(" of ");
    let plan = RangePlan::from(plan);
    answer.number(plan.leaves().as_u64());
    Ok(())
}

/// The positions that the plan of the proof of a range reads.
pub fn positions<F: Family>(words: &mut Words, answer: &mut Answer) -> Result<(), Refusal> {
    let plan = range_plan::<F>(words)?;
    write_granted_positions(answer, plan.positions())
}

/// The positions that the plan of the proof of a leaf reads.
pub fn positions_leaf<F: Family>(words: &mut Words, answer: &mut Answer) -> Result<(), Refusal> {
    let plan = leaf_plan::<F>(words)?;
    write_granted_positions(answer, plan.positions())
}

/// Whether the plan of the proof of a range gives one over the nodes past a position.
pub fn plan_above<F: Family, H: Hasher<F>>(hasher: &H, words: &mut Words) -> Result<(), Refusal> {
    let plan = range_plan(words)?;
    build_above(hasher, plan, words)
}

/// Whether the plan of the proof of a leaf gives one over the nodes past a position.
pub fn plan_leaf_above<F: Family, H: Hasher<F>>(
    hasher: &H,
    words: &mut Words,
) -> Result<(), Refusal> {
    let plan = RangePlan::from(leaf_plan(words)?);
    build_above(hasher, plan, words)
}

/// The numbers of peaks in each part of the proof of a range: folded before it, before it, overlapping it, after it, and
/// folded after it.
pub fn groups<F: Family, H: Hasher<F>>(
    hasher: &H,
    words: &mut Words,
    answer: &mut Answer,
) -> Result<(), Refusal> {
    let leaves = Location::<F>::new(words.number());
    let range = range(words);
    let inactive = words.count();
    words.end()?;
    let plan = granted(RangePlan::new(words.alloc(), leaves, range))?;
    match plan.groups(hasher.root_bagging(), inactive) {
        Some(groups) => write_groups(answer, groups),
        None => answer.text("none"),
    }
    Ok(())
}

fn write_groups(answer: &mut Answer, groups: Groups) {
    let Groups {
        folded,
        before,
        overlapping,
        after,
        suffix,
    } = groups;
    for (index, count) in [folded, before, overlapping, after, suffix]
        .iter()
        .enumerate()
    {
        answer.separator(",", index == 0);
        answer.number(*count as u64);
    }
}
