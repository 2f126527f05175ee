//! The names of the calls.

/// What a line asks for, but for `new`.
#[derive(Clone, Copy)]
pub enum Call {
    Family(FamilyCall),
    Plan(PlanCall),
    Given(GivenCall),
    Bytes(BytesCall),
    Structure(StructureCall),
    Node(NodeCall),
    Batch(BatchCall),
    Leaf(LeafCall),
    Every(EveryCall),
    Claim(ClaimCall),
    Proof(ProofCall),
    Store(StoreCall),
    Audit(AuditCall),
}

/// The calls of the family alone.
#[derive(Clone, Copy)]
pub enum FamilyCall {
    Height,
    Inactive,
    IsInactive,
    IsSize,
    Location,
    NearestSize,
    Parents,
    Pins,
    Position,
}

/// The calls of plans of proofs.
#[derive(Clone, Copy)]
pub enum PlanCall {
    Groups,
    Plan,
    PlanAbove,
    PlanLeaf,
    PlanLeafAbove,
    Positions,
    PositionsLeaf,
}

/// The calls of proofs and lists of nodes that the line gives.
#[derive(Clone, Copy)]
pub enum GivenCall {
    Check,
    CheckDigests,
    CheckLeaf,
    CheckLeafDigest,
    CheckMulti,
    CheckMultiDigests,
    CheckPinned,
    CheckPinnedDigests,
    Extract,
    MultiPositions,
    Reconstruct,
    SliceHistory,
    SliceMulti,
    SliceRange,
}

/// The calls of bytes and digests alone.
#[derive(Clone, Copy)]
pub enum BytesCall {
    CopyProof,
    LeafDigests,
    NodeDigests,
    ReadConfig,
    ReadHex,
    ReadProof,
    RootString,
    WriteChunk,
    WriteConfig,
    WriteHex,
    WriteLocation,
    WritePosition,
    WriteProof,
}

/// The calls of structures.
#[derive(Clone, Copy)]
pub enum StructureCall {
    Bounds,
    Copy,
    Empty,
    FirstDamaged,
    Components,
    FromComponents,
    Parts,
    Peaks,
    Prune,
    PruneAll,
    Restore,
    Same,
    WriteMem,
}

/// The calls of the nodes and roots of structures and batches.
#[derive(Clone, Copy)]
pub enum NodeCall {
    HeldLeaves,
    Leaves,
    Node,
    Nodes,
    Root,
    SameRoots,
    Size,
}

/// The calls of batches.
#[derive(Clone, Copy)]
pub enum BatchCall {
    Apply,
    Base,
    Build,
    Child,
    Forget,
    Fork,
    FromMem,
    Merkleize,
    MerkleizeCounted,
    Pending,
}

/// The calls that add and change leaves of batches.
#[derive(Clone, Copy)]
pub enum LeafCall {
    Add,
    AddAll,
    AddDigest,
    AddDigests,
    AddList,
    AddNumbers,
    Update,
    UpdateDigest,
    UpdateDigests,
    UpdateList,
}

/// The calls that prove every leaf or range of a structure, and count the proofs.
#[derive(Clone, Copy)]
pub enum EveryCall {
    Leaves,
    Pins,
    Ranges,
    Stores,
    Written,
}

/// The calls that prove one leaf of a structure, or leaves anywhere in it.
#[derive(Clone, Copy)]
pub enum ClaimCall {
    Multi,
    Prove,
    ProveSubsets,
}

/// The calls of proofs of structures and batches.
#[derive(Clone, Copy)]
pub enum ProofCall {
    Proof,
    ProofOver,
    Range,
    RangeOver,
}

/// The calls of proofs over what holds nodes, and of stores of proofs.
#[derive(Clone, Copy)]
pub enum StoreCall {
    ReadHistory,
    ReadMulti,
    ReadRange,
    ReadRoot,
    Store,
    StoreMulti,
    StoreNode,
    StoreRange,
    SuffixPeaks,
}

/// The calls of audits.
#[derive(Clone, Copy)]
pub enum AuditCall {
    Apply,
    Multi,
    MultiDigests,
    Pair,
    PairDigests,
    Pins,
    PinsDigests,
    Range,
    RangeDigests,
}

/// Each call, with its first word and the number of its words.
const CALLS: [(&str, usize, Call); 113] = [
    ("height", 2, Call::Family(FamilyCall::Height)),
    ("inactive", 3, Call::Family(FamilyCall::Inactive)),
    ("is_inactive", 4, Call::Family(FamilyCall::IsInactive)),
    ("is_size", 2, Call::Family(FamilyCall::IsSize)),
    ("location", 2, Call::Family(FamilyCall::Location)),
    ("nearest_size", 2, Call::Family(FamilyCall::NearestSize)),
    ("parents", 2, Call::Family(FamilyCall::Parents)),
    ("pins", 2, Call::Family(FamilyCall::Pins)),
    ("position", 2, Call::Family(FamilyCall::Position)),
    ("groups", 5, Call::Plan(PlanCall::Groups)),
    ("plan", 4, Call::Plan(PlanCall::Plan)),
    ("plan", 6, Call::Plan(PlanCall::PlanAbove)),
    ("plan_leaf", 3, Call::Plan(PlanCall::PlanLeaf)),
    ("plan_leaf", 5, Call::Plan(PlanCall::PlanLeafAbove)),
    ("positions", 4, Call::Plan(PlanCall::Positions)),
    ("positions_leaf", 3, Call::Plan(PlanCall::PositionsLeaf)),
    ("check", 7, Call::Given(GivenCall::Check)),
    ("check_digests", 7, Call::Given(GivenCall::CheckDigests)),
    ("check_leaf", 7, Call::Given(GivenCall::CheckLeaf)),
    (
        "check_leaf_digest",
        7,
        Call::Given(GivenCall::CheckLeafDigest),
    ),
    ("check_multi", 6, Call::Given(GivenCall::CheckMulti)),
    (
        "check_multi_digests",
        6,
        Call::Given(GivenCall::CheckMultiDigests),
    ),
    ("check_pinned", 8, Call::Given(GivenCall::CheckPinned)),
    (
        "check_pinned_digests",
        8,
        Call::Given(GivenCall::CheckPinnedDigests),
    ),
    ("extract", 7, Call::Given(GivenCall::Extract)),
    ("multi_positions", 3, Call::Given(GivenCall::MultiPositions)),
    ("reconstruct", 6, Call::Given(GivenCall::Reconstruct)),
    ("slice_history", 7, Call::Given(GivenCall::SliceHistory)),
    ("slice_multi", 5, Call::Given(GivenCall::SliceMulti)),
    ("slice_range", 6, Call::Given(GivenCall::SliceRange)),
    ("copy_proof", 4, Call::Bytes(BytesCall::CopyProof)),
    ("leaf_digests", 3, Call::Bytes(BytesCall::LeafDigests)),
    ("node_digests", 4, Call::Bytes(BytesCall::NodeDigests)),
    ("read_config", 4, Call::Bytes(BytesCall::ReadConfig)),
    ("read_hex", 2, Call::Bytes(BytesCall::ReadHex)),
    ("read_proof", 3, Call::Bytes(BytesCall::ReadProof)),
    ("root_string", 4, Call::Bytes(BytesCall::RootString)),
    ("write_chunk", 2, Call::Bytes(BytesCall::WriteChunk)),
    ("write_config", 4, Call::Bytes(BytesCall::WriteConfig)),
    ("write_hex", 2, Call::Bytes(BytesCall::WriteHex)),
    ("write_location", 2, Call::Bytes(BytesCall::WriteLocation)),
    ("write_position", 2, Call::Bytes(BytesCall::WritePosition)),
    ("write_proof", 4, Call::Bytes(BytesCall::WriteProof)),
    ("bounds", 2, Call::Structure(StructureCall::Bounds)),
    ("components", 2, Call::Structure(StructureCall::Components)),
    ("copy", 3, Call::Structure(StructureCall::Copy)),
    ("empty", 2, Call::Structure(StructureCall::Empty)),
    (
        "first_damaged",
        2,
        Call::Structure(StructureCall::FirstDamaged),
    ),
    (
        "from_components",
        5,
        Call::Structure(StructureCall::FromComponents),
    ),
    ("parts", 5, Call::Structure(StructureCall::Parts)),
    ("peaks", 2, Call::Structure(StructureCall::Peaks)),
    ("prune", 3, Call::Structure(StructureCall::Prune)),
    ("prune_all", 2, Call::Structure(StructureCall::PruneAll)),
    ("restore", 7, Call::Structure(StructureCall::Restore)),
    ("same", 3, Call::Structure(StructureCall::Same)),
    ("write_mem", 2, Call::Structure(StructureCall::WriteMem)),
    ("held_leaves", 2, Call::Node(NodeCall::HeldLeaves)),
    ("leaves", 2, Call::Node(NodeCall::Leaves)),
    ("node", 3, Call::Node(NodeCall::Node)),
    ("nodes", 2, Call::Node(NodeCall::Nodes)),
    ("root", 3, Call::Node(NodeCall::Root)),
    ("same_roots", 3, Call::Node(NodeCall::SameRoots)),
    ("size", 2, Call::Node(NodeCall::Size)),
    ("apply", 3, Call::Batch(BatchCall::Apply)),
    ("base", 2, Call::Batch(BatchCall::Base)),
    ("build", 3, Call::Batch(BatchCall::Build)),
    ("child", 3, Call::Batch(BatchCall::Child)),
    ("forget", 3, Call::Batch(BatchCall::Forget)),
    ("fork", 3, Call::Batch(BatchCall::Fork)),
    ("from_mem", 3, Call::Batch(BatchCall::FromMem)),
    ("merkleize", 3, Call::Batch(BatchCall::Merkleize)),
    (
        "merkleize_counted",
        3,
        Call::Batch(BatchCall::MerkleizeCounted),
    ),
    ("pending", 2, Call::Batch(BatchCall::Pending)),
    ("add", 3, Call::Leaf(LeafCall::Add)),
    ("add_all", 3, Call::Leaf(LeafCall::AddAll)),
    ("add_digest", 3, Call::Leaf(LeafCall::AddDigest)),
    ("add_digests", 3, Call::Leaf(LeafCall::AddDigests)),
    ("add_list", 3, Call::Leaf(LeafCall::AddList)),
    ("add_numbers", 3, Call::Leaf(LeafCall::AddNumbers)),
    ("update", 4, Call::Leaf(LeafCall::Update)),
    ("update_digest", 4, Call::Leaf(LeafCall::UpdateDigest)),
    ("update_digests", 3, Call::Leaf(LeafCall::UpdateDigests)),
    ("update_list", 3, Call::Leaf(LeafCall::UpdateList)),
    ("prove_leaves", 3, Call::Every(EveryCall::Leaves)),
    ("prove_pins", 3, Call::Every(EveryCall::Pins)),
    ("prove_ranges", 3, Call::Every(EveryCall::Ranges)),
    ("prove_stores", 3, Call::Every(EveryCall::Stores)),
    ("prove_written", 3, Call::Every(EveryCall::Written)),
    ("multi", 4, Call::Claim(ClaimCall::Multi)),
    ("prove", 5, Call::Claim(ClaimCall::Prove)),
    ("prove_subsets", 4, Call::Claim(ClaimCall::ProveSubsets)),
    ("proof", 4, Call::Proof(ProofCall::Proof)),
    ("proof_over", 5, Call::Proof(ProofCall::ProofOver)),
    ("range", 5, Call::Proof(ProofCall::Range)),
    ("range_over", 6, Call::Proof(ProofCall::RangeOver)),
    ("read_history", 6, Call::Store(StoreCall::ReadHistory)),
    ("read_multi", 4, Call::Store(StoreCall::ReadMulti)),
    ("read_range", 5, Call::Store(StoreCall::ReadRange)),
    ("read_root", 4, Call::Store(StoreCall::ReadRoot)),
    ("store", 8, Call::Store(StoreCall::Store)),
    ("store_multi", 4, Call::Store(StoreCall::StoreMulti)),
    ("store_node", 3, Call::Store(StoreCall::StoreNode)),
    ("store_range", 4, Call::Store(StoreCall::StoreRange)),
    ("suffix_peaks", 2, Call::Store(StoreCall::SuffixPeaks)),
    ("audit_apply", 3, Call::Audit(AuditCall::Apply)),
    ("audit_multi", 7, Call::Audit(AuditCall::Multi)),
    (
        "audit_multi_digests",
        7,
        Call::Audit(AuditCall::MultiDigests),
    ),
    ("audit_pair", 12, Call::Audit(AuditCall::Pair)),
    (
        "audit_pair_digests",
        12,
        Call::Audit(AuditCall::PairDigests),
    ),
    ("audit_pins", 9, Call::Audit(AuditCall::Pins)),
    ("audit_pins_digests", 9, Call::Audit(AuditCall::PinsDigests)),
    ("audit_range", 8, Call::Audit(AuditCall::Range)),
    (
        "audit_range_digests",
        8,
        Call::Audit(AuditCall::RangeDigests),
    ),
];

/// The call with this first word and this number of words.
pub fn find_call(name: &str, count: usize) -> Option<Call> {
    for (word, words, call) in &CALLS {
        if *word == name && *words == count {
            return Some(*call);
        }
    }
    None
}
