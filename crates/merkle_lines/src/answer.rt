//! What is printed for a line, and the names of errors.
ghost use Rattle.std.specs.Prelude.{◌≡◌, ℕ, List, Some, codes};
ghost use Rattle.merkle_lines.specs.AnswerText.{answer_text, spot_text};
ghost use Rattle.merkle_lines.specs.ErrorNames.{decode_error_name, error_name, hex_error_name};

use merkle_commands::hex_words::HexError;
use merkle_core::error::{DecodeError, Error, OutOfMemory};
use std::fmt;

/// Where two inputs collide.
#[derive(Clone, Copy, Debug)]
pub enum Spot {
    /// `root`.
    Root,
    /// `join`.
    Join,
    /// `prefix NUMBER`.
    Prefix(usize),
    /// `suffix NUMBER`.
    Suffix(usize),
    /// `node POSITION`.
    Node(u64),
}

impl fmt::Display for Spot {
    ghost output = { λ s. Some (spot_text s) };

    fn fmt<W: fmt::Write>(&self, f: &mut fmt::Formatter<W>) -> fmt::Result {
        match self {
            Spot::Root => write!(f, "root"),
            Spot::Join => write!(f, "join"),
            Spot::Prefix(number) => write!(f, "prefix {number}"),
            Spot::Suffix(number) => write!(f, "suffix {number}"),
            Spot::Node(position) => write!(f, "node {position}"),
        }
    }
}

/// What is printed for a line.
#[derive(Debug, Drop)]
pub enum Answer {
    /// `ok`: the line was carried out and there is nothing to report.
    Done,
    /// `ok LOCATION`: the location of the added leaf.
    Added(u64),
    /// `ok LEAVES NODES`: the leaf count and the size in nodes of the structure after a commit.
    Committed {
        leaves: u64,
        size: u64,
    },
    /// `ok START END`: the locations of the leaves that are held after pruning, from the first to
    /// the one after the last.
    Pruned {
        start: u64,
        end: u64,
    },
    /// The hexadecimal digits of a root or of a proof.
    Digits(String),
    /// `yes` or `no`: whether a proof is accepted.
    Verdict(bool),
    /// `rejected`: the check does not accept the audited proof.
    Rejected,
    /// `honest`: the audited proof is the honest one.
    Honest,
    /// `collision PLACE CLAIMED LISTED`: the audited proof is accepted and not honest. The bytes that
    /// the plain hash hashed for the proof and for the list are in hexadecimal digits.
    Collision {
        place: Spot,
        claimed: String,
        listed: String,
    },
    /// `error NAME`: the name of the error.
    Fault(&'static str),
}

impl fmt::Display for Answer {
    ghost output = { λ a. Some (answer_text a) };

    fn fmt<W: fmt::Write>(&self, f: &mut fmt::Formatter<W>) -> fmt::Result {
        match self {
            Answer::Done => write!(f, "ok"),
            Answer::Added(location) => write!(f, "ok {location}"),
            Answer::Committed { leaves, size } => write!(f, "ok {leaves} {size}"),
            Answer::Pruned { start, end } => write!(f, "ok {start} {end}"),
            Answer::Digits(digits) => write!(f, "{digits}"),
            Answer::Verdict(true) => write!(f, "yes"),
            Answer::Verdict(false) => write!(f, "no"),
            Answer::Rejected => write!(f, "rejected"),
            Answer::Honest => write!(f, "honest"),
            Answer::Collision {
                place,
                claimed,
                listed,
            } => write!(f, "collision {place} {claimed} {listed}"),
            Answer::Fault(name) => write!(f, "error {name}"),
        }
    }
}

// Unwraps a result; on an error, the calling function returns the name of the error as its answer.
// This cannot be `?`, since that passes the error to `From::from`, and the check has no rule for a
// call that takes an `Error` by value.
macro_rules! or_fault {
    ($result:expr) => {
        match $result {
            Ok(value) => value,
            Err(error) => return Answer::Fault(error.name()),
        }
    };
}

pub(crate) use or_fault;

// An error with a name to print.
pub(crate) trait Named {
    ghost called: { Self → List ℕ };

    // Returns the name that is printed for the error.
    fn name(&self) -> &'static str
        ensures { result.now ≡ called self.now };
}

impl Named for HexError {
    ghost called = { hex_error_name };

    fn name(&self) -> &'static str {
        match self {
            HexError::Syntax => "Syntax",
            HexError::OutOfMemory => "OutOfMemory",
        }
    }
}

impl Named for OutOfMemory {
    ghost called = { λ _. codes "OutOfMemory" };

    fn name(&self) -> &'static str {
        "OutOfMemory"
    }
}

impl Named for DecodeError {
    ghost called = { decode_error_name };

    fn name(&self) -> &'static str {
        match self {
            DecodeError::EndOfBuffer => "EndOfBuffer",
            DecodeError::InvalidVarint => "InvalidVarint",
            DecodeError::Invalid => "Invalid",
            DecodeError::TooMany => "TooMany",
            DecodeError::OutOfMemory => "OutOfMemory",
        }
    }
}

impl<F> Named for Error<F> {
    ghost called = { error_name };

    fn name(&self) -> &'static str {
        match self {
            Error::NonLeaf(_) => "NonLeaf",
            Error::PositionOverflow(_) => "PositionOverflow",
            Error::LocationOverflow(_) => "LocationOverflow",
            Error::Empty => "Empty",
            Error::RangeOutOfBounds(_) => "RangeOutOfBounds",
            Error::InvalidSize(_) => "InvalidSize",
            Error::LeafOutOfBounds(_) => "LeafOutOfBounds",
            Error::DuplicateLocation(_) => "DuplicateLocation",
            Error::UnsortedLocation(_) => "UnsortedLocation",
            Error::ElementPruned(_) => "ElementPruned",
            Error::CompressedDigest(_) => "CompressedDigest",
            Error::InvalidPinnedNodes => "InvalidPinnedNodes",
            Error::StaleBatch { .. } => "StaleBatch",
            Error::AncestorDropped { .. } => "AncestorDropped",
            Error::InvalidProof => "InvalidProof",
            Error::InvalidInactivePeaks { .. } => "InvalidInactivePeaks",
            Error::RootMismatch => "RootMismatch",
            Error::MissingNode(_) => "MissingNode",
            Error::DataCorrupted(_) => "DataCorrupted",
            Error::BitOutOfBounds(..) => "BitOutOfBounds",
            Error::OutOfMemory => "OutOfMemory",
        }
    }
}
