//! Lines as commands.
ghost use Rattle.std.specs.Prelude.{◌≡◌, ◌≢◌, ◌<◌, ◌^◌, ◌↔◌, ◌==◌, ℕ, List, [], ◌∷◌, codes, length, IsTrue, IfSome, IfNone, Some};
ghost use Rattle.std.specs.Fmt.{decimal};
ghost use Rattle.std.specs.List.{AllByRecursion};
ghost use Rattle.std.specs.Option.{option_map_or};
ghost use Rattle.merkle_base.specs.declared.family.Bagging.{Bagging};
ghost use Rattle.merkle_commands.specs.declared.command.Command.{Command};
ghost use Rattle.merkle_commands.specs.declared.command.Request.{Request};
ghost use Rattle.merkle_commands.specs.declared.command.FamilyName.{FamilyName};
ghost use Rattle.merkle_commands.specs.declared.command.HashName.{HashName};
ghost use Rattle.merkle_commands.specs.Commands.{family_word, bagging_word, hash_words, element_word, optional_words, words_in, words_of, joined, IsCommand, IsDigitsWord, IsElementWord};
ghost use Rattle.merkle_commands.specs.Words.{IsPadded, IsHexWord};

use crate::hex_words::is_hex_word;
use merkle_base::family::Bagging;

/// The families that a line can name.
#[derive(Clone, Copy, Debug)]
pub enum FamilyName {
    /// The Mountain Range: `mmr`.
    Mmr,
    /// The Mountain Belt: `mmb`.
    Mmb,
}

/// The plain hash functions that a line can name.
#[derive(Clone, Copy, Debug)]
pub enum HashName {
    /// SHA-256, which is used if the line names none.
    Sha256,
    /// The exclusive or of all bytes, a toy: `xor8`.
    Xor8,
}

/// The command of one line. It borrows from the line, so it needs no memory.
#[derive(Clone, Copy, Debug)]
pub enum Command<'a> {
    /// Start again with an empty structure of this kind.
    New {
        /// The family of the structure.
        family: FamilyName,
        /// How its peaks are folded for a root.
        bagging: Bagging,
        /// The plain hash function of its hasher.
        hash: HashName,
    },
    /// A request to the present structure.
    Ask(Request<'a>),
}

/// What a line requests of the structure.
///
/// The digits of an element are an even number of hexadecimal digits, none for the empty element.
#[derive(Clone, Copy, Debug)]
pub enum Request<'a> {
    /// Add a leaf with the element of these digits to the pending batch.
    Add(&'a str),
    /// Update a leaf in the pending batch.
    Update {
        /// The location of the leaf.
        location: u64,
        /// The digits of its new element.
        digits: &'a str,
    },
    /// Merkleize and apply the pending batch.
    Commit,
    /// Prune the committed structure to this location.
    Prune(u64),
    /// Compute the root of the committed structure for this number of inactive peaks.
    Root(usize),
    /// Generate the proof of a range of leaves of the committed structure.
    Prove {
        /// The location of the first leaf.
        start: u64,
        /// The location after the last leaf.
        end: u64,
        /// The number of inactive peaks.
        inactive: usize,
    },
    /// Check a proof of consecutive elements against a root.
    Check {
        /// The location of the first element.
        start: u64,
        /// The number of inactive peaks that the proof must have.
        inactive: usize,
        /// The digits of the root.
        root: &'a str,
        /// The digits of the bytes of the proof.
        proof: &'a str,
        /// The words of the elements, separated by single spaces; `None` if there are no elements.
        elements: Option<&'a str>,
    },
    /// Audit a proof of consecutive elements against the root of the committed structure.
    Audit {
        /// The location of the first element.
        start: u64,
        /// The number of inactive peaks of the root.
        inactive: usize,
        /// The digits of the bytes of the proof.
        proof: &'a str,
        /// The words of the elements, separated by single spaces; `None` if there are no elements.
        elements: Option<&'a str>,
    },
}

// Whether the word begins with `+`, or with a zero that is not the whole word.
fn is_padded(word: &str) -> bool
    ensures { IsTrue result ↔ IsPadded word.now }
{
    matches!(word.as_bytes(), [b'+', ..] | [b'0', _, ..])
}

/// Parses a number below 2^64 in decimal digits without leading zeros; `None` if the word is no
/// such number.
pub fn read_number(word: &str) -> Option<u64>
    ensures value { IfSome result (λ n. word.now ≡ decimal n) }
    ensures found { (n : ℕ) → n < 2 ^ 64 → word.now ≡ decimal n → result ≡ Some n }
{
    if is_padded(word) {
        return None;
    }
    word.parse().ok()
}

/// Parses a number as [`read_number`] does; `None` also if it does not fit a `usize`.
pub fn read_count(word: &str) -> Option<usize>
    ensures value { IfSome result (λ n. word.now ≡ decimal n) }
    ensures found { (n : ℕ) → n < 2 ^ 64 → word.now ≡ decimal n → result ≡ Some n }
{
    usize::try_from(read_number(word)?).ok()
}

// Returns the digits of an element, none for `-`; `None` if the word is no element.
fn read_element(word: &str) -> Option<&str>
    ensures spelled { IfSome result (λ digits. word.now ≡ element_word digits.now) }
    ensures digits { IfSome result (λ digits. IsHexWord digits.now) }
    ensures none { IfNone result ((digits : List ℕ) → IsHexWord digits → word.now ≢ element_word digits) }
{
    match word {
        "" => None,
        "-" => Some(""),
        _ => is_hex_word(word).then_some(word),
    }
}

fn read_family(word: &str) -> Option<FamilyName>
    ensures spelled { IfSome result (λ family. word.now ≡ family_word family) }
    ensures none { IfNone result ((family : FamilyName) → word.now ≢ family_word family) }
{
    match word {
        "mmr" => Some(FamilyName::Mmr),
        "mmb" => Some(FamilyName::Mmb),
        _ => None,
    }
}

fn read_bagging(word: &str) -> Option<Bagging>
    ensures spelled { IfSome result (λ bagging. word.now ≡ bagging_word bagging) }
    ensures none { IfNone result ((bagging : Bagging) → word.now ≢ bagging_word bagging) }
{
    match word {
        "forward" => Some(Bagging::ForwardFold),
        "backward" => Some(Bagging::BackwardFold),
        _ => None,
    }
}

// Parses a bagging, optionally followed by the name of a hash function.
fn read_bagging_and_hash(words: &str) -> Option<(Bagging, HashName)>
    ensures spelled { IfSome result (λ both. words.now ≡ joined (bagging_word both.0 ∷ hash_words both.1)) }
    ensures none { IfNone result ((bagging : Bagging) (hash : HashName) → words.now ≢ joined (bagging_word bagging ∷ hash_words hash)) }
{
    match words.split_once(' ') {
        None => Some((read_bagging(words)?, HashName::Sha256)),
        Some((bagging, "xor8")) => Some((read_bagging(bagging)?, HashName::Xor8)),
        Some(_) => None,
    }
}

// Parses the words after `new`.
fn read_new(words: &str) -> Option<Command<'_>>
    ensures spelled { IfSome result (λ command. joined (codes "new" ∷ words.now ∷ []) ≡ joined (words_of command)) }
    ensures allowed { IfSome result (λ command. IsCommand command) }
    ensures none { IfNone result ((command : Command) → IsCommand command → joined (codes "new" ∷ words.now ∷ []) ≢ joined (words_of command)) }
{
    let (family, rest) = words.split_once(' ')?;
    let (bagging, hash) = read_bagging_and_hash(rest)?;
    Some(Command::New {
        family: read_family(family)?,
        bagging,
        hash,
    })
}

/// Splits words into the first one and the rest after the space that follows it, if there is one.
pub fn cut(words: &str) -> (&str, Option<&str>)
    ensures words { words_in words.now ≡ result.0.now ∷ option_map_or (λ rest. words_in rest.now) result.1 [] }
    ensures shorter { IfSome result.1 (λ rest. length rest.now < length words.now) }
{
    match words.split_once(' ') {
        Some((first, rest)) => (first, Some(rest)),
        None => (words, None),
    }
}

// Returns the digits of a root or a proof; `None` if the word is empty or no hexadecimal digits.
fn read_digits(word: &str) -> Option<&str>
    ensures same { IfSome result (λ digits. digits.now ≡ word.now) }
    ensures digits { IfSome result (λ digits. IsDigitsWord digits.now) }
    ensures none { IfNone result (¬ (IsDigitsWord word.now)) }
{
    (!word.is_empty() && is_hex_word(word)).then_some(word)
}

// Whether every word is that of an element.
fn are_elements(words: &str) -> bool
    ensures { IsTrue result ↔ AllByRecursion IsElementWord (words_in words.now) }
{
    let mut rest = Some(words);
    while let Some(left) = rest {
        let (word, after) = cut(left);
        if read_element(word).is_none() {
            return false;
        }
        rest = after;
    }
    true
}

// Parses the words after `update`.
fn read_update(words: &str) -> Option<Request<'_>>
    ensures spelled { IfSome result (λ request. joined (codes "update" ∷ words.now ∷ []) ≡ joined (words_of (Command.Ask request))) }
    ensures allowed { IfSome result (λ request. IsCommand (Command.Ask request)) }
    ensures none { IfNone result ((command : Command) → IsCommand command → joined (codes "update" ∷ words.now ∷ []) ≢ joined (words_of command)) }
{
    let (location, element) = words.split_once(' ')?;
    Some(Request::Update {
        location: read_number(location)?,
        digits: read_element(element)?,
    })
}

// Parses the words after `prove`.
fn read_prove(words: &str) -> Option<Request<'_>>
    ensures spelled { IfSome result (λ request. joined (codes "prove" ∷ words.now ∷ []) ≡ joined (words_of (Command.Ask request))) }
    ensures allowed { IfSome result (λ request. IsCommand (Command.Ask request)) }
    ensures none { IfNone result ((command : Command) → IsCommand command → joined (codes "prove" ∷ words.now ∷ []) ≢ joined (words_of command)) }
{
    let (start, rest) = words.split_once(' ')?;
    let (end, inactive) = rest.split_once(' ')?;
    Some(Request::Prove {
        start: read_number(start)?,
        end: read_number(end)?,
        inactive: read_count(inactive)?,
    })
}

// Whether every word, if there are words, is that of an element.
fn are_all_elements(words: Option<&str>) -> bool
    ensures { IsTrue result ↔ AllByRecursion IsElementWord (optional_words words.entry) }
{
    match words {
        Some(row) => are_elements(row),
        None => true,
    }
}

// Parses the words after `check`.
fn read_check(words: &str) -> Option<Request<'_>>
    ensures spelled { IfSome result (λ request. joined (codes "check" ∷ words.now ∷ []) ≡ joined (words_of (Command.Ask request))) }
    ensures allowed { IfSome result (λ request. IsCommand (Command.Ask request)) }
    ensures none { IfNone result ((command : Command) → IsCommand command → joined (codes "check" ∷ words.now ∷ []) ≢ joined (words_of command)) }
{
    let (start, rest) = words.split_once(' ')?;
    let (inactive, rest) = rest.split_once(' ')?;
    let (root, rest) = rest.split_once(' ')?;
    let (proof, elements) = cut(rest);
    if !are_all_elements(elements) {
        return None;
    }
    Some(Request::Check {
        start: read_number(start)?,
        inactive: read_count(inactive)?,
        root: read_digits(root)?,
        proof: read_digits(proof)?,
        elements,
    })
}

// Parses the words after `audit`.
fn read_audit(words: &str) -> Option<Request<'_>>
    ensures spelled { IfSome result (λ request. joined (codes "audit" ∷ words.now ∷ []) ≡ joined (words_of (Command.Ask request))) }
    ensures allowed { IfSome result (λ request. IsCommand (Command.Ask request)) }
    ensures none { IfNone result ((command : Command) → IsCommand command → joined (codes "audit" ∷ words.now ∷ []) ≢ joined (words_of command)) }
{
    let (start, rest) = words.split_once(' ')?;
    let (inactive, rest) = rest.split_once(' ')?;
    let (proof, elements) = cut(rest);
    if !are_all_elements(elements) {
        return None;
    }
    Some(Request::Audit {
        start: read_number(start)?,
        inactive: read_count(inactive)?,
        proof: read_digits(proof)?,
        elements,
    })
}

/// Parses a line, without the byte that ended it; `None` if it is not a command.
///
/// A command is a sequence of words separated by single spaces, with nothing before or after them:
/// - `new`, then `mmr` or `mmb`, then `forward` or `backward`, and then `xor8` if the hash is not
///   SHA-256
/// - `add`, then an element
/// - `update`, then a location and an element
/// - `commit`
/// - `prune`, then a location
/// - `root`, then a number of inactive peaks
/// - `prove`, then the location of the first leaf, the location after the last one, and a number of
///   inactive peaks
/// - `check`, then the location of the first element, a number of inactive peaks, the root, the
///   proof, and the elements
/// - `audit`, then the location of the first element, a number of inactive peaks, the proof, and the
///   elements
///
/// An element is an even number of hexadecimal digits of either case, or `-` for the empty element.
/// The root and the proof are nonempty words of that kind. A number is below 2^64, in decimal
/// digits without leading zeros.
pub fn read_command(line: &str) -> Option<Command<'_>>
    ensures spelled { IfSome result (λ command. line.now ≡ joined (words_of command)) }
    ensures allowed { IfSome result (λ command. IsCommand command) }
    ensures none { IfNone result ((command : Command) → IsCommand command → line.now ≢ joined (words_of command)) }
{
    if line == "commit" {
        return Some(Command::Ask(Request::Commit));
    }
    let (name, rest) = line.split_once(' ')?;
    match name {
        "new" => read_new(rest),
        "add" => Some(Command::Ask(Request::Add(read_element(rest)?))),
        "update" => Some(Command::Ask(read_update(rest)?)),
        "prune" => Some(Command::Ask(Request::Prune(read_number(rest)?))),
        "root" => Some(Command::Ask(Request::Root(read_count(rest)?))),
        "prove" => Some(Command::Ask(read_prove(rest)?)),
        "check" => Some(Command::Ask(read_check(rest)?)),
        "audit" => Some(Command::Ask(read_audit(rest)?)),
        _ => None,
    }
}
