//! Words as numbers, bytes and lists of them.

use crate::refusal::{OUT_OF_MEMORY, Refusal, SYNTAX, UNKNOWN};
use hex::FromHexError;
use std::alloc::Global;
use std::collections::HashMap;

// The number in decimal digits.
fn number(word: &str) -> Option<u64> {
    word.parse::<u64>().ok()
}

/// The bytes with these hexadecimal digits.
pub fn bytes(alloc: Global, word: &str) -> Result<Vec<u8>, Refusal> {
    match hex::decode(alloc, word) {
        Ok(bytes) => Ok(bytes),
        Err(FromHexError::OutOfMemory) => Err(OUT_OF_MEMORY),
        Err(_) => Err(SYNTAX),
    }
}

/// The number of a leaf or node, with bytes for it.
#[derive(Drop)]
pub struct LocatedBytes {
    pub index: u64,
    pub bytes: Vec<u8>,
}

// What an item of a list is read as.
trait Item: Drop {
    fn read(alloc: Global, item: &str) -> Result<Self, Refusal>;
}

impl Item for u64 {
    fn read(_alloc: Global, item: &str) -> Result<Self, Refusal> {
        number(item).ok_or(SYNTAX)
    }
}

impl Item for Vec<u8> {
    fn read(alloc: Global, item: &str) -> Result<Self, Refusal> {
        bytes(alloc, item)
    }
}

// The number before the colon, with the bytes after it.
impl Item for LocatedBytes {
    fn read(alloc: Global, item: &str) -> Result<Self, Refusal> {
        let (index, spelling) = item.split_once(':').ok_or(SYNTAX)?;
        Ok(LocatedBytes {
            index: number(index).ok_or(SYNTAX)?,
            bytes: bytes(alloc, spelling)?,
        })
    }
}

// The item, and how often it stands in its list.
fn repeated(item: &str) -> Option<(&str, u64)> {
    let Some((item, count)) = item.split_once('*') else {
        return Some((item, 1));
    };
    let count = number(count)?;
    Some((item, count))
}

// Adds what an item is read as, as often as it stands in its list.
fn push_items<T: Item>(alloc: Global, all: &mut Vec<T>, item: &str) -> Result<(), Refusal> {
    let (item, count) = repeated(item).ok_or(SYNTAX)?;
    for _ in 0..count {
        all.push(T::read(alloc, item)?)?;
    }
    Ok(())
}

// Adds what the items of a list are read as.
fn push_list<T: Item>(alloc: Global, all: &mut Vec<T>, word: &str) -> Result<(), Refusal> {
    if word != "-" {
        for item in word.split(',') {
            push_items(alloc, all, item)?;
        }
    }
    Ok(())
}

// The elements of a list, lent.
fn slices<'a>(alloc: Global, elements: &'a [Vec<u8>]) -> Result<Vec<&'a [u8]>, Refusal> {
    let mut all: Vec<&[u8]> = Vec::new(alloc);
    for element in elements {
        all.push(element.as_slice())?;
    }
    Ok(all)
}

/// The words of a call, which are read one after another.
///
/// The first word that is not what it is read as, or for which memory is refused, is remembered until the end, and some
/// value stands for it. So a call reads all its words, and asks once, by [`end`](Words::end), whether they are right.
#[derive(Drop)]
pub struct Words<'a> {
    alloc: Global,
    words: &'a [&'a str],
    read: usize,
    refusal: Option<Refusal>,
}

impl<'a> Words<'a> {
    /// The words, none of which is read yet.
    pub fn new(alloc: Global, words: &'a [&'a str]) -> Self {
        Words {
            alloc,
            words,
            read: 0,
            refusal: None,
        }
    }

    /// The allocator of what is read.
    pub fn alloc(&self) -> Global {
        self.alloc
    }

    /// Refused as the first bad word was, if there was one.
    pub fn end(&self) -> Result<(), Refusal> {
        match self.refusal {
            None => Ok(()),
            Some(refusal) => Err(refusal),
        }
    }

    // Remembers a refusal, if it is the first.
    fn refuse(&mut self, refusal: Refusal) {
        if self.refusal.is_none() {
            self.refusal = Some(refusal);
        }
    }

    /// What a word was read as; where it could not be, that is remembered, and the other value is returned.
    pub fn value_or<T: Drop>(&mut self, value: Option<T>, other: T) -> T {
        match value {
            Some(value) => value,
            None => {
                self.refuse(SYNTAX);
                other
            }
        }
    }

    /// The next word: the empty word where there is none.
    pub fn word(&mut self) -> &'a str {
        let index = self.read;
        self.read = index.saturating_add(1);
        match self.words.get(index) {
            Some(word) => word,
            None => "",
        }
    }

    /// The number that the next word is in decimal digits.
    pub fn number(&mut self) -> u64 {
        let value = number(self.word());
        self.value_or(value, 0)
    }

    /// The count that the next word is in decimal digits.
    pub fn count(&mut self) -> usize {
        let value = usize::try_from(self.number()).ok();
        self.value_or(value, 0)
    }

    /// The bytes whose hexadecimal digits the next word is.
    pub fn bytes(&mut self) -> Vec<u8> {
        match bytes(self.alloc, self.word()) {
            Ok(bytes) => bytes,
            Err(refusal) => {
                self.refuse(refusal);
                Vec::new(self.alloc)
            }
        }
    }

    /// Adds an item to a list.
    pub fn push<T: Drop>(&mut self, all: &mut Vec<T>, item: T) {
        if all.push(item).is_err() {
            self.refuse(OUT_OF_MEMORY);
        }
    }

    // What the items of the list that the next word is are read as.
    fn list<T: Item>(&mut self) -> Vec<T> {
        let mut all = Vec::new(self.alloc);
        let word = self.word();
        if let Err(refusal) = push_list(self.alloc, &mut all, word) {
            self.refuse(refusal);
        }
        all
    }

    /// The elements of the list that the next word is.
    pub fn elements(&mut self) -> Vec<Vec<u8>> {
        self.list()
    }

    /// The numbers of the list that the next word is.
    pub fn numbers(&mut self) -> Vec<u64> {
        self.list()
    }

    /// The numbers of the list that the next word is, each with its bytes.
    pub fn located(&mut self) -> Vec<LocatedBytes> {
        self.list()
    }

    /// The elements of a list, lent.
    pub fn slices<'b>(&mut self, elements: &'b [Vec<u8>]) -> Vec<&'b [u8]> {
        match slices(self.alloc, elements) {
            Ok(all) => all,
            Err(refusal) => {
                self.refuse(refusal);
                Vec::new(self.alloc)
            }
        }
    }
}

/// What has that name.
pub fn named<'a, T>(table: &'a HashMap<String, T>, name: &str) -> Result<&'a T, Refusal> {
    table.get(name).ok_or(UNKNOWN)
}

/// Gives a value that name, in place of what had it.
pub fn give_name<T: Drop>(
    alloc: Global,
    table: &mut HashMap<String, T>,
    name: &str,
    value: T,
) -> Result<(), Refusal> {
    let name = String::from_str(alloc, name)?;
    table.insert(name, value)?;
    Ok(())
}
