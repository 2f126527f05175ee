//! Words of hexadecimal digits.

use merkle_commands::hex_words::{HexError, is_hex_word, read_hex, write_hex};
use std::alloc::Global;
use std::process::Abort;

/// Whether a word is refused as no bytes.
fn is_refused(alloc: Global, word: &str) -> bool {
    !is_hex_word(word) && matches!(read_hex(alloc, word), Err(HexError::Syntax))
}

/// Whether a word spells these bytes, which are shown so.
fn is_spelled(alloc: Global, word: &str, bytes: &[u8], shown: &str) -> bool {
    is_hex_word(word)
        && matches!(read_hex(alloc, word), Ok(read) if read.as_slice() == bytes)
        && matches!(write_hex(alloc, bytes), Ok(text) if text.as_str() == shown)
}

const NO_HEX_WORDS: [&str; 9] = ["0", "012", "0g", "g0", "-", " ", "0 ", "+1", "\u{e9}"];

#[test]
fn hex_words(rt: HostRuntime) {
    for word in &NO_HEX_WORDS {
        assert!(rt; is_refused(rt.alloc(), word), "{word}");
    }
    assert!(rt; is_spelled(rt.alloc(), "", &[], ""));
    assert!(rt; is_spelled(rt.alloc(), "00", &[0], "00"));
    assert!(rt; is_spelled(rt.alloc(), "00fFAb", &[0, 255, 171], "00ffab"));
}

/// The bytes beside those of digits.
const NO_DIGITS: [&str; 6] = ["/", ":", "@", "G", "`", "g"];

/// Returns a word of so many bytes, all of them the digit `d` but the one at `place`, if there is one there.
fn word_with(rt: &(impl Abort + AllocGlobal), length: usize, place: usize, byte: &str) -> String {
    let mut word = String::new(rt.alloc());
    for at in 0..length {
        assert!(rt; word.push_str(if at == place { byte } else { "d" }).is_ok());
    }
    word
}

/// Whether a word is decoded, and its bytes are encoded as the same word.
fn is_kept(alloc: Global, word: &str) -> bool {
    match read_hex(alloc, word) {
        Ok(bytes) => is_spelled(alloc, word, &bytes, word),
        Err(_) => false,
    }
}

// A word is tested 64 bytes at a time.
#[test]
fn long_hex_words(rt: HostRuntime) {
    for length in [62, 64, 66, 126, 128, 130] {
        let word = word_with(&rt, length, length, "");
        assert!(rt; is_hex_word(word.as_str()), "{length}");
        for place in 0..length {
            for byte in &NO_DIGITS {
                let word = word_with(&rt, length, place, byte);
                assert!(rt; is_refused(rt.alloc(), word.as_str()), "{word}");
            }
            let word = word_with(&rt, length, place, "0");
            assert!(rt; is_kept(rt.alloc(), word.as_str()), "{word}");
        }
    }
}
