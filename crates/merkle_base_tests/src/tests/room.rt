//! Room in lists, compared with that of lists whose items are pushed.
use merkle_base::room::make_room;
use std::process::Abort;

const BYTES: [u8; 5000] = [7; 5000];

/// Appends a piece to a list in which room is made for it, and pushes its bytes onto another; asserts that both have the same
/// capacity after that.
fn assert_same_room(rt: &impl Abort, piece: &[u8], made: &mut Vec<u8>, pushed: &mut Vec<u8>) {
    assert!(rt; make_room(made, piece.len()).is_ok());
    assert!(rt; made.extend_from_slice(piece).is_ok());
    for byte in piece {
        assert!(rt; pushed.push(*byte).is_ok());
    }
    assert_eq!(rt; made.capacity(), pushed.capacity(), "{}", piece.len());
}

#[test]
fn room_for_one_piece(rt: HostRuntime) {
    for count in 0..=BYTES.len() {
        let (mut made, mut pushed) = (Vec::new(rt.alloc()), Vec::new(rt.alloc()));
        assert_same_room(&rt, &BYTES[..count], &mut made, &mut pushed);
    }
}

// As lines of a program: pieces of 1 to 5,000 bytes one after another, after each of which the list is cleared.
#[test]
fn room_for_longer_and_longer_lines(rt: HostRuntime) {
    let (mut made, mut pushed) = (Vec::new(rt.alloc()), Vec::new(rt.alloc()));
    for count in 1..=BYTES.len() {
        assert_same_room(&rt, &BYTES[..count], &mut made, &mut pushed);
        made.clear();
        pushed.clear();
    }
}

// Pieces of unlike lengths that are one line together.
#[test]
fn room_for_pieces_of_a_line(rt: HostRuntime) {
    let (mut made, mut pushed) = (Vec::new(rt.alloc()), Vec::new(rt.alloc()));
    for count in [127, 1, 0, 128, 3, 4096, 9, 500, 4096, 1] {
        assert_same_room(&rt, &BYTES[..count], &mut made, &mut pushed);
    }
}
