//! Room for more items in a list, by the requests for memory that pushing them would make.
ghost use Rattle.std.specs.Prelude.{◌≡◌, ◌+◌, ◌≤◌, OnOk, vec_len, vec_capacity};

use std::alloc::AllocError;

/// Makes room for `count` more items, by the requests for memory that pushing them one by one would make.
///
/// A `Vec::reserve` of all of them can leave another capacity, from which a later one asks for up to twice as much: for 127
/// bytes and then, after they are cleared, for 128 it makes a capacity of 254, and pushes make one of 128.
///
/// # Errors
///
/// - `AllocError` if a memory request is refused. The items stay, with the room that was made.
///
/// # Examples
///
/// ```
/// let mut line = Vec::new(rt.alloc());
/// let word: &[u8] = b"commit";
/// make_room(&mut line, word.len())?;
/// line.extend_from_slice(word)?;
/// ```
pub fn make_room<A>(items: &mut Vec<A>, count: usize) -> Result<(), AllocError>
    ensures items { items.new.items ≡ items.old.items }
    ensures length { vec_len items.new ≡ vec_len items.old }
    ensures room { OnOk result (vec_len items.new + count ≤ vec_capacity items.new) }
{
    for _ in 0..count {
        let room = items.capacity() - items.len();
        if room >= count {
            return Ok(());
        }
        items.reserve(room + 1)?;
    }
    Ok(())
}
