//! What the example prints.

use crate::LogError;

/// Tells whether something is so.
pub(crate) fn say(rt: &impl Print, what: &str, is_so: bool) -> Result<(), LogError> {
    println!(rt; "{what}: {is_so}")?;
    Ok(())
}

/// Tells whether something is so, and something else.
pub(crate) fn say_both(
    rt: &impl Print,
    what: &str,
    is_so: bool,
    other: &str,
    is_other_so: bool,
) -> Result<(), LogError> {
    println!(rt; "{what}: {is_so}, {other}: {is_other_so}")?;
    Ok(())
}

/// Tells what something is.
pub(crate) fn tell(rt: &impl Print, what: &str, text: &str) -> Result<(), LogError> {
    println!(rt; "{what}: {text}")?;
    Ok(())
}

/// Tells how many bytes something has.
pub(crate) fn tell_size(rt: &impl Print, what: &str, bytes: &[u8]) -> Result<(), LogError> {
    println!(rt; "{what} {} bytes", bytes.len())?;
    Ok(())
}
