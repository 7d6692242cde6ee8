//! What a test of refused memory prints.
use std::io::Print;
use std::test::Fail;

/// Prints `refused` if the call that is tested answered want of memory, and `ample` if it
/// gave its whole answer. The gate refuses one request after the other, and reads which of the two
/// it was.
pub fn tell(rt: &impl Print, is_refused: bool) -> Result<(), Fail> {
    println!(rt; "{}", if is_refused { "refused" } else { "ample" })?;
    Ok(())
}
