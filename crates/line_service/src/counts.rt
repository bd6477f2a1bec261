//! Counts of slots are written.
use pool_host::PoolCounts;
use slot_words::KindCounts;
use std::io::{self, Write};

// Writes how many slots of a kind are in each state.
fn write_kind<W: Write>(out: &mut W, kind: &str, counts: KindCounts) -> io::Result<()> {
    let KindCounts {
        cold,
        warm,
        awaiting,
        held,
    } = counts;
    writeln!(
        out,
        "{kind}: {cold} cold, {warm} warm, {awaiting} awaiting, {held} held"
    )
}

/// Writes the counts of a host's slots.
///
/// # Errors
///
/// A fault of the writer.
pub(crate) fn write_counts<W: Write>(out: &mut W, counts: &PoolCounts) -> io::Result<()> {
    write_kind(out, "instances", counts.instance)?;
    write_kind(out, "memories", counts.memory)?;
    write_kind(out, "tables", counts.table)
}
