//! A source and a sink in memory, of which chosen calls fail.
ghost use Rattle.std.specs.Prelude.{◌≡◌, ◌≤◌, ◌<◌, ◌↔◌, ◌⊎◌, [], Contains, IfOk, IsErr, Some, length, drop, min};
ghost use Rattle.std.specs.Io.{ReadsAtMost, WritesAtMost};
ghost use Rattle.std.specs.Io.KnownBytes.{ReadConsumes, WriteAppends};
ghost use Rattle.host_edge.specs.Streams.{CountsFault, HasCause, Rose, TakesSome, next_count};

use crate::{Failed, Sink, Source};
use std::alloc::Global;

/// Gives at most `piece` bytes in each read. The reads whose numbers, from 1, stand in `fails` fail.
#[derive(Drop)]
pub struct MemSource {
    bytes: Vec<u8>,
    taken: usize,
    piece: usize,
    fails: Vec<u64>,
    reads: u64,
    faults: u64,
    ghost within: { taken ≤ length bytes.items },
    ghost gives_some: { 0 < piece },
    ghost sound: { fails.items ≡ [] → faults ≡ 0 },
}

impl MemSource {
    ghost use Rattle.host_edge.specs.Memory.{bytes_left, failing_reads, read_faults, read_piece, reads_made};

    /// A source of these bytes. Without a number in `fails` no read fails.
    pub fn new(bytes: Vec<u8>, piece: usize, fails: Vec<u64>) -> MemSource
        requires { 0 < piece }
        ensures bytes { bytes_left result ≡ bytes.items }
        ensures piece { read_piece result ≡ piece }
        ensures fails { failing_reads result ≡ fails.items }
        ensures reads { reads_made result ≡ 0 }
        ensures faults { read_faults result ≡ 0 }
    {
        MemSource {
            bytes,
            taken: 0,
            piece,
            fails,
            reads: 0,
            faults: 0,
        }
    }
}

impl Source for MemSource {
    ghost use Rattle.host_edge.specs.Memory.{bytes_left, failing_reads, read_faults, read_piece, reads_made};

    ghost left = { λ s. Some (drop s.taken s.bytes.items) };

    ghost faults = { λ s. s.faults };

    fn read(&mut self, buf: &mut [u8]) -> Result<usize, Failed>
        ensures bound { ReadsAtMost result buf.new }
        ensures bytes { ReadConsumes (Some (bytes_left self.old)) (Some (bytes_left self.new)) result buf.new }
        ensures cause { HasCause (read_faults self.old) (read_faults self.new) result }
        ensures count { CountsFault (read_faults self.old) (read_faults self.new) result }
        ensures number { reads_made self.new ≡ next_count (reads_made self.old) }
        ensures failing { IsErr result ↔ Contains (failing_reads self.old) (next_count (reads_made self.old)) }
        ensures piece { IfOk result (λ n. n ≡ min (min (length buf.old) (read_piece self.old)) (length (bytes_left self.old))) }
        ensures settings { (read_piece self.new ≡ read_piece self.old) × (failing_reads self.new ≡ failing_reads self.old) }
    {
        self.reads = self.reads.saturating_add(1);
        if self.fails.contains(&self.reads) {
            self.faults = self.faults.saturating_add(1);
            return Err(Failed);
        }
        let count = buf.len().min(self.piece).min(self.bytes.len() - self.taken);
        let end = self.taken + count;
        buf[..count].copy_from_slice(&self.bytes[self.taken..end]);
        self.taken = end;
        Ok(count)
    }
}

/// Takes at most `piece` bytes in each write. The writes whose numbers, from 1, stand in `fails` fail.
///
/// A write that finds no memory for its bytes fails too.
#[derive(Drop)]
pub struct MemSink {
    bytes: Vec<u8>,
    piece: usize,
    fails: Vec<u64>,
    writes: u64,
    faults: u64,
    refused: u64,
    ghost takes_some: { 0 < piece },
    ghost sound: { fails.items ≡ [] → faults ≡ refused },
}

impl MemSink {
    ghost use Rattle.host_edge.specs.Memory.{bytes_written, failing_writes, refused_growths, write_faults, write_piece, writes_made};

    /// A sink with nothing in it. Without a number in `fails` a write fails for want of memory alone.
    pub fn new(alloc: Global, piece: usize, fails: Vec<u64>) -> MemSink
        requires { 0 < piece }
        ensures bytes { bytes_written result ≡ [] }
        ensures piece { write_piece result ≡ piece }
        ensures fails { failing_writes result ≡ fails.items }
        ensures writes { writes_made result ≡ 0 }
        ensures faults { write_faults result ≡ 0 }
        ensures refused { refused_growths result ≡ 0 }
    {
        MemSink {
            bytes: Vec::new(alloc),
            piece,
            fails,
            writes: 0,
            faults: 0,
            refused: 0,
        }
    }

    /// The bytes written so far.
    pub fn bytes(&self) -> &[u8]
        ensures { result.now ≡ bytes_written self.now }
    {
        &self.bytes
    }
}

impl Sink for MemSink {
    ghost use Rattle.host_edge.specs.Memory.{bytes_written, failing_writes, refused_growths, write_faults, write_piece, writes_made};

    ghost written = { λ s. Some s.bytes.items };

    ghost faults = { λ s. s.faults };

    fn write(&mut self, piece: &[u8]) -> Result<usize, Failed>
        ensures bound { WritesAtMost result piece.now }
        ensures some { TakesSome result piece.now }
        ensures bytes { WriteAppends (Some (bytes_written self.old)) (Some (bytes_written self.new)) result piece.now }
        ensures cause { HasCause (write_faults self.old) (write_faults self.new) result }
        ensures count { CountsFault (write_faults self.old) (write_faults self.new) result }
        ensures number { writes_made self.new ≡ next_count (writes_made self.old) }
        ensures failing { Contains (failing_writes self.old) (next_count (writes_made self.old)) → IsErr result }
        ensures refused { IsErr result → Contains (failing_writes self.old) (next_count (writes_made self.old))
            ⊎ Rose (refused_growths self.old) (refused_growths self.new) }
        ensures piece { IfOk result (λ n. n ≡ min (length piece.now) (write_piece self.old)) }
        ensures settings { (write_piece self.new ≡ write_piece self.old) × (failing_writes self.new ≡ failing_writes self.old) }
    {
        self.writes = self.writes.saturating_add(1);
        if self.fails.contains(&self.writes) {
            self.faults = self.faults.saturating_add(1);
            return Err(Failed);
        }
        let count = piece.len().min(self.piece);
        match self.bytes.extend_from_slice(&piece[..count]) {
            Ok(()) => Ok(count),
            Err(_) => {
                self.faults = self.faults.saturating_add(1);
                self.refused = self.refused.saturating_add(1);
                Err(Failed)
            }
        }
    }
}
