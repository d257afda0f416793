// Readers and writers of std as a source and a sink.
ghost use Rattle.std.specs.Prelude.{None, ◌≤◌, ◌<◌, length, take, ◌≡◌, IfSome, IfNone};
ghost use Rattle.std.specs.Io.KnownBytes.{Appends};
ghost use Rattle.abuf_io.specs.Appended.{AppendsPart};

use crate::{Failed, Sink, Source};
use std::io::{Read, Write};

/// A source over a reader, as standard input. It gives the bytes of its reader, and counts its faults. As a [`Source`] it tells
/// nothing of content, since nothing is known of that of a file or a terminal.
#[derive(Drop)]
pub struct ReadSource<R> {
    inner: R,
    faults: u64,
}

impl<R: Read> ReadSource<R> {
    ghost use Rattle.abuf_io.specs.Adapters.{reader_of, read_faults};

    /// A source that has not failed yet. Takes no memory.
    pub fn new(inner: R) -> ReadSource<R>
        ensures reader { reader_of result ≡ inner }
        ensures faults { read_faults result ≡ 0 }
    {
        ReadSource { inner, faults: 0 }
    }
}

impl<R: Read> Source for ReadSource<R> {
    ghost use Rattle.std.specs.Io.{ReadsAtMost};
    ghost use Rattle.std.specs.Io.KnownBytes.{ReadConsumes};
    ghost use Rattle.abuf_io.specs.Adapters.{reader_of, read_faults};
    ghost use Rattle.abuf_io.specs.Causes.{HasCause, CountsFailures};

    ghost left = { λ _. None };

    ghost faults = { λ s. s.faults };

    fn read(&mut self, buf: &mut [u8]) -> Result<usize, Failed>
        ensures bound { ReadsAtMost result buf.new }
        ensures bytes { ReadConsumes (R.remaining (reader_of self.old)) (R.remaining (reader_of self.new)) result buf.new }
        ensures cause { HasCause (read_faults self.old) (read_faults self.new) result }
        ensures counts { CountsFailures (read_faults self.old) (read_faults self.new) result }
    {
        match self.inner.read(buf) {
            Ok(count) => Ok(count),
            Err(_) => {
                self.faults = self.faults.saturating_add(1);
                Err(Failed)
            }
        }
    }
}

/// A sink over a writer, as standard output, which is flushed after each write. What it takes goes to the writer. It counts its
/// faults: a write or a flush that fails, and a write that takes none of some bytes. As a [`Sink`] it tells nothing of content,
/// since nothing is known of that of a file or a terminal.
#[derive(Drop)]
pub struct WriteSink<W> {
    inner: W,
    faults: u64,
}

impl<W: Write> WriteSink<W> {
    ghost use Rattle.abuf_io.specs.Adapters.{writer_of, write_faults};

    /// A sink that has not failed yet. Takes no memory.
    pub fn new(inner: W) -> WriteSink<W>
        ensures writer { writer_of result ≡ inner }
        ensures faults { write_faults result ≡ 0 }
    {
        WriteSink { inner, faults: 0 }
    }
}

/// Writes and flushes. It takes none of some bytes only where it fails.
fn put<W: Write>(inner: &mut W, bytes: &[u8]) -> Option<usize>
    ensures count { IfSome result (λ n. (n ≤ length bytes.now) × (n ≡ 0 → length bytes.now ≡ 0)) }
    ensures whole { IfSome result (λ n. Appends (W.contents inner.old) (W.contents inner.new) (take n bytes.now)) }
    ensures part { IfNone result (AppendsPart (W.contents inner.old) (W.contents inner.new) bytes.now) }
{
    let count = inner.write(bytes).ok()?;
    inner.flush().ok()?;
    if count == 0 && !bytes.is_empty() {
        return None;
    }
    Some(count)
}

impl<W: Write> Sink for WriteSink<W> {
    ghost use Rattle.std.specs.Prelude.{Ok, OnErr, IfOk, None};
    ghost use Rattle.std.specs.Io.{WritesAtMost};
    ghost use Rattle.abuf_io.specs.Adapters.{writer_of, write_faults};
    ghost use Rattle.abuf_io.specs.Causes.{HasCause, CountsFailures, Rose};

    ghost taken = { λ _. None };

    ghost faults = { λ s. s.faults };

    /// Where it fails, the writer may hold some of the bytes, from the front: those that were written before a flush failed.
    fn write(&mut self, bytes: &[u8]) -> Result<usize, Failed>
        ensures bound { WritesAtMost result bytes.now }
        ensures whole { IfOk result (λ n. Appends (W.contents (writer_of self.old)) (W.contents (writer_of self.new)) (take n bytes.now)) }
        ensures part { OnErr result (AppendsPart (W.contents (writer_of self.old)) (W.contents (writer_of self.new)) bytes.now) }
        ensures none { result ≡ Ok 0 → 0 < length bytes.now → Rose (write_faults self.old) (write_faults self.new) }
        ensures cause { HasCause (write_faults self.old) (write_faults self.new) result }
        ensures counts { CountsFailures (write_faults self.old) (write_faults self.new) result }
    {
        match put(&mut self.inner, bytes) {
            Some(count) => Ok(count),
            None => {
                self.faults = self.faults.saturating_add(1);
                Err(Failed)
            }
        }
    }
}
