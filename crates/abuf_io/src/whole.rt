// All of a source, and all into a sink.
ghost use Rattle.std.specs.Prelude.{◌≡◌, ◌≤◌, ◌<◌, ◌+◌, ◌^◌, ℕ, List, length, take, vec_len, IfOk, OnOk, OnErr, Ok, Err};
ghost use Rattle.std.specs.Io.{StartsWith, appended_bytes};
ghost use Rattle.std.specs.Io.KnownBytes.{Appends, Consumes, IsAtEnd};
ghost use Rattle.abuf_io.specs.declared.whole.ReadEnd.TheVariants.{ReadFault, Memory};
ghost use Rattle.abuf_io.specs.Causes.{Rose};
ghost use Rattle.abuf_io.specs.Whole.{ReadsUpTo};

use crate::{Failed, Sink, Source};
use abuf_num::List;
use std::alloc::{AllocError, Global};

/// Why `read_all` gave up.
#[derive(Clone, Copy, Debug, PartialEq, Eq)]
pub enum ReadEnd {
    /// The source failed. It comes only where its count of faults rose in the call.
    ReadFault,
    /// The source gave more than `limit` bytes.
    TooLong,
    /// Memory ran out.
    Memory,
}

impl From<Failed> for ReadEnd {
    ghost from_gives = { λ _ e. e ≡ ReadFault };

    fn from(_: Failed) -> Self {
        ReadEnd::ReadFault
    }
}

impl From<AllocError> for ReadEnd {
    ghost from_gives = { λ _ e. e ≡ Memory };

    fn from(_: AllocError) -> Self {
        ReadEnd::Memory
    }
}

/// The sink failed, and took a part of the bytes from their front.
#[derive(Clone, Copy, Debug, PartialEq, Eq)]
pub struct WriteFault;

/// All bytes that the source has left, if they are at most `limit`. It reads until the end or until
/// `limit + 1` bytes were taken, and makes no read after either.
pub fn read_all<S: Source>(alloc: Global, src: &mut S, limit: u64) -> Result<List<u8>, ReadEnd>
    requires { limit < 2 ^ 32 }
    ensures within { IfOk result (λ bytes. length bytes ≤ limit) }
    ensures whole { IfOk result (λ bytes. Consumes (S.left src.old) (S.left src.new) bytes) }
    ensures end { OnOk result (IsAtEnd (S.left src.new)) }
    ensures taken { ReadsUpTo limit (S.left src.old) (S.left src.new) result }
    ensures fault { result ≡ Err ReadEnd.ReadFault → Rose (S.faults src.old) (S.faults src.new) }
    ensures later { S.faults src.old ≤ S.faults src.new }
{
    let mut bytes = Vec::new(alloc);
    let mut buf = [0u8; 16384];
    'reading: while bytes.len() as u64 <= limit {
        let rest = limit - bytes.len() as u64;
        if read_some(src, &mut bytes, &mut buf, rest)? == 0 {
            return Ok(List::from_vec(bytes));
        }
    }
    Err(ReadEnd::TooLong)
}

/// One read, of at most `rest + 1` bytes, which go after those that are there.
fn read_some<S: Source>(
    src: &mut S,
    bytes: &mut Vec<u8>,
    buf: &mut [u8],
    rest: u64,
) -> Result<usize, ReadEnd>
    requires rest { rest < 2 ^ 32 }
    requires buf { 0 < length buf.old }
    ensures count { IfOk result (λ n. vec_len bytes.new ≡ vec_len bytes.old + n) }
    ensures within { IfOk result (λ n. n ≤ rest + 1) }
    ensures kept { OnOk result (StartsWith bytes.new.items bytes.old.items) }
    ensures moved { OnOk result (Consumes (S.left src.old) (S.left src.new) (appended_bytes bytes.old.items bytes.new.items)) }
    ensures end { result ≡ Ok 0 → (bytes.new.items ≡ bytes.old.items) × IsAtEnd (S.left src.new) }
    ensures taken { OnErr result (ReadsUpTo rest (S.left src.old) (S.left src.new) result) }
    ensures fault { result ≡ Err ReadEnd.ReadFault → Rose (S.faults src.old) (S.faults src.new) }
    ensures too_long { result ≡ Err ReadEnd.TooLong → ⊥ }
    ensures later { S.faults src.old ≤ S.faults src.new }
{
    let size = (rest as usize + 1).min(buf.len());
    let part = &mut buf[..size];
    let count = src.read(part)?;
    bytes.extend_from_slice(&part[..count])?;
    Ok(count)
}

/// Makes the sink take all the bytes. Each write offers all that are still to be taken, and none is
/// made for an empty rest. Takes no memory.
pub fn write_all<O: Sink>(sink: &mut O, bytes: &[u8]) -> Result<(), WriteFault>
    ensures whole { OnOk result (Appends (O.taken sink.old) (O.taken sink.new) bytes.now) }
    ensures part { (count : ℕ) × Appends (O.taken sink.old) (O.taken sink.new) (take count bytes.now) }
    ensures fault { OnErr result (Rose (O.faults sink.old) (O.faults sink.new)) }
    ensures later { O.faults sink.old ≤ O.faults sink.new }
{
    let mut done = 0;
    while done < bytes.len() {
        match sink.write(&bytes[done..]) {
            Ok(0) => return Err(WriteFault),
            Ok(count) => done += count,
            Err(_) => return Err(WriteFault),
        }
    }
    Ok(())
}
