// Bytes cut in two where a line ends.
ghost use Rattle.std.specs.Prelude.{◌≡◌, ◌+◌, ◌*◌, ◌++◌, ◌<◌, ◌≤◌, ◌^◌, length, slice_index, IfSome};
ghost use Rattle.abuf_text.specs.Lines.{lines};
ghost use Rattle.abuf_obj.specs.declared.split.TheConstants.{SAMPLES};

/// At how many places the bytes are looked at, to tell how long it takes to read them.
const SAMPLES: usize = 512;

/// How many bytes are looked at there.
const NEAR: usize = 1024;

/// The offset of the first line feed from this offset on.
fn next_feed(bytes: &[u8], offset: usize) -> Option<usize>
    requires { offset ≤ length bytes.now }
    ensures within { IfSome result (λ k. offset + k < length bytes.now) }
    ensures feed { IfSome result (λ k. slice_index bytes.now (offset + k) ≡ 10) }
{
    bytes[offset..].iter().position(|b| *b == b'\n')
}

/// The offset of this sample. The samples lie at equal distances.
fn sample_offset(bytes: &[u8], sample: usize) -> usize
    requires few { length bytes.now < 2 ^ 32 }
    requires sample { sample ≤ SAMPLES }
    ensures { result ≤ length bytes.now }
{
    bytes.len() * sample / SAMPLES
}

/// About how long reading takes behind that offset, by the next line: longest with a point, each of whose numbers is rounded.
fn time_at(bytes: &[u8], offset: usize) -> usize
    requires { offset ≤ length bytes.now }
    ensures { result ≤ 8 }
{
    let near = &bytes[offset..bytes.len().min(offset + NEAR)];
    let Some(feed) = next_feed(near, 0) else {
        return 1;
    };
    match near.get(feed + 1..) {
        Some([b'f', b' ', ..]) => 5,
        Some([b'v', b' ', ..]) => 6,
        _ => 1,
    }
}

/// About how long reading takes from this sample to the next.
fn time_of_sample(bytes: &[u8], sample: usize) -> usize
    requires few { length bytes.now < 2 ^ 32 }
    requires sample { sample ≤ SAMPLES }
    ensures { result ≤ 8 }
{
    time_at(bytes, sample_offset(bytes, sample))
}

/// About how long reading takes.
fn time_of(bytes: &[u8]) -> usize
    requires few { length bytes.now < 2 ^ 32 }
    ensures { result ≤ 8 * SAMPLES }
{
    let mut time = 0;
    for sample in 0..SAMPLES {
        time += time_of_sample(bytes, sample);
    }
    time
}

/// The offset before which reading takes about this part of the time.
pub(crate) fn offset_by_time(bytes: &[u8], part: u32, parts: u32) -> usize
    requires few { length bytes.now < 2 ^ 32 }
    requires parts { (0 < parts) × (part ≤ parts) }
    ensures { result ≤ length bytes.now }
{
    let time = time_of(bytes) * part as usize / parts as usize;
    let mut before = 0;
    for sample in 0..SAMPLES {
        if time <= before {
            return sample_offset(bytes, sample);
        }
        before += time_of_sample(bytes, sample);
    }
    bytes.len()
}

/// The bytes up to the first end of a line from that offset on, and those behind it, which are none where no line ends there.
pub(crate) fn split_lines(bytes: &[u8], offset: usize) -> (&[u8], &[u8])
    requires { offset ≤ length bytes.now }
    ensures lines { lines bytes.now ≡ lines result.0.now ++ lines result.1.now }
    ensures all { length result.0.now + length result.1.now ≡ length bytes.now }
{
    match next_feed(bytes, offset) {
        Some(feed) => bytes.split_at(offset + feed + 1),
        None => (bytes, &[]),
    }
}
