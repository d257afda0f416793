// A command over memory, and the answer that it must give.
ghost use Rattle.abuf_io.specs.Plans.{IsPlan};

use crate::table::{bytes_of, column, held_of, is_case};
use abuf_frame::Closed;
use abuf_io::{MemShelf, MemSink, MemSource, Step};
use abuf_num::List;
use abuf_top::run;
use std::alloc::Global;
use std::process::Abort;
use std::test::Fail;
use std::thread::Threads;

/// What came of a command.
#[derive(Drop)]
pub(crate) struct CommandOutcome {
    pub(crate) status: u8,
    pub(crate) closed: Option<Closed>,
    pub(crate) out: MemSink,
    pub(crate) err: MemSink,
}

/// How the outside behaves: the plans of the scene, of the two outputs, and the calls of the shelf that fail.
#[derive(Drop)]
pub(crate) struct Outside {
    pub(crate) reads: List<Step>,
    pub(crate) writes: List<Step>,
    pub(crate) reports: List<Step>,
    pub(crate) fails: List<u32>,
    ghost reads_plan: { IsPlan reads },
    ghost writes_plan: { IsPlan writes },
    ghost reports_plan: { IsPlan reports },
}

impl Outside {
    /// Nothing fails.
    pub(crate) fn steady(alloc: Global) -> Outside {
        Outside {
            reads: List::new(alloc),
            writes: List::new(alloc),
            reports: List::new(alloc),
            fails: List::new(alloc),
        }
    }
}

/// The words between the blanks.
pub(crate) fn words_of(alloc: Global, text: &str) -> Result<Vec<String>, Fail> {
    let mut words = Vec::new(alloc);
    if text.is_empty() {
        return Ok(words);
    }
    for word in text.split(' ') {
        words.push(String::from_str(alloc, word)?)?;
    }
    Ok(words)
}

/// Runs the command over the scene and what is held, each as in a table.
pub(crate) fn carry_out<R: Threads + Sync>(
    rt: &R,
    alloc: Global,
    words: &str,
    scene: &str,
    held: &str,
    outside: Outside,
) -> Result<CommandOutcome, Fail> {
    let scene = List::from_vec(bytes_of(alloc, scene)?);
    let held = held_of(alloc, held)?;
    carry_out_over(rt, alloc, words, scene, held, outside)
}

/// Runs the command.
pub(crate) fn carry_out_over<R: Threads + Sync>(
    rt: &R,
    alloc: Global,
    words: &str,
    scene: List<u8>,
    held: List<(List<u8>, List<u8>)>,
    outside: Outside,
) -> Result<CommandOutcome, Fail> {
    let Outside {
        reads,
        writes,
        reports,
        fails,
    } = outside;
    let words = words_of(alloc, words)?;
    let mut source = MemSource::new(scene, reads);
    let mut shelf = MemShelf::new(held, fails);
    let mut out = MemSink::new(alloc, 1 << 20, writes)?;
    let mut err = MemSink::new(alloc, 1 << 10, reports)?;
    let ran = run(
        rt,
        alloc,
        words.as_slice(),
        &mut source,
        &mut shelf,
        &mut out,
        &mut err,
    );
    Ok(CommandOutcome {
        status: ran.status,
        closed: ran.closed,
        out,
        err,
    })
}

/// White, black, and the colours that the tests need.
fn colour(letter: u8) -> [u8; 3] {
    match letter {
        b'W' => [255, 255, 255],
        b'g' => [204, 204, 204],
        b'h' => [128, 128, 128],
        b'r' => [255, 0, 0],
        b'd' => [128, 0, 0],
        b'p' => [255, 127, 127],
        b'G' => [0, 255, 0],
        b'u' => [64, 128, 0],
        b'v' => [128, 64, 0],
        b'w' => [255, 0, 128],
        b'y' => [128, 128, 0],
        _ => [0, 0, 0],
    }
}

/// The file of a picture.
pub(crate) fn image(alloc: Global, picture: &str) -> Result<Vec<u8>, Fail> {
    let pixels = picture.as_bytes();
    let width = pixels
        .iter()
        .position(|&letter| letter == b' ')
        .unwrap_or(pixels.len());
    let height = pixels.iter().filter(|&&letter| letter == b' ').count() as u64 + 1;
    let header = format!(in alloc;
        "P7\nWIDTH {width}\nHEIGHT {height}\nDEPTH 3\nMAXVAL 255\nTUPLTYPE RGB\nENDHDR\n"
    )?;
    let mut file = header.as_bytes().to_vec(alloc)?;
    for &letter in pixels {
        if letter != b' ' {
            file.extend_from_slice(&colour(letter))?;
        }
    }
    Ok(file)
}

/// The files of pictures with ` + ` between them, joined.
pub(crate) fn images(alloc: Global, pictures: &str) -> Result<Vec<u8>, Fail> {
    let mut files = Vec::new(alloc);
    if pictures.is_empty() {
        return Ok(files);
    }
    for picture in pictures.split(" + ") {
        files.extend_from_slice(&image(alloc, picture)?)?;
    }
    Ok(files)
}

/// Whether the command is answered so: by the number of the status, after other than 0 by a line on the standard error, and by
/// pictures.
pub(crate) fn is_answer(
    alloc: Global,
    outcome: &CommandOutcome,
    answer: &str,
) -> Result<bool, Fail> {
    let (status, said) = answer.split_once(' ').unwrap_or((answer, ""));
    let number = format!(in alloc; "{}", outcome.status)?;
    if number.as_str() != status {
        return Ok(false);
    }
    if outcome.status == 0 {
        let files = images(alloc, said)?;
        return Ok(outcome.err.taken().is_empty() && outcome.out.taken() == files.as_slice());
    }
    let (line, pictures) = said.split_once(" + ").unwrap_or((said, ""));
    let line = format!(in alloc; "{line}\n")?;
    let files = images(alloc, pictures)?;
    Ok(outcome.err.taken() == line.as_bytes() && outcome.out.taken() == files.as_slice())
}

/// Whether the command wrote just these bytes, given as in a table.
pub(crate) fn is_text(alloc: Global, outcome: &CommandOutcome, text: &str) -> Result<bool, Fail> {
    let bytes = bytes_of(alloc, text)?;
    Ok(
        outcome.status == 0
            && outcome.err.taken().is_empty()
            && outcome.out.taken() == bytes.as_slice(),
    )
}

/// A case is answered so; what is held comes after the answer.
fn one_answers<R: Threads + Sync + Abort>(
    rt: &R,
    alloc: Global,
    words: &str,
    scene: &str,
    more: &str,
) -> Result<(), Fail> {
    let (answer, held) = column(more);
    let outcome = carry_out(rt, alloc, words, scene, held, Outside::steady(alloc))?;
    let right = is_answer(alloc, &outcome, answer)?;
    assert!(rt;
        right,
        "{words} | {scene} | {answer}: status {}",
        outcome.status
    );
    Ok(())
}

/// Each case of the table is answered as it says: words, a scene, the answer, and what is held.
pub(crate) fn all_answer<R: Threads + Sync + Abort>(
    rt: &R,
    alloc: Global,
    table: &str,
) -> Result<(), Fail> {
    for line in table.lines() {
        if is_case(line) {
            let (words, more) = column(line);
            let (scene, more) = column(more);
            one_answers(rt, alloc, words, scene, more)?;
        }
    }
    Ok(())
}

/// On the scene each case is answered as it says: words, the answer, and what is held.
pub(crate) fn words_answer<R: Threads + Sync + Abort>(
    rt: &R,
    alloc: Global,
    scene: &str,
    table: &str,
) -> Result<(), Fail> {
    for line in table.lines() {
        if is_case(line) {
            let (words, more) = column(line);
            one_answers(rt, alloc, words, scene, more)?;
        }
    }
    Ok(())
}

/// To the words each case is answered as it says: a scene, the answer, and what is held.
pub(crate) fn scenes_answer<R: Threads + Sync + Abort>(
    rt: &R,
    alloc: Global,
    words: &str,
    table: &str,
) -> Result<(), Fail> {
    for line in table.lines() {
        if is_case(line) {
            let (scene, more) = column(line);
            one_answers(rt, alloc, words, scene, more)?;
        }
    }
    Ok(())
}

/// Each case of the table writes just what it says: words, a scene, the text, and what is held.
pub(crate) fn all_write<R: Threads + Sync + Abort>(
    rt: &R,
    alloc: Global,
    table: &str,
) -> Result<(), Fail> {
    for line in table.lines() {
        if is_case(line) {
            let (words, more) = column(line);
            let (scene, more) = column(more);
            let (text, held) = column(more);
            let outcome = carry_out(rt, alloc, words, scene, held, Outside::steady(alloc))?;
            let right = is_text(alloc, &outcome, text)?;
            assert!(rt; right, "{words} | {scene}: status {}", outcome.status);
        }
    }
    Ok(())
}
