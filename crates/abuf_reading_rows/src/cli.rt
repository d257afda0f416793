// Words that are read, and what they ask for.
use abuf_cli::{Command, Job, Opt, Storage, What, WordFault, read_words};
use std::alloc::Global;
use std::test::Fail;

/// What these words ask for.
pub(crate) fn read(alloc: Global, texts: &[&str]) -> Result<Job, WordFault> {
    let mut words = Vec::new(alloc);
    for text in texts {
        let Ok(word) = String::from_str(alloc, text) else {
            return Err(WordFault::Memory);
        };
        if words.push(word).is_err() {
            return Err(WordFault::Memory);
        }
    }
    read_words(alloc, words.as_slice())
}

const READ: &[&[&str]] = &[
    &["render", "--"],
    &["render", "--size", "4096x1024"],
    &["render", "--size=0001x0001"],
    &["render", "--move=-1,0,-4"],
    &["render", "--move", "0,0,-4"],
    &["render", "--turn", "1024,-1024,-0,0001"],
    &["render", "--focal", "16", "--near", "0.0625"],
    &["render", "--background=-1,2,1e-7"],
];

#[test]
fn words_that_are_read(rt: HostRuntime) {
    let alloc = rt.alloc();
    for words in READ {
        assert!(rt; read(alloc, words).is_ok());
    }
}

/// The words of each line, and the job that they ask for: what it makes, the size, the samples, the threads, the nodes, the
/// background, the maximum, and how fragments are stored.
const JOBS: &str = "
render | render | 640x480 | 1 | 4 | 4194304 | 0,0,0 | 255 | lists
render --size 3x4 --samples=8 --nodes 0000007 --threads 07 --background=-1,.5,2 --maxval 65535 | render | 3x4 | 8 | 7 | 7 | 0,32768,65535 | 65535 | lists
render --samples 1 | render | 640x480 | 1 | 4 | 4194304 | 0,0,0 | 255 | lists
render --samples 2 | render | 640x480 | 2 | 4 | 4194304 | 0,0,0 | 255 | lists
render --samples 4 | render | 640x480 | 4 | 4 | 4194304 | 0,0,0 | 255 | lists
render --samples 8 | render | 640x480 | 8 | 4 | 4194304 | 0,0,0 | 255 | lists
render --samples 16 | render | 640x480 | 16 | 4 | 4194304 | 0,0,0 | 255 | lists
render --bands 4 | render | 640x480 | 1 | 4 | 4194304 | 0,0,0 | 255 | bands 4
render --size=5x4 --bands=0004 | render | 5x4 | 1 | 4 | 4194304 | 0,0,0 | 255 | bands 4
render --peel | render | 640x480 | 1 | 4 | 4194304 | 0,0,0 | 255 | layers
pick 0,0 | pick 0,0 | 640x480 | 1 | 4 | 4194304 | 0,0,0 | 255 | lists
pick 639,479 | pick 639,479 | 640x480 | 1 | 4 | 4194304 | 0,0,0 | 255 | lists
pick 3,0 --size 4x1 | pick 3,0 | 4x1 | 1 | 4 | 4194304 | 0,0,0 | 255 | lists
pick --size=1x4 0,3 | pick 0,3 | 1x4 | 1 | 4 | 4194304 | 0,0,0 | 255 | lists
pick 4095,1023 --size 4096x1024 | pick 4095,1023 | 4096x1024 | 1 | 4 | 4194304 | 0,0,0 | 255 | lists
pick 0002,0001 | pick 2,1 | 640x480 | 1 | 4 | 4194304 | 0,0,0 | 255 | lists
pick --size 4x4 -- 2,1 | pick 2,1 | 4x4 | 1 | 4 | 4194304 | 0,0,0 | 255 | lists
demo 1 | demo 1 | 640x480 | 1 | 4 | 4194304 | 0,0,0 | 255 | lists
demo 000001 | demo 1 | 640x480 | 1 | 4 | 4194304 | 0,0,0 | 255 | lists
demo 200000 | demo 200000 | 640x480 | 1 | 4 | 4194304 | 0,0,0 | 255 | lists
demo --size=1x1 -- 12 | demo 12 | 1x1 | 1 | 4 | 4194304 | 0,0,0 | 255 | lists
demo --size 3x4 --samples=4 1000 --threads 64 --nodes=8388608 --background 0,1,0 --maxval=65535 | demo 1000 | 3x4 | 4 | 64 | 8388608 | 0,65535,0 | 65535 | lists
sequence p | sequence p | 640x480 | 1 | 4 | 4194304 | 0,0,0 | 255 | lists
sequence - | sequence - | 640x480 | 1 | 4 | 4194304 | 0,0,0 | 255 | lists
sequence --size=3x4 -- -a~b/c.txt | sequence -a b/c.txt | 3x4 | 1 | 4 | 4194304 | 0,0,0 | 255 | lists
";

/// The words between the blanks, in which a `~` stands for a blank.
fn words_of(alloc: Global, line: &str) -> Result<Vec<String>, Fail> {
    let mut words = Vec::new(alloc);
    for text in line.split(' ') {
        words.push(word_of(alloc, text)?)?;
    }
    Ok(words)
}

fn word_of(alloc: Global, text: &str) -> Result<String, Fail> {
    let mut word = String::new(alloc);
    for letter in text.chars() {
        word.push(if letter == '~' { ' ' } else { letter })?;
    }
    Ok(word)
}

/// What a job does.
fn done_by(alloc: Global, command: &Command) -> Result<String, Fail> {
    Ok(match command {
        Command::Draw(What::Render) => format!(in alloc; "render")?,
        Command::Draw(What::Pick { x, y }) => format!(in alloc; "pick {x},{y}")?,
        Command::Draw(What::Demo { number }) => format!(in alloc; "demo {number}")?,
        Command::Sequence { name } => {
            let mut text = format!(in alloc; "sequence ")?;
            text.push_str(str::from_utf8(name.as_slice()).unwrap_or("?"))?;
            text
        }
    })
}

/// How its fragments are stored.
fn storage_of(alloc: Global, job: &Job) -> Result<String, Fail> {
    Ok(match job.storage() {
        Storage::OneFrame => format!(in alloc; "lists")?,
        Storage::Bands(bands) => format!(in alloc; "bands {bands}")?,
        Storage::Layers => format!(in alloc; "layers")?,
    })
}

/// The job as it stands in the table, but for where its camera stands and looks.
fn shown(alloc: Global, job: &Job) -> Result<String, Fail> {
    let command = done_by(alloc, job.command())?;
    let (width, height) = (job.camera().width(), job.camera().height());
    let samples = job.pattern().size();
    let (threads, nodes, maxval) = (job.threads(), job.nodes(), job.maxval());
    let [r, g, b] = job.background();
    let stored = storage_of(alloc, job)?;
    Ok(format!(in alloc;
        "{command} | {width}x{height} | {samples} | {threads} | {nodes} | {r},{g},{b} | {maxval} | {stored}"
    )?)
}

#[test]
fn what_each_line_asks_for(rt: HostRuntime) -> Result<(), Fail> {
    let alloc = rt.alloc();
    for line in JOBS.trim().lines() {
        let (words, asked) = line.split_once(" | ").unwrap_or((line, ""));
        match read_words(alloc, words_of(alloc, words)?.as_slice()) {
            Ok(job) => assert!(rt; shown(alloc, &job)?.as_str() == asked, "{line}"),
            Err(_) => panic!(rt; "{line}"),
        }
    }
    Ok(())
}

fn is_sequence(command: &Command, path: &[u8]) -> bool {
    match command {
        Command::Sequence { name } => name.as_slice() == path,
        Command::Draw(_) => false,
    }
}

/// Reading gives the job, or says that memory ran out, also if any one allocation is refused.
#[test]
fn answers_where_memory_runs_out(rt: HostRuntime) {
    let alloc = rt.alloc();
    let words = ["pick", "--size", "4x4", "--background=1,1,1", "--", "2,1"];
    match read(alloc, &words) {
        Ok(job) => assert!(rt;
            matches!(job.command(), Command::Draw(What::Pick { x: 2, y: 1 }))
                && job.background() == [65535; 3]
        ),
        Err(fault) => assert!(rt; fault == WordFault::Memory),
    }
    match read(alloc, &["sequence", "path.txt"]) {
        Ok(job) => assert!(rt; is_sequence(job.command(), b"path.txt")),
        Err(fault) => assert!(rt; fault == WordFault::Memory),
    }
    let named = WordFault::Value { option: Opt::Near };
    match read(alloc, &["render", "--maxval", "256", "--near", "0"]) {
        Ok(_) => assert!(rt; false),
        Err(fault) => assert!(rt; fault == named || fault == WordFault::Memory),
    }
    match read(alloc, &["render", "--near", "0", "--near", "1"]) {
        Ok(_) => assert!(rt; false),
        Err(fault) => assert!(rt; fault == WordFault::Words || fault == WordFault::Memory),
    }
}
