// The words of the command line.
use crate::command::words_answer;
use std::test::Fail;

/// Words that aren't those of a command.
#[test]
fn understood_words(rt: HostRuntime) -> Result<(), Fail> {
    let table = "
 | 2 words not understood
draw --size 4x4 | 2 words not understood
--size 4x4 | 2 words not understood
render --size | 2 words not understood
render --size 4x4 --size 4x4 | 2 words not understood
render --size 4x4 --move -1,0,-4 | 2 words not understood
render --size 4x4 x | 2 words not understood
render --siz 4x4 | 2 words not understood
render -h | 2 words not understood
render --help | 2 words not understood
render -V | 2 words not understood
render --version | 2 words not understood
render --size -- | 2 words not understood
render --colour 1 | 2 words not understood
render --size=4x4 --move=0,0,-4 | 0 WWW. WW.. W... ....
render --move 0,0,-4 --size 4x4 | 0 WWW. WW.. W... ....
render --size 4x4 -- | 0 WWW. WW.. W... ....
render --size 04x004 --turn=-0,0001,0,0 --threads 01 --nodes 0000016 --focal 1e0 | 0 .... W... WW.. WWW.
";
    words_answer(&rt, rt.alloc(), "UPPER", table)
}

/// Values out of their form or range.
#[test]
fn values_of_options(rt: HostRuntime) -> Result<(), Fail> {
    let table = "
render --size 4096x1024 --near 0 | 2 bad value: near
render --size=4096x4096 | 2 bad value: size
render --size=0x4 | 2 bad value: size
render --size=4097x1 | 2 bad value: size
render --size=00001x1 | 2 bad value: size
render --size=4 | 2 bad value: size
render --size=4x4x4 | 2 bad value: size
render --size= | 2 bad value: size
render --size=4X4 | 2 bad value: size
render --size=4,4 | 2 bad value: size
render --size 4x4 --samples=3 | 2 bad value: samples
render --size 4x4 --samples=32 | 2 bad value: samples
render --size 4x4 --samples=01 | 2 bad value: samples
render --size 4x4 --samples=02 | 2 bad value: samples
render --size 4x4 --samples= | 2 bad value: samples
render --size 4x4 --threads=0 | 2 bad value: threads
render --size 4x4 --threads=65 | 2 bad value: threads
render --size 4x4 --threads=001 | 2 bad value: threads
render --size 4x4 --threads=+1 | 2 bad value: threads
render --size 4x4 --nodes=0 | 2 bad value: nodes
render --size 4x4 --nodes=8388609 | 2 bad value: nodes
render --size 4x4 --nodes=00000001 | 2 bad value: nodes
render --size 4x4 --nodes=- | 2 bad value: nodes
render --size 4x4 --turn=0,0,0,0 | 2 bad value: turn
render --size 4x4 --turn=1,0,0 | 2 bad value: turn
render --size 4x4 --turn=1025,0,0,0 | 2 bad value: turn
render --size 4x4 --turn=+1,0,0,0 | 2 bad value: turn
render --size 4x4 --turn=00001,0,0,0 | 2 bad value: turn
render --size 4x4 --move=0,0 | 2 bad value: move
render --size 4x4 --move=0,0,32768 | 2 bad value: move
render --size 4x4 --move=0,0,x | 2 bad value: move
render --size 4x4 --move=0,,0 | 2 bad value: move
render --size 4x4 --focal=0 | 2 bad value: focal
render --size 4x4 --focal=16.1 | 2 bad value: focal
render --size 4x4 --focal=0.000001 | 2 bad value: focal
render --size 4x4 --focal=-1 | 2 bad value: focal
render --size 4x4 --near=0.0624 | 2 bad value: near
render --size 4x4 --near=0 | 2 bad value: near
render --size 4x4 --near=x | 2 bad value: near
render --size 4x4 --background=1,1 | 2 bad value: background
render --size 4x4 --background=1,1,nan | 2 bad value: background
render --size 4x4 --maxval=256 | 2 bad value: maxval
render --size 4x4 --maxval=0255 | 2 bad value: maxval
render --near 0 --size 0x4 | 2 bad value: size
";
    words_answer(&rt, rt.alloc(), "UPPER", table)
}
