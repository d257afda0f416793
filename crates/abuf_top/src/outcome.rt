// How the work of a run ends.
ghost use Rattle.std.specs.Prelude.{◌≡◌, Err, None, Ok, MatchResult};
ghost use Rattle.abuf_top.specs.declared.stop.Stop.TheVariants as stop;

use crate::stop::{FullPool, Stop};
use abuf_frame::Closed;
use abuf_num::{List, NoMemory};

/// What a run, or a part of it, came to: the bytes that are to be written, or nothing once they are, or else why it stopped.
#[derive(Drop)]
pub(crate) struct Outcome<T> {
    pub(crate) result: Result<T, Stop>,
    /// The frame into which the scene was drawn; none where memory ran out, or where the image has more frames than one, or none.
    pub(crate) closed: Option<Closed>,
}

impl Outcome<List<u8>> {
    pub(crate) fn out_of_memory() -> Outcome<List<u8>>
        ensures bytes { result.result ≡ Err stop.Memory }
        ensures closed { result.closed ≡ None }
    {
        Outcome {
            result: Err(Stop::Memory),
            closed: None,
        }
    }

    /// There are more fragments than nodes.
    pub(crate) fn full(pool: FullPool, closed: Option<Closed>) -> Outcome<List<u8>>
        ensures bytes { result.result ≡ Err (stop.PoolFull pool) }
        ensures closed { result.closed ≡ closed }
    {
        Outcome {
            result: Err(Stop::PoolFull(pool)),
            closed,
        }
    }

    /// What is written, where memory was enough, and the frame.
    pub(crate) fn of(bytes: Result<List<u8>, NoMemory>, closed: Option<Closed>) -> Outcome<List<u8>>
        ensures bytes { MatchResult bytes (λ b. (result.result ≡ Ok b) × (result.closed ≡ closed))
            (λ _. (result.result ≡ Err stop.Memory) × (result.closed ≡ None)) }
    {
        match bytes {
            Ok(bytes) => Outcome {
                result: Ok(bytes),
                closed,
            },
            Err(_) => Outcome::out_of_memory(),
        }
    }
}

impl Outcome<()> {
    /// Where no frame holds a whole image.
    pub(crate) fn without_frame(ended: Result<(), Stop>) -> Outcome<()>
        ensures result { result.result ≡ ended }
        ensures closed { result.closed ≡ None }
    {
        Outcome {
            result: ended,
            closed: None,
        }
    }
}
