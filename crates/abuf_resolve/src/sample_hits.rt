// What a list of fragments has of one sample.
ghost use Rattle.std.specs.Prelude.{◌≡◌, ℕ, ◌<◌, ◌≤◌, true, length};
ghost use Rattle.std.specs.List.{filter};
ghost use Rattle.abuf_resolve.specs.SampleHits.{Has, with_one};
ghost use Rattle.abuf_resolve.specs.Words.{has_sample};

use crate::fragment_words::FragmentWord;

/// How many of a pixel's words have a sample.
#[derive(Clone, Copy)]
pub(crate) enum SampleHits {
    /// No word has it.
    Nothing,
    /// This word alone has it.
    One(u64),
    /// More than one word has it.
    More,
}

impl SampleHits {
    fn with_one(self, word: u64) -> SampleHits
        ensures { result ≡ with_one self word }
    {
        match self {
            SampleHits::Nothing => SampleHits::One(word),
            _ => SampleHits::More,
        }
    }

    /// What the words have of sample k.
    pub(crate) fn of(words: &[u64], k: u32) -> SampleHits
        requires { k < 16 }
        ensures { Has result (filter (has_sample k) words.now) }
    {
        let mut sample_hits = SampleHits::Nothing;
        for word in words {
            if FragmentWord(*word).covers(k) {
                sample_hits = sample_hits.with_one(*word);
                if let SampleHits::More = sample_hits {
                    break;
                }
            }
        }
        sample_hits
    }
}

/// No two of the words have a sample in common.
pub(crate) fn are_apart(words: &[u64]) -> bool
    ensures { result ≡ true → (k : ℕ) → k < 16 → length (filter (has_sample k) words.now) ≤ 1 }
{
    let mut seen = 0;
    for word in words {
        let mask = FragmentWord(*word).mask();
        if seen & mask != 0 {
            return false;
        }
        seen |= mask;
    }
    true
}
