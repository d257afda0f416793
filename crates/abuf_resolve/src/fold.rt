// Paints laid over one another.
ghost use Rattle.std.specs.Prelude.{◌≡◌, ◌*◌, ◌≤◌, length};
ghost use Rattle.std.specs.List.{All};
ghost use Rattle.abuf_num.specs.Division.{nearest};
ghost use Rattle.abuf_resolve.specs.Over.{over, composite_over};
ghost use Rattle.abuf_resolve.specs.Words.{folded, paint_of, hides, IsDepthWord};

use crate::fragment_words::SampleWord;
use abuf_num::Paint;

/// The greatest colour, and the greatest alpha.
const FULL: u32 = 65535;

/// `n / 65535`, rounded to the nearest whole number.
fn share(n: u32) -> u32
    requires { n ≤ 65535 * 65535 }
    ensures { result ≡ nearest n 65535 }
{
    (n + FULL / 2) / FULL
}

/// One channel of the operator over of Porter and Duff (1984): a colour of this alpha over what lies under it. Each of
/// the two shares is rounded to the nearest whole number, so alpha 65535 gives the colour, and alpha 0 what lies under.
pub fn over(under: u16, colour: u16, alpha: u16) -> u16
    ensures { result ≡ over under colour alpha }
{
    let alpha = u32::from(alpha);
    let above = share(alpha * u32::from(colour));
    let below = share((FULL - alpha) * u32::from(under));
    (above + below) as u16
}

/// A paint over a colour, channel by channel.
pub fn composite_over(under: [u16; 3], paint: Paint) -> [u16; 3]
    ensures { result ≡ composite_over under paint }
{
    [
        over(under[0], paint.colour[0], paint.alpha),
        over(under[1], paint.colour[1], paint.alpha),
        over(under[2], paint.colour[2], paint.alpha),
    ]
}

/// The paints of all words, laid over the colour in order.
pub(crate) fn composite_all(under: [u16; 3], words: &[u64], paints: &[Paint]) -> [u16; 3]
    requires words { All (IsDepthWord (length paints.now)) words.now }
    ensures { result ≡ folded under paints.now words.now }
{
    let mut colour = under;
    for word in words {
        let above = composite_over(colour, paint_of(*word, paints));
        colour = above;
    }
    colour
}

/// The paint of the word's primitive.
fn paint_of(word: u64, paints: &[Paint]) -> Paint
    requires { IsDepthWord (length paints.now) word }
    ensures { result ≡ paint_of paints.now word }
{
    paints[SampleWord(word).primitive() as usize]
}

/// The paint of the word's primitive lets nothing through.
pub(crate) fn hides(word: u64, paints: &[Paint]) -> bool
    requires { IsDepthWord (length paints.now) word }
    ensures { result ≡ hides paints.now word }
{
    paint_of(word, paints).alpha == 65535
}
