// Texts cut at a byte.
ghost use Rattle.std.specs.Prelude.{◌≡◌, ◌==◌, option_map, position};
ghost use Rattle.abuf_cli.specs.Splits.{split_once, three_texts, four_texts};

/// Where the first such byte stands.
fn find_byte(text: &[u8], byte: u8) -> Option<usize>
    ensures { result ≡ position (λ b. b == byte) text.now }
{
    text.iter().position(|b| *b == byte)
}

/// The parts before and after the first such byte.
pub(crate) fn split_once(text: &[u8], byte: u8) -> Option<(&[u8], &[u8])>
    ensures { option_map (λ p. (p.0.now, p.1.now)) result ≡ split_once byte text.now }
{
    match find_byte(text, byte) {
        Some(place) => Some((&text[..place], &text[place + 1..])),
        None => None,
    }
}

/// The three texts between two commas.
pub(crate) fn three_texts(text: &[u8]) -> Option<(&[u8], &[u8], &[u8])>
    ensures { option_map (λ p. (p.0.now, p.1.now, p.2.now)) result ≡ three_texts text.now }
{
    let (first, rest) = split_once(text, b',')?;
    let (second, third) = split_once(rest, b',')?;
    Some((first, second, third))
}

/// The four texts between three commas.
pub(crate) fn four_texts(text: &[u8]) -> Option<(&[u8], &[u8], &[u8], &[u8])>
    ensures { option_map (λ p. (p.0.now, p.1.now, p.2.now, p.3.now)) result ≡ four_texts text.now }
{
    let (first, rest) = split_once(text, b',')?;
    let (second, third, fourth) = three_texts(rest)?;
    Some((first, second, third, fourth))
}
