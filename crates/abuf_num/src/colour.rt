// A channel of a colour.
ghost use Rattle.std.specs.Prelude.{◌≡◌};
ghost use Rattle.abuf_num.specs.Paints.{channel};

/// The number as a channel of a colour, clamped to 0 to 65535.
pub fn channel(value: i64) -> u16
    ensures { result ≡ channel value }
{
    value.clamp(0, 65535) as u16
}
