// The size of a result: digits with the point moved, rounded and limited.
ghost use Rattle.std.specs.Prelude.{◌≡◌, ◌≤◌, ◌<◌, ◌*◌, ◌^◌, ◌⊎◌};
ghost use Rattle.abuf_num.specs.Division.{nearest};
ghost use Rattle.abuf_num.specs.Size.{limited};

use crate::limits::MAX_COORDINATE;

/// The greatest result.
const MAX_RESULT: u128 = MAX_COORDINATE as u128;

/// `n`, within the limit.
fn within(n: u64) -> Option<u32>
    ensures { result ≡ limited n }
{
    if n > MAX_RESULT as u64 {
        None
    } else {
        Some(n as u32)
    }
}

/// `n` times a power of ten, within the limit.
fn raised(n: u128, up: u32) -> Option<u32>
    ensures { result ≡ limited (n * 10 ^ up) }
{
    if n == 0 {
        return Some(0);
    }
    if n > MAX_RESULT || up > 10 {
        return None;
    }
    let value = n * 10u128.pow(up);
    if value > MAX_RESULT {
        None
    } else {
        Some(value as u32)
    }
}

/// `n` over a power of ten, rounded, in 64 bits. A division by one of the common powers, which are written out, is compiled
/// to a multiplication.
fn short_nearest(n: u64, down: u32) -> u64
    requires small { n < 2 ^ 62 }
    requires few { down ≤ 18 }
    ensures { result ≡ nearest n (10 ^ down) }
{
    match down {
        1 => (2 * n + 10) / 20,
        2 => (2 * n + 100) / 200,
        3 => (2 * n + 1000) / 2000,
        4 => (2 * n + 10000) / 20000,
        5 => (2 * n + 100000) / 200000,
        6 => (2 * n + 1000000) / 2000000,
        7 => (2 * n + 10000000) / 20000000,
        8 => (2 * n + 100000000) / 200000000,
        9 => (2 * n + 1000000000) / 2000000000,
        _ => {
            let unit = 10u64.pow(down);
            (2 * n + unit) / (2 * unit)
        }
    }
}

/// `n` over a power of ten, rounded, within the limit.
fn lowered(n: u128, down: u32) -> Option<u32>
    requires { n < 2 ^ 116 }
    ensures { result ≡ limited (nearest n (10 ^ down)) }
{
    if down > 35 {
        return Some(0);
    }
    if n < 4611686018427387904 && down <= 18 {
        return within(short_nearest(n as u64, down));
    }
    let unit = 10u128.pow(down);
    let value = (2 * n + unit) / (2 * unit);
    if value > MAX_RESULT {
        None
    } else {
        Some(value as u32)
    }
}

/// `n` with its point moved to the right or to the left, rounded, within the limit.
pub(crate) fn size(n: u128, up: u32, down: u32) -> Option<u32>
    requires small { n < 2 ^ 116 }
    requires one_way { (up ≡ 0) ⊎ (down ≡ 0) }
    ensures { result ≡ limited (nearest (n * 10 ^ up) (10 ^ down)) }
{
    if down == 0 {
        raised(n, up)
    } else {
        lowered(n, down)
    }
}
