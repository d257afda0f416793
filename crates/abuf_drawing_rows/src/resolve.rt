// Colours laid over one another: worked rows. A word is depth * 2^24 + prim.
use abuf_num::Paint;
use abuf_resolve::{over, sample_colour};

const RED: [u16; 3] = [65535, 0, 0];

const GREEN: [u16; 3] = [0, 65535, 0];

const BLUE: [u16; 3] = [0, 0, 65535];

#[test]
fn over_at_its_ends(rt: HostRuntime) {
    assert_eq!(rt; over(12345, 54321, 65535), 54321);
    assert_eq!(rt; over(12345, 54321, 0), 12345);
    assert_eq!(rt; over(65535, 65535, 32768), 65535);
    assert_eq!(rt; over(65535, 0, 32768), 32767);
}

/// Depths 1 and 3, primitives 0 and 2.
#[test]
fn the_nearest_opaque_fragment_hides_the_rest(rt: HostRuntime) {
    let paints = [
        Paint {
            colour: RED,
            alpha: 65535,
        },
        Paint {
            colour: GREEN,
            alpha: 65535,
        },
        Paint {
            colour: BLUE,
            alpha: 32768,
        },
    ];
    let words = [0x0100_0000, 0x0300_0002];
    assert_eq!(rt;
        sample_colour(&words, &paints, [65535; 3]),
        [32767, 0, 32768]
    );
}
