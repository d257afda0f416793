// Images of worked sums.
use abuf_num::PixelSum;
use abuf_pam::{image_bytes, pixel_size};
use std::test::Fail;

const HEADER: &[u8] = b"P7\nWIDTH 2\nHEIGHT 1\nDEPTH 3\nMAXVAL 255\nTUPLTYPE RGB\nENDHDR\n";

#[test]
fn pixels_of_one_and_of_two_bytes_a_value(rt: HostRuntime) {
    assert_eq!(rt; pixel_size(255), 3);
    assert_eq!(rt; pixel_size(65535), 6);
}

/// Two samples to a pixel: white, and a half of each channel.
#[test]
fn two_pixels(rt: HostRuntime) -> Result<(), Fail> {
    let sums = [
        PixelSum {
            channels: [131070, 131070, 131070],
        },
        PixelSum {
            channels: [65535, 257, 128],
        },
    ];
    let bytes = image_bytes(rt.alloc(), 2, 1, 255, 2, &sums)?;
    let values = bytes.as_slice();
    assert!(rt; values.len() == 65);
    assert!(rt; values.get(..59) == Some(HEADER));
    assert!(rt; values.get(59..) == Some([255, 255, 255, 128, 1, 0].as_slice()));
    let wide = image_bytes(rt.alloc(), 2, 1, 65535, 2, &sums)?;
    let values = wide.as_slice();
    assert!(rt; values.len() == 73);
    let pixels = [255, 255, 255, 255, 255, 255, 128, 0, 0, 129, 0, 64];
    assert!(rt; values.get(61..) == Some(pixels.as_slice()));
    let sums = [PixelSum {
        channels: [131070, 2, 1],
    }];
    let four = image_bytes(rt.alloc(), 1, 1, 65535, 4, &sums)?;
    assert!(rt; four.as_slice().get(61..) == Some([128, 0, 0, 1, 0, 0].as_slice()));
    Ok(())
}
