//! Laws over the definitions. Each function takes the values that its law speaks of, and does nothing: its contract is
//! the law.
ghost use Rattle.std.specs.Prelude.{◌≡◌, ◌≤◌, sum};
ghost use Rattle.abuf_raster.specs.Region.{IsImageSize, whole_image};
ghost use Rattle.abuf_picture.specs.Picture.{total};
ghost use Rattle.abuf_band.specs.Bands.{band_totals};

use abuf_raster::{Pattern, ScreenTri};

/// The law of the bands: however many they are, the fragments of all bands are as many as those of the whole image.
pub fn bands_law(triangles: &[ScreenTri], pattern: Pattern, width: u32, height: u32, bands: u32)
    requires size { IsImageSize width height }
    requires bands { (1 ≤ bands) × (bands ≤ height) }
    ensures { sum (band_totals triangles.now pattern width height bands) ≡ total triangles.now pattern (whole_image width height) }
{}
