// The pixels of a band.
ghost use Rattle.std.specs.Prelude.{◌≡◌, ◌<◌, ◌≤◌};
ghost use Rattle.abuf_num.specs.declared.limits.TheConstants.{MAX_SIDE};
ghost use Rattle.abuf_raster.specs.Region.{IsImageSize};
ghost use Rattle.abuf_band.specs.Bands.{band_region};
ghost use Rattle.abuf_band.specs.Rows.{band_of, first_row};

use abuf_raster::Region;

/// The first row of a band, counted from that of the region; of the number of bands itself, the height.
fn first_row(height: u32, count: u32, band: u32) -> u32
    requires count { (1 ≤ count) × (count ≤ height) }
    requires band { band ≤ count }
    requires height { height ≤ MAX_SIDE }
    ensures value { result ≡ first_row height count band }
    ensures within { result ≤ height }
{
    band * height / count
}

/// The pixels of a band of a region, counted from 0. Bands are groups of rows that follow each other from the top, and share the
/// rows as evenly as whole rows can be shared. The index of a pixel counts within its band, so a band is an image of its own to the
/// crates below.
fn band_of(region: Region, count: u32, band: u32) -> Region
    requires count { (1 ≤ count) × (count ≤ region.h) }
    requires band { band < count }
    ensures { result ≡ band_of region count band }
{
    let from = first_row(region.h(), count, band);
    let to = first_row(region.h(), count, band + 1);
    Region::new(region.x0(), region.y0() + from, region.w(), to - from)
}

/// The pixels of a band, counted from 0, of an image of this size.
pub(crate) fn band_region(width: u32, height: u32, bands: u32, band: u32) -> Region
    requires size { IsImageSize width height }
    requires bands { (1 ≤ bands) × (bands ≤ height) }
    requires band { band < bands }
    ensures { result ≡ band_region width height bands band }
{
    band_of(Region::whole_image(width, height), bands, band)
}
