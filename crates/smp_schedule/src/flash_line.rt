// The line that gives a flash.

use smp_edge::Octets;
use smp_flash::Geometry;

/// `flash PAGE UNIT PAGES IMAGE`, with a second image behind it for two: the sizes of the flash, and the names of the files
/// that its primary slots hold.
#[derive(Debug, Drop)]
pub struct FlashLine {
    pub geometry: Geometry,
    pub image: Octets,
    pub second: Option<Octets>,
}
