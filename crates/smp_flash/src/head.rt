// The head of a flash file: the text SMPFLASH, the sizes, eight zero bytes.
ghost use Rattle.std.specs.Prelude.{◌≡◌, ◌+◌, IfSome, IfNone, IsTrue};
ghost use Rattle.smp_flash.specs.Geometry.{is_lawful};
ghost use Rattle.smp_flash.specs.Head.{flash_head, images_number, images_read, IsFile, IsNoHead, IsNoFile, ReadsSizes};

use crate::geometry::Geometry;

/// How many bytes lie before the flash.
pub(crate) const HEAD: u32 = 32;

/// How the number of images is written.
fn images_number(images: u32) -> u32
    ensures { result ≡ images_number images }
{
    if images == 1 { 0 } else { images }
}

/// The head of a flash of these sizes.
pub(crate) fn head_of(geometry: Geometry) -> [u8; 32]
    ensures { result ≡ flash_head geometry }
{
    let images = images_number(geometry.images);
    let mut head = [0u8; 32];
    head[..8].copy_from_slice(b"SMPFLASH");
    head[8..12].copy_from_slice(&geometry.page.to_be_bytes());
    head[12..16].copy_from_slice(&geometry.unit.to_be_bytes());
    head[16..20].copy_from_slice(&geometry.slot_pages.to_be_bytes());
    head[20..24].copy_from_slice(&images.to_be_bytes());
    head
}

/// The number of images that a written number stands for.
fn images_of(number: u32) -> u32
    ensures { result ≡ images_read number }
{
    if number == 0 { 1 } else { number }
}

/// The sizes that stand in a head.
fn sizes_at(head: &[u8; 32]) -> Geometry
    ensures { ReadsSizes head.now result }
{
    Geometry {
        page: u32::from_be_bytes([head[8], head[9], head[10], head[11]]),
        unit: u32::from_be_bytes([head[12], head[13], head[14], head[15]]),
        slot_pages: u32::from_be_bytes([head[16], head[17], head[18], head[19]]),
        images: images_of(u32::from_be_bytes([head[20], head[21], head[22], head[23]])),
    }
}

/// The sizes of the flash that has this head, where it is one.
fn sizes_in(head: &[u8; 32]) -> Option<Geometry>
    ensures lawful { IfSome result (λ g. IsTrue (is_lawful g)) }
    ensures head { IfSome result (λ g. head.now ≡ flash_head g) }
    ensures reads { IfSome result (ReadsSizes head.now) }
    ensures none { IfNone result (IsNoHead head.now) }
{
    let geometry = sizes_at(head);
    if !geometry.is_lawful() {
        return None;
    }
    if head_of(geometry) != *head {
        return None;
    }
    Some(geometry)
}

/// Where a byte of the flash lies in the file.
pub(crate) fn place(at: u32) -> u64
    ensures { result ≡ 32 + at }
{
    u64::from(HEAD) + u64::from(at)
}

/// The sizes of the flash whose file has this head and this length, where it is one.
pub(crate) fn sizes_of_file(head: &[u8; 32], length: u64) -> Option<Geometry>
    ensures lawful { IfSome result (λ g. IsTrue (is_lawful g)) }
    ensures file { IfSome result (λ g. IsFile g head.now length) }
    ensures none { IfNone result (IsNoFile head.now length) }
{
    let geometry = sizes_in(head)?;
    if length != u64::from(HEAD + geometry.size()) {
        return None;
    }
    Some(geometry)
}
