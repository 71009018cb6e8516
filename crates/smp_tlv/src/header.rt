// The header of an image.
ghost use Rattle.std.specs.Prelude.{◌≡◌, ◌+◌, ◌^◌, ◌<◌, ◌≤◌, List, ℕ, length, take, false, IfOk, IfErr, IfSome, OnOk, is_ok};
ghost use Rattle.smp_flash.specs.State.{end_of};
ghost use Rattle.smp_flash.specs.State.End.{WentOff};
ghost use Rattle.smp_flash.specs.declared.flash.Operation.TheVariants.{Read};
ghost use Rattle.smp_model.specs.Image.{header_of, covered_of, with_header, with_areas};
ghost use Rattle.smp_tlv.specs.Covered.{header_covers};
ghost use Rattle.smp_tlv.specs.Faults.{unless, IsOfHeader};
ghost use Rattle.smp_tlv.specs.Reads.{passes};
ghost use Rattle.smp_tlv.specs.State.{Looks};

use crate::bytes::Bytes;
use smp_flash::FlashFault;
use smp_model::{ImageFault, ImageHeader, Version};

/// What an image begins with.
const IMAGE_MAGIC: u32 = 0x96f3_b83d;

/// The bytes of a header without its rest.
const HEADER: u16 = 32;

/// The flags that say that the payload is encrypted, by either size of key.
const ENCRYPTED: u32 = 0x0c;

/// The header that these bytes state.
pub fn header_from(bytes: &[u8; 32]) -> ImageHeader
    ensures { result ≡ header_of bytes.now }
{
    ImageHeader {
        magic: u32::from_le_bytes([bytes[0], bytes[1], bytes[2], bytes[3]]),
        load: u32::from_le_bytes([bytes[4], bytes[5], bytes[6], bytes[7]]),
        header_size: u16::from_le_bytes([bytes[8], bytes[9]]),
        protected_size: u16::from_le_bytes([bytes[10], bytes[11]]),
        image_size: u32::from_le_bytes([bytes[12], bytes[13], bytes[14], bytes[15]]),
        flags: u32::from_le_bytes([bytes[16], bytes[17], bytes[18], bytes[19]]),
        version: Version {
            major: bytes[20],
            minor: bytes[21],
            revision: u16::from_le_bytes([bytes[22], bytes[23]]),
            build: u32::from_le_bytes([bytes[24], bytes[25], bytes[26], bytes[27]]),
        },
        padding: u32::from_le_bytes([bytes[28], bytes[29], bytes[30], bytes[31]]),
    }
}

/// Reads the header, which is there.
pub fn read_header<B: Bytes>(b: &mut B) -> Result<ImageHeader, FlashFault>
    requires { 32 ≤ (B.state b.old).size }
    ensures looks { Looks 32 (end_of Read result) (B.state b.old) (B.state b.new) }
    ensures off { (B.state b.old).holder.on ≡ false → end_of Read result ≡ WentOff }
    ensures header { IfOk result (λ header. IfSome (B.state b.old).bytes (λ held. header ≡ header_of (take 32 held))) }
{
    let mut bytes = [0; 32];
    b.read(0, &mut bytes)?;
    Ok(header_from(&bytes))
}

/// How many bytes the hash of an image with this header is of; or the first test of the header alone that fails.
pub fn covered_by(header: &ImageHeader) -> Result<u64, ImageFault>
    ensures covered { result ≡ header_covers header.now }
    ensures least { IfOk result (λ covered. 32 + header.now.protected_size ≤ covered) }
    ensures most { IfOk result (λ covered. covered < 2 ^ 33) }
    ensures small { OnOk result (header.now.protected_size ≤ 65535) }
    ensures kind { IfErr result IsOfHeader }
{
    if header.magic != IMAGE_MAGIC {
        return Err(ImageFault::Magic);
    }
    if header.header_size < HEADER {
        return Err(ImageFault::HeaderSize);
    }
    if header.flags & ENCRYPTED != 0 {
        return Err(ImageFault::Encrypted);
    }
    Ok(
        u64::from(header.header_size)
            + u64::from(header.image_size)
            + u64::from(header.protected_size),
    )
}

/// How many bytes the hash of an image with this header is of, where there are `size` bytes; or the first test of the header
/// that fails.
pub fn check_header(header: &ImageHeader, size: u32) -> Result<u32, ImageFault>
    ensures tests { (b : List ℕ) → length b ≡ size → with_header header.now b ≡ unless result (with_areas header.now b) }
    ensures covered { IfOk result (λ covered. covered ≡ covered_of header.now) }
    ensures passes { is_ok result ≡ passes header.now size }
    ensures fits { IfOk result (λ covered. covered + 4 ≤ size) }
    ensures small { OnOk result (header.now.protected_size ≤ 65535) }
    ensures least { IfOk result (λ covered. 32 + header.now.protected_size ≤ covered) }
    ensures kind { IfErr result IsOfHeader }
{
    let covered = covered_by(header)?;
    if covered + 4 > u64::from(size) {
        return Err(ImageFault::Bounds);
    }
    Ok(covered as u32)
}
