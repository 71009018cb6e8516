// An image from its bytes.
ghost use Rattle.std.specs.Prelude.{◌≡◌, ◌≤◌, false, IfOk, IfErr, IfSome};
ghost use Rattle.smp_flash.specs.Calls.{ReadsAtMost};
ghost use Rattle.smp_flash.specs.State.{end_of};
ghost use Rattle.smp_flash.specs.State.End.{Went, WentOff};
ghost use Rattle.smp_flash.specs.declared.flash.Operation.TheVariants.{Read};
ghost use Rattle.smp_model.specs.Image.{image_of};
ghost use Rattle.smp_tlv.specs.Faults.{IsOfBytes, IsOfReading, image_fault};
ghost use Rattle.smp_tlv.specs.Reads.{image_reads};
ghost use Rattle.smp_tlv.specs.State.{Looks, IsInside, image_end, image_cost};

use crate::area::{has_protected, read_tlvs};
use crate::bytes::Bytes;
use crate::header::{check_header, read_header};
use smp_flash::FlashFault;
use smp_model::{ImageFault, ImageInfo};

/// The image, or the first fault of its bytes.
pub fn find_image<B: Bytes>(b: &mut B) -> Result<Result<ImageInfo, ImageFault>, FlashFault>
    ensures looks { Looks 131102 (end_of Read result) (B.state b.old) (B.state b.new) }
    ensures off { (B.state b.old).holder.on ≡ false → 32 ≤ (B.state b.old).size → end_of Read result ≡ WentOff }
    ensures reads { IfSome (B.state b.old).bytes (λ held. ReadsAtMost (image_reads held) (B.state b.old).holder.bytes_read (B.state b.new).holder.bytes_read) }
    ensures answer { IfOk result (λ answer. IfSome (B.state b.old).bytes (λ held. answer ≡ image_of held)) }
    ensures cost { IfOk result (λ answer. ReadsAtMost (image_cost answer) (B.state b.old).holder.bytes_read (B.state b.new).holder.bytes_read) }
    ensures kind { IfOk result (λ answer. IfErr answer IsOfBytes) }
    ensures inside { IfOk result (λ answer. IfOk answer (IsInside (B.state b.old).size)) }
{
    let size = b.length();
    if size < 32 {
        return Ok(Err(ImageFault::Short));
    }
    let header = read_header(b)?;
    let covered = match check_header(&header, size) {
        Ok(covered) => covered,
        Err(fault) => return Ok(Err(fault)),
    };
    if !has_protected(b, &header, covered)? {
        return Ok(Err(ImageFault::Protected));
    }
    read_tlvs(b, &header, covered)
}

/// Why the bytes could not be read, as a fault of an image.
pub fn passed_on(fault: FlashFault) -> ImageFault
    ensures { result ≡ image_fault fault }
{
    match fault {
        FlashFault::Fault => ImageFault::Fault,
        FlashFault::Off => ImageFault::Off,
    }
}

/// Reads the image that the bytes begin with (MCUboot's design document, "Image format"): its version, its flags, how
/// many bytes its hash is of, where it ends, and its hash. What stands after its end is not looked at.
///
/// A fault is the first one of the bytes, in the order of `ImageFault`, and nothing is read after what shows it. The hash
/// is not checked: `WrongHash` and `TooLarge` never come. `Fault` and `Off` come as the holder of the bytes gives them,
/// `Off` always where it was off and there is a header to read, and nothing is read after them. At most 131102 bytes are read: a header and two areas of TLVs.
pub fn read_image<B: Bytes>(b: &mut B) -> Result<ImageInfo, ImageFault>
    ensures looks { Looks 131102 (image_end result) (B.state b.old) (B.state b.new) }
    ensures reads { IfSome (B.state b.old).bytes (λ held. ReadsAtMost (image_reads held) (B.state b.old).holder.bytes_read (B.state b.new).holder.bytes_read) }
    ensures cost { ReadsAtMost (image_cost result) (B.state b.old).holder.bytes_read (B.state b.new).holder.bytes_read }
    ensures off { (B.state b.old).holder.on ≡ false → 32 ≤ (B.state b.old).size → image_end result ≡ WentOff }
    ensures image { image_end result ≡ Went → IfSome (B.state b.old).bytes (λ held. result ≡ image_of held) }
    ensures kind { IfErr result IsOfReading }
    ensures inside { IfOk result (IsInside (B.state b.old).size) }
{
    match find_image(b) {
        Ok(answer) => answer,
        Err(fault) => Err(passed_on(fault)),
    }
}
