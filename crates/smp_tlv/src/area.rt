// The two areas of TLVs.
ghost use Rattle.std.specs.Prelude.{◌≡◌, ◌+◌, ◌-◌, ◌<◌, ◌≤◌, ◌^◌, drop, IfOk, IfErr, IfSome};
ghost use Rattle.smp_flash.specs.Calls.{ReadsAtMost};
ghost use Rattle.smp_flash.specs.State.{end_of};
ghost use Rattle.smp_flash.specs.declared.flash.Operation.TheVariants.{Read};
ghost use Rattle.smp_model.specs.Image.{covered_of, has_protected as is_protected, with_tlvs};
ghost use Rattle.smp_tlv.specs.Faults.{IsOfTlvs};
ghost use Rattle.smp_tlv.specs.Reads.{other_reads, protected_reads};
ghost use Rattle.smp_tlv.specs.State.{Looks};
ghost use Rattle.smp_tlv.specs.Walking.{info_by};

use crate::bytes::Bytes;
use crate::tlv::{HEAD, read_hash, read_head};
use smp_flash::FlashFault;
use smp_model::{ImageFault, ImageHeader, ImageInfo};

/// What the protected TLVs begin with.
const PROTECTED_MAGIC: u16 = 0x6908;

/// What the other TLVs begin with.
const TLV_MAGIC: u16 = 0x6907;

/// Whether protected TLVs of the size that the header states end where the covered bytes end, where it is not 0.
pub fn has_protected<B: Bytes>(
    b: &mut B,
    header: &ImageHeader,
    covered: u32,
) -> Result<bool, FlashFault>
    requires covered { covered ≡ covered_of header.now }
    requires inside { covered + 4 ≤ (B.state b.old).size }
    ensures looks { Looks header.now.protected_size (end_of Read result) (B.state b.old) (B.state b.new) }
    ensures reads { IfSome (B.state b.old).bytes (λ held. ReadsAtMost (protected_reads header.now held) (B.state b.old).holder.bytes_read (B.state b.new).holder.bytes_read) }
    ensures there { IfOk result (λ there. IfSome (B.state b.old).bytes (λ held. there ≡ is_protected header.now.protected_size (drop (header.now.header_size + header.now.image_size) held))) }
{
    let size = u32::from(header.protected_size);
    if size == 0 {
        return Ok(true);
    }
    if size < HEAD {
        return Ok(false);
    }
    let at = covered - size;
    let head = read_head(b, at)?;
    if head.first != PROTECTED_MAGIC || head.second != header.protected_size {
        return Ok(false);
    }
    let hash = read_hash(b, at + HEAD, covered)?;
    Ok(hash.is_some())
}

/// What is known by a header and the only hash of the TLVs behind the covered bytes, which take up `size` bytes.
fn info_from(
    header: &ImageHeader,
    covered: u32,
    size: u16,
    hash: Option<Option<[u8; 32]>>,
) -> Result<ImageInfo, ImageFault>
    requires covered { covered ≡ covered_of header.now }
    requires some { 4 ≤ size }
    requires fits { covered + size < 2 ^ 32 }
    ensures info { result ≡ info_by header.now size hash }
    ensures kind { IfErr result IsOfTlvs }
    ensures covered { IfOk result (λ info. info.covered ≡ covered_of header.now) }
    ensures end { IfOk result (λ info. info.end ≡ covered + size) }
{
    match hash {
        None => Err(ImageFault::Tlvs),
        Some(None) => Err(ImageFault::NoHash),
        Some(Some(hash)) => Ok(ImageInfo {
            version: header.version,
            flags: header.flags,
            covered,
            end: covered + u32::from(size),
            hash,
        }),
    }
}

/// What is known of the image by its header and the TLVs behind the covered bytes.
pub fn read_tlvs<B: Bytes>(
    b: &mut B,
    header: &ImageHeader,
    covered: u32,
) -> Result<Result<ImageInfo, ImageFault>, FlashFault>
    requires covered { covered ≡ covered_of header.now }
    requires inside { covered + 4 ≤ (B.state b.old).size }
    ensures looks { Looks 65535 (end_of Read result) (B.state b.old) (B.state b.new) }
    ensures reads { IfSome (B.state b.old).bytes (λ held. ReadsAtMost (other_reads covered held) (B.state b.old).holder.bytes_read (B.state b.new).holder.bytes_read) }
    ensures answer { IfOk result (λ answer. IfSome (B.state b.old).bytes (λ held. answer ≡ with_tlvs header.now (drop covered held))) }
    ensures kind { IfOk result (λ answer. IfErr answer IsOfTlvs) }
    ensures cost { IfOk result (λ answer. IfOk answer (λ info. ReadsAtMost (info.end - covered) (B.state b.old).holder.bytes_read (B.state b.new).holder.bytes_read)) }
    ensures covered { IfOk result (λ answer. IfOk answer (λ info. info.covered ≡ covered)) }
    ensures after { IfOk result (λ answer. IfOk answer (λ info. covered + 4 ≤ info.end)) }
    ensures inside { IfOk result (λ answer. IfOk answer (λ info. info.end ≤ (B.state b.old).size)) }
{
    let head = read_head(b, covered)?;
    let size = u32::from(head.second);
    if head.first != TLV_MAGIC || size < HEAD || size > b.length() - covered {
        return Ok(Err(ImageFault::Tlvs));
    }
    let hash = read_hash(b, covered + HEAD, covered + size)?;
    Ok(info_from(header, covered, head.second, hash))
}
