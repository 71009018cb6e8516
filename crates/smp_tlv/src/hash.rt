// The hash of an image.
ghost use Rattle.std.specs.Prelude.{◌≡◌, ◌≢◌, ◌+◌, ◌<◌, ◌≤◌, length, take, false, Some, None, IfOk, IfErr, IfSome, OnOk, OnErr};
ghost use Rattle.sha2.specs.Hashers.{Holds256};
ghost use Rattle.sha2.specs.Sha256.{sha256};
ghost use Rattle.smp_flash.specs.State.{end_of};
ghost use Rattle.smp_flash.specs.State.End.{WentOff};
ghost use Rattle.smp_flash.specs.declared.flash.Operation.TheVariants.{Read};
ghost use Rattle.smp_model.specs.Image.{image_of, good_image};
ghost use Rattle.smp_model.specs.declared.image.ImageFault.TheVariants.{WrongHash};
ghost use Rattle.smp_tlv.specs.Faults.{IsOfHash};
ghost use Rattle.smp_tlv.specs.State.{Looks, image_end};

use crate::bytes::Bytes;
use crate::image::passed_on;
use sha2::{Digest, Sha256};
use smp_flash::FlashFault;
use smp_model::{ImageFault, ImageInfo};

/// How many bytes are read at a time.
const BLOCK: usize = 256;

/// Adds the bytes from `at` on to a sum, by way of `into`.
fn add_bytes<B: Bytes>(
    b: &mut B,
    at: u32,
    into: &mut [u8],
    sum: &mut Sha256,
) -> Result<(), FlashFault>
    requires { at + length into.old ≤ (B.state b.old).size }
    ensures looks { Looks (length into.old) (end_of Read result) (B.state b.old) (B.state b.new) }
    ensures off { (B.state b.old).holder.on ≡ false → 0 < length into.old → end_of Read result ≡ WentOff }
    ensures sum { OnOk result (IfSome (B.state b.old).bytes (λ held. Holds256 sum.old (take at held) → Holds256 sum.new (take (at + length into.old) held))) }
{
    b.read(at, into)?;
    sum.update(&*into);
    Ok(())
}

/// The SHA-256 of the first `size` bytes, which are read once, by way of `block`.
fn digest_of<B: Bytes>(b: &mut B, size: u32, block: &mut [u8]) -> Result<[u8; 32], FlashFault>
    requires inside { size ≤ (B.state b.old).size }
    requires some { 0 < length block.old }
    ensures looks { Looks size (end_of Read result) (B.state b.old) (B.state b.new) }
    ensures off { (B.state b.old).holder.on ≡ false → 0 < size → end_of Read result ≡ WentOff }
    ensures digest { IfOk result (λ digest. IfSome (B.state b.old).bytes (λ held. digest ≡ sha256 (take size held))) }
{
    let mut sum = Sha256::new();
    let mut at = 0;
    while at < size {
        let length = block.len().min((size - at) as usize);
        add_bytes(b, at, &mut block[..length], &mut sum)?;
        at += length as u32;
    }
    Ok(sum.finalize())
}

/// Compares the hash that an image states with the SHA-256 of its covered bytes.
fn compare(digest: [u8; 32], info: &ImageInfo) -> Result<(), ImageFault>
    ensures right { OnOk result (digest ≡ info.now.hash) }
    ensures wrong { OnErr result (digest ≢ info.now.hash) }
    ensures kind { IfErr result (λ fault. fault ≡ WrongHash) }
{
    if digest == info.hash {
        Ok(())
    } else {
        Err(ImageFault::WrongHash)
    }
}

/// Checks that the hash that an image states is the SHA-256 of its covered bytes, which are read once, in blocks.
///
/// `info` is what `read_image` gives of the bytes. It answers `WrongHash` where the hash is another one; `Fault` and `Off`
/// come as the holder of the bytes gives them, `Off` always where it was off, and nothing is read after them.
pub fn check_hash<B: Bytes>(b: &mut B, info: &ImageInfo) -> Result<(), ImageFault>
    requires covered { info.now.covered ≤ (B.state b.old).size }
    requires image { IfSome (B.state b.old).bytes (λ held. image_of held ≡ Ok info.now) }
    ensures looks { Looks info.now.covered (image_end result) (B.state b.old) (B.state b.new) }
    ensures good { OnOk result (IfSome (B.state b.old).bytes (λ held. good_image held ≡ Some info.now)) }
    ensures right { OnOk result (IfSome (B.state b.old).bytes (λ held. info.now.hash ≡ sha256 (take info.now.covered held))) }
    ensures off { (B.state b.old).holder.on ≡ false → 0 < info.now.covered → image_end result ≡ WentOff }
    ensures wrong { result ≡ Err WrongHash → IfSome (B.state b.old).bytes (λ held. info.now.hash ≢ sha256 (take info.now.covered held)) }
    ensures bad { result ≡ Err WrongHash → IfSome (B.state b.old).bytes (λ held. good_image held ≡ None) }
    ensures kind { IfErr result IsOfHash }
{
    let mut block = [0; BLOCK];
    match digest_of(b, info.covered, &mut block) {
        Ok(digest) => compare(digest, info),
        Err(fault) => Err(passed_on(fault)),
    }
}
