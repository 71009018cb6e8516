// A file's digest and its image, carried along while its bytes come.
ghost use Rattle.std.specs.Prelude.{⊤, ◌≡◌, ◌≢◌, ◌+◌, ◌<◌, ◌≤◌, ◌++◌, List, [], ℕ, length, take, false, None, IfOk, IfSome};
ghost use Rattle.sha2.specs.Hashers.{Holds256};
ghost use Rattle.sha2.specs.Sha256.{sha256};
ghost use Rattle.smp_flash.specs.Calls.{ReadsAtMost};
ghost use Rattle.smp_flash.specs.State.{end_of};
ghost use Rattle.smp_flash.specs.State.End.{WentOff};
ghost use Rattle.smp_flash.specs.declared.flash.Operation.TheVariants.{Read};
ghost use Rattle.smp_model.specs.Image.{good_image, image_of};
ghost use Rattle.smp_tlv.specs.Carried.{Carries, FitsIn, StandsAt};
ghost use Rattle.smp_tlv.specs.Covered.{covered_in};
ghost use Rattle.smp_tlv.specs.Reads.{image_reads};
ghost use Rattle.smp_tlv.specs.State.{Looks, IsInside};
ghost use Rattle.smp_tlv.specs.declared.covered.Covered.TheVariants.{Header};

use crate::bytes::Bytes;
use crate::covered::{Awaited, Covered, Front, Kept};
use crate::header::{covered_by, header_from};
use crate::image::find_image;
use sha2::{Digest, Sha256};
use smp_flash::FlashFault;
use smp_model::{ImageFault, ImageInfo};
use std::alloc::AllocError;

/// A file whose bytes come piece by piece: its SHA-256, and that of the bytes which an image's hash is of, as far as they have
/// come. Each byte is hashed once, and none is kept but those of the header.
#[derive(Drop)]
pub struct Carried {
    sum: Sha256,
    covered: Covered,
}

/// What is known of a file whose bytes have all come.
#[derive(Clone, Copy, Debug, PartialEq, Eq)]
pub struct Finished {
    /// The SHA-256 of all its bytes.
    pub digest: [u8; 32],
    /// The image that the file begins with, where it is a good one: its hash is the SHA-256 of the covered bytes.
    pub image: Option<ImageInfo>,
}

/// The SHA-256 of what was added so far.
fn digest_so_far(sum: &Sha256) -> [u8; 32]
    ensures { (added : List ℕ) → Holds256 sum.now added → result ≡ sha256 added }
{
    match sum.clone() {
        Ok(sum) => sum.finalize(),
        Err(_) => unreachable!(),
    }
}

/// Where the bytes stand of which so many are covered, and so many of these are missing.
fn awaiting(covered: u64, left: u64, sum: &Sha256) -> Covered
    ensures { (added : List ℕ) → 32 ≤ length added → covered_in added ≡ Ok covered → length added + left ≡ covered → Holds256 sum.now added → StandsAt result added }
{
    if left > 0 {
        return Covered::Awaited(Awaited { covered, left });
    }
    let digest = digest_so_far(sum);
    Covered::Kept(Kept { covered, digest })
}

/// Where the bytes stand that are just the header's.
fn behind_header(bytes: &[u8; 32], sum: &Sha256) -> Covered
    ensures { Holds256 sum.now bytes.now → StandsAt result bytes.now }
{
    match covered_by(&header_from(bytes)) {
        Ok(covered) => awaiting(covered, covered - 32, sum),
        Err(_) => Covered::Nothing,
    }
}

/// Where the bytes stand after a piece more of the header.
fn add_to_header(front: Front, piece: &[u8], sum: &Sha256) -> Covered
    requires { front.count + length piece.now ≤ 32 }
    ensures { (added : List ℕ) → StandsAt (Header front) added → Holds256 sum.now (added ++ piece.now) → StandsAt result (added ++ piece.now) }
{
    let mut bytes = front.bytes;
    let count = front.count + piece.len();
    bytes[front.count..count].copy_from_slice(piece);
    if count < 32 {
        return Covered::Header(Front { bytes, count });
    }
    behind_header(&bytes, sum)
}

/// Where the bytes stand after a piece more, which passes neither the header's end nor that of the covered bytes.
fn after(covered: Covered, piece: &[u8], sum: &Sha256) -> Covered
    requires { FitsIn covered (length piece.now) }
    ensures { (added : List ℕ) → StandsAt covered added → Holds256 sum.now (added ++ piece.now) → StandsAt result (added ++ piece.now) }
{
    match covered {
        Covered::Header(front) => add_to_header(front, piece, sum),
        Covered::Awaited(awaited) => {
            awaiting(awaited.covered, awaited.left - piece.len() as u64, sum)
        }
        Covered::Kept(kept) => Covered::Kept(kept),
        Covered::Nothing => Covered::Nothing,
    }
}

/// How many of the next bytes, at most so many, come before the header's end or that of the covered bytes.
fn room(covered: Covered, most: usize) -> usize
    ensures most { result ≤ most }
    ensures some { 0 < most → 0 < result }
    ensures fits { FitsIn covered result }
{
    match covered {
        Covered::Header(front) => most.min(32 - front.count),
        Covered::Awaited(awaited) => (most as u64).min(awaited.left) as usize,
        Covered::Kept(_) | Covered::Nothing => most,
    }
}

/// The image, where the digest that was kept is the hash that it states.
fn agreed(kept: &Kept, info: &ImageInfo) -> Option<ImageInfo>
    ensures some { IfSome result (λ image. image ≡ info.now) }
    ensures covered { IfSome result (λ image. kept.now.covered ≡ info.now.covered) }
    ensures digest { IfSome result (λ image. kept.now.digest ≡ info.now.hash) }
    ensures none { result ≡ None → kept.now.covered ≡ info.now.covered → kept.now.digest ≢ info.now.hash }
{
    let digest = kept.digest;
    if kept.covered == u64::from(info.covered) && digest == info.hash {
        Some(*info)
    } else {
        None
    }
}

/// The image that was found, where the digest that was kept is the hash that it states.
fn hashed(covered: &Covered, found: &Result<ImageInfo, ImageFault>) -> Option<ImageInfo>
    ensures found { IfSome result (λ info. found.now ≡ Ok info) }
    ensures hash { IfSome result (λ info. (added : List ℕ) → StandsAt covered.now added → info.hash ≡ sha256 (take info.covered added)) }
    ensures image { (added : List ℕ) → StandsAt covered.now added → found.now ≡ image_of added → result ≡ good_image added }
{
    let Covered::Kept(kept) = covered else {
        return None;
    };
    match found {
        Ok(info) => agreed(kept, info),
        Err(_) => None,
    }
}

impl Clone for Carried {
    ghost is_clone = { λ carried clone. clone ≡ carried };

    ghost is_infallible = { λ _. ⊤ };

    fn clone(&self) -> Result<Carried, AllocError> {
        Ok(Carried {
            sum: self.sum.clone()?,
            covered: self.covered,
        })
    }
}

impl Carried {
    /// A file of which no byte has come.
    pub fn new() -> Carried
        ensures { Carries result [] }
    {
        Carried {
            sum: Sha256::new(),
            covered: Covered::Header(Front {
                bytes: [0; 32],
                count: 0,
            }),
        }
    }

    /// Adds a piece that passes neither the header's end nor that of the covered bytes.
    fn add_piece(&mut self, piece: &[u8])
        requires { FitsIn self.old.covered (length piece.now) }
        ensures { (added : List ℕ) → Carries self.old added → Carries self.new (added ++ piece.now) }
    {
        self.sum.update(piece);
        self.covered = after(self.covered, piece, &self.sum);
    }

    /// Adds the next bytes of the file, however many. How a file is cut makes no difference.
    pub fn add(&mut self, bytes: &[u8])
        ensures { (added : List ℕ) → Carries self.old added → Carries self.new (added ++ bytes.now) }
    {
        let mut at = 0;
        while at < bytes.len() {
            let end = at + room(self.covered, bytes.len() - at);
            self.add_piece(&bytes[at..end]);
            at = end;
        }
    }

    /// What is known of the file, whose bytes are those of `b`: the same as where all of them are read and hashed again. It reads
    /// what `read_image` reads, at most 131102 bytes, and no payload. `Fault` and `Off` come as the holder of the bytes gives
    /// them, and nothing is read after them.
    pub fn finish<B: Bytes>(self, b: &mut B) -> Result<Finished, FlashFault>
        requires { IfSome (B.state b.old).bytes (Carries self) }
        ensures looks { Looks 131102 (end_of Read result) (B.state b.old) (B.state b.new) }
        ensures off { (B.state b.old).holder.on ≡ false → 32 ≤ (B.state b.old).size → end_of Read result ≡ WentOff }
        ensures reads { IfSome (B.state b.old).bytes (λ held. ReadsAtMost (image_reads held) (B.state b.old).holder.bytes_read (B.state b.new).holder.bytes_read) }
        ensures digest { IfOk result (λ finished. (added : List ℕ) → Carries self added → finished.digest ≡ sha256 added) }
        ensures hash { IfOk result (λ finished. IfSome finished.image (λ info. (added : List ℕ) → Carries self added → info.hash ≡ sha256 (take info.covered added))) }
        ensures cost { IfOk result (λ finished. IfSome finished.image (λ info. ReadsAtMost info.end (B.state b.old).holder.bytes_read (B.state b.new).holder.bytes_read)) }
        ensures inside { IfOk result (λ finished. IfSome finished.image (IsInside (B.state b.old).size)) }
        ensures image { IfOk result (λ finished. IfSome (B.state b.old).bytes (λ held. finished.image ≡ good_image held)) }
    {
        let found = find_image(b)?;
        Ok(Finished {
            digest: self.sum.finalize(),
            image: hashed(&self.covered, &found),
        })
    }
}
