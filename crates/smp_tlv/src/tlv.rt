// TLVs, read one after the other.
ghost use Rattle.std.specs.Prelude.{◌≡◌, ◌+◌, ◌-◌, ◌<◌, ◌≤◌, ◌==◌, ◌&&◌, not, [], drop, IfOk, IfSome};
ghost use Rattle.smp_flash.specs.Area.{area};
ghost use Rattle.smp_flash.specs.Calls.{ReadsAtMost};
ghost use Rattle.smp_flash.specs.State.{end_of};
ghost use Rattle.smp_flash.specs.declared.flash.Operation.TheVariants.{Read};
ghost use Rattle.smp_model.specs.Image.{number_16};
ghost use Rattle.smp_tlv.specs.Reads.{area_reads, is_missing, left_reads, value_reads, walk_reads, ReadsLeft};
ghost use Rattle.smp_tlv.specs.State.{Looks};
ghost use Rattle.smp_tlv.specs.declared.tlv.Hashes.TheVariants.{Missing};
ghost use Rattle.smp_tlv.specs.Walking.{only_with, outcome, tlvs_between, Follows, GoesOn, Adds, tlv_cost};

use crate::bytes::Bytes;
use smp_flash::FlashFault;
use smp_model::tlvs_are_read_in_order;

/// The type of the TLV that holds the SHA-256.
const HASH: u16 = 0x10;

/// The bytes of type and length, and of the head of an area.
pub const HEAD: u32 = 4;

/// The hashes that were found so far.
#[derive(Clone, Copy, Debug)]
pub enum Hashes {
    Missing,
    One([u8; 32]),
    /// There is more than one, or one has not 32 bytes.
    Unfit,
}

impl Hashes {
    /// The only hash.
    pub fn only(self) -> Option<[u8; 32]>
        ensures { result ≡ only_with self [] }
    {
        match self {
            Hashes::One(hash) => Some(hash),
            Hashes::Missing | Hashes::Unfit => None,
        }
    }
}

/// Where the next TLV begins, and the hashes found before it.
#[derive(Clone, Copy, Debug)]
pub struct Walk {
    pub at: u32,
    pub found: Hashes,
}

/// Two numbers of two bytes.
#[derive(Clone, Copy, Debug)]
pub struct Head {
    pub first: u16,
    pub second: u16,
}

/// Reads the two numbers that stand there: the type and the length of a TLV, or the magic and the size of an area.
pub fn read_head<B: Bytes>(b: &mut B, at: u32) -> Result<Head, FlashFault>
    requires { at + 4 ≤ (B.state b.old).size }
    ensures looks { Looks 4 (end_of Read result) (B.state b.old) (B.state b.new) }
    ensures head { IfOk result (λ head. IfSome (B.state b.old).bytes (λ held. (head.first ≡ number_16 (drop at held) 0) × (head.second ≡ number_16 (drop at held) 2))) }
{
    let mut bytes = [0; 4];
    b.read(at, &mut bytes)?;
    Ok(Head {
        first: u16::from_le_bytes([bytes[0], bytes[1]]),
        second: u16::from_le_bytes([bytes[2], bytes[3]]),
    })
}

/// What is found with one TLV more, whose head is this and whose value begins there. A value that is no hash is not read.
fn read_value<B: Bytes>(b: &mut B, at: u32, head: Head, found: Hashes) -> Result<Hashes, FlashFault>
    requires { at + head.second ≤ (B.state b.old).size }
    ensures looks { Looks head.second (end_of Read result) (B.state b.old) (B.state b.new) }
    ensures reads { ReadsAtMost (value_reads (is_missing found) head.first head.second) (B.state b.old).holder.bytes_read (B.state b.new).holder.bytes_read }
    ensures missing { IfOk result (λ next. is_missing next ≡ (is_missing found && not (head.first == 16))) }
    ensures adds { IfOk result (λ next. IfSome (B.state b.old).bytes (λ held. Adds found (record { kind = head.first; value = area at head.second held }) next)) }
{
    if head.first != HASH {
        return Ok(found);
    }
    match found {
        Hashes::Missing if head.second == 32 => {
            let mut hash = [0; 32];
            b.read(at, &mut hash)?;
            Ok(Hashes::One(hash))
        }
        _ => Ok(Hashes::Unfit),
    }
}

/// Reads the TLV that begins there. There is none where it would pass the end.
fn read_tlv<B: Bytes>(b: &mut B, walk: Walk, end: u32) -> Result<Option<Walk>, FlashFault>
    requires some { walk.at < end }
    requires inside { end ≤ (B.state b.old).size }
    ensures looks { Looks (end - walk.at) (end_of Read result) (B.state b.old) (B.state b.new) }
    ensures cost { IfOk result (λ next. ReadsAtMost (tlv_cost walk.at end next) (B.state b.old).holder.bytes_read (B.state b.new).holder.bytes_read) }
    ensures reads { IfSome (B.state b.old).bytes (λ held. ReadsAtMost (walk_reads walk end held) (B.state b.old).holder.bytes_read (B.state b.new).holder.bytes_read) }
    ensures left { IfOk result (λ next. IfSome (B.state b.old).bytes (λ held. ReadsLeft (left_reads end next held) (walk_reads walk end held) (B.state b.old).holder.bytes_read (B.state b.new).holder.bytes_read)) }
    ensures goes_on { IfOk result (GoesOn walk.at end) }
    ensures follows { IfOk result (λ next. IfSome (B.state b.old).bytes (Follows walk.found walk.at end next)) }
{
    tlvs_are_read_in_order();
    if end - walk.at < HEAD {
        return Ok(None);
    }
    let head = read_head(b, walk.at)?;
    let value = walk.at + HEAD;
    let length = u32::from(head.second);
    if end - value < length {
        return Ok(None);
    }
    let found = read_value(b, value, head, walk.found)?;
    Ok(Some(Walk {
        at: value + length,
        found,
    }))
}

/// The only hash among the TLVs from `at` up to `end`. There are none where they do not fill that exactly.
pub fn read_hash<B: Bytes>(
    b: &mut B,
    at: u32,
    end: u32,
) -> Result<Option<Option<[u8; 32]>>, FlashFault>
    requires order { at ≤ end }
    requires inside { end ≤ (B.state b.old).size }
    ensures looks { Looks (end - at) (end_of Read result) (B.state b.old) (B.state b.new) }
    ensures reads { IfSome (B.state b.old).bytes (λ held. ReadsAtMost (area_reads at end held) (B.state b.old).holder.bytes_read (B.state b.new).holder.bytes_read) }
    ensures hash { IfOk result (λ hash. IfSome (B.state b.old).bytes (λ held. hash ≡ outcome Missing (tlvs_between at end held))) }
{
    let mut walk = Walk {
        at,
        found: Hashes::Missing,
    };
    while walk.at < end {
        match read_tlv(b, walk, end)? {
            None => return Ok(None),
            Some(next) => walk = next,
        }
    }
    Ok(Some(walk.found.only()))
}
