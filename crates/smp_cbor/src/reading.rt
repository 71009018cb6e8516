//! Reading a packet's data as one map.

ghost use Rattle.std.specs.Prelude.{◌≡◌, ℕ, IfOk, IfErr, OnErr, IsErr, IsOkAnd, IsErrAnd};
ghost use Rattle.smp_cbor.specs.Heads.{Gives};
ghost use Rattle.smp_cbor.specs.Values.{map_of, Pairs, pairs};
ghost use Rattle.smp_cbor.specs.Spelling.{SpellsMap};
ghost use Rattle.smp_cbor.specs.Faults.{IsFirstFault};
ghost use Rattle.smp_cbor.specs.Views.{IsPart, entries, map_bytes};

use crate::fault::{CborFault, CborKind, Stop};
use crate::heads::Head;
use crate::keys::pairs_of;
use crate::skipping::{head_at, stop};
use crate::views::MapView;

/// How many lists, maps and tags may stand inside the outer map, one in another.
const INNER_LEVELS: u8 = 7;

/// The map that the bytes spell, or the first fault. No bytes are the empty map.
///
/// All of the bytes are tested here, in time linear in their number, but for the search for repeated keys:
/// that takes each key against all before it. Up to 344 keys are kept for it on the stack; a key behind those
/// is sought among them, and by a walk over the pairs since.
pub fn read_map(bytes: &[u8]) -> Result<MapView<'_>, CborFault>
    // What is read is spelled so, and what is spelled so is read.
    ensures found { IfOk result (λ m. SpellsMap bytes.now (pairs (entries m))) }
    ensures only { (ps : Pairs) → SpellsMap bytes.now ps → IsOkAnd result (λ m. pairs (entries m) ≡ ps) }

    // What is refused has this first fault, and what has a first fault is refused by it.
    ensures fault { IfErr result (λ f. IsFirstFault bytes.now f.at f.kind) }
    ensures refused { (at : ℕ) (kind : CborKind) → IsFirstFault bytes.now at kind
        → IsErrAnd result (λ f. (f.at ≡ at) × (f.kind ≡ kind)) }

    // The same by the function on lists, for crates that compute with it.
    ensures ok { IfOk result (λ m. map_of bytes.now ≡ Ok (entries m)) }
    ensures none { OnErr result (IsErr (map_of bytes.now)) }

    // What is lent is a part of the data.
    ensures lent { IfOk result (λ m. IsPart (map_bytes m) bytes.now) }
{
    match whole_map(bytes) {
        Ok(map) => Ok(map),
        Err(stop) => Err(CborFault {
            at: bytes.len().saturating_sub(stop.left),
            kind: stop.kind,
        }),
    }
}

/// The map that all of the bytes spell.
#[tactic(auto, unfolding(crate::specs::Values::map_of, crate::specs::Values::pairs_from))]
fn whole_map(bytes: &[u8]) -> Result<MapView<'_>, Stop>
    ensures map { Gives (λ m. entries m) result (map_of bytes.now) }
    ensures lent { IfOk result (λ m. IsPart (map_bytes m) bytes.now) }
{
    let [first, ..] = bytes else {
        return Ok(MapView::behind_head(INNER_LEVELS, Some(0), bytes));
    };
    if *first / 32 != 5 {
        return Err(stop(bytes, CborKind::NotAMap));
    }
    let (head, content) = head_at(bytes)?;
    let Head::Map(count) = head else {
        return Err(stop(bytes, CborKind::NotAMap));
    };
    let rest = pairs_of(INNER_LEVELS, count, content)?;
    if !rest.is_empty() {
        return Err(stop(rest, CborKind::Trailing));
    }
    Ok(MapView::behind_head(INNER_LEVELS, count, content))
}
