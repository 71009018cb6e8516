// Strict base64 (RFC 4648, section 4): padded, with the unused bits 0.
ghost use Rattle.std.specs.Prelude.{◌≡◌, ◌≤◌, length, take, Some, None, MatchOption};
ghost use Rattle.std.specs.Result.{result_ok};
ghost use Rattle.base64.specs.Engines.{standard};
ghost use Rattle.base64.specs.GeneralPurpose.{decode_of};

use base64::engine::general_purpose::{GeneralPurpose, STANDARD};
use std::marker::Model;

/// The engine of strict base64. It is kept since a constant's tables are laid out anew at each use.
#[derive(Drop)]
pub(crate) struct Decoder {
    engine: GeneralPurpose,
}

impl Model for Decoder {
    ghost use Rattle.smp_line.specs.Engines.{IsStandard};

    ghost Value = { Unit };

    ghost view = { λ d. tt };

    ghost invariant = { λ d. IsStandard d.engine };
}

impl Decoder {
    /// The engine, with its tables laid out.
    pub(crate) fn new() -> Decoder {
        Decoder { engine: STANDARD }
    }

    /// The bytes that symbols spell, at the front of `into`. It is a call of its own so that lines without
    /// symbols do not pay for it.
    #[inline(never)]
    pub(crate) fn decode(&self, symbols: &[u8], into: &mut [u8; 384]) -> Option<usize>
        requires { length symbols.now ≤ 512 }
        ensures { MatchOption result (result_ok (decode_of standard symbols.now) ≡ None)
            (λ n. (result_ok (decode_of standard symbols.now) ≡ Some (take n into.new)) × (n ≤ 384)) }
    {
        match self.engine.decode_slice_unchecked(symbols, into) {
            Ok(count) => Some(count),
            Err(_) => None,
        }
    }
}
