//! Laws of reading: functions with empty bodies, whose clauses hold of every value. A caller that calls one knows its law from
//! there on.

ghost use Rattle.std.specs.Prelude.{◌≡◌, ◌+◌, ◌≤◌, ℕ, Some};
ghost use Rattle.smp_flash.specs.Area.{spot};
ghost use Rattle.smp_flash.specs.Calls.{PassesFaultsOn};
ghost use Rattle.smp_flash.specs.State.{End};
ghost use Rattle.smp_flash.specs.State.End.{Went};
ghost use Rattle.smp_tlv.specs.Lent.{lent_bytes, lent_state};
ghost use Rattle.smp_tlv.specs.State.{BytesState, Looks};
ghost use Rattle.smp_tlv.specs.declared.lent.Lent.{Lent as LentBytes};

/// A call that only reads passes the faults of what holds the bytes on.
pub fn looks_pass_faults_on()
    ensures { (most : ℕ) (end : End) (a b : BytesState) → Looks most end a b → PassesFaultsOn (spot a.start a.size) end a.holder b.holder }
{}

/// A call that went through and then one that ended somehow are one call that ended so, and their reads add up.
pub fn looks_compose()
    ensures after { (m n : ℕ) (end : End) (a b c : BytesState) → Looks m Went a b → Looks n end b c → Looks (m + n) end a c }
    ensures wider { (m n : ℕ) (end : End) (a b : BytesState) → m ≤ n → Looks m end a b → Looks n end a b }
{}

/// A call that only reads lent bytes goes through, and leaves them as they are.
pub fn lent_bytes_are_read()
    ensures end { (most : ℕ) (end : End) (lent : LentBytes) (after : BytesState) → Looks most end (lent_state lent) after → end ≡ Went }
    ensures kept { (most : ℕ) (end : End) (lent : LentBytes) (after : BytesState) → Looks most end (lent_state lent) after → after.bytes ≡ Some (lent_bytes lent) }
{}
