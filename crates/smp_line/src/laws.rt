// Laws of the lines and of the CRC. The functions do nothing: each stands for the law in its clause.
ghost use Rattle.std.specs.Prelude.{◌≡◌, ◌≤◌, ◌↔◌, ℕ, List, Bool, length, take};
ghost use Rattle.smp_line.specs.Crc.{IsCrc, crc_of};
ghost use Rattle.smp_line.specs.Line.{AreBytes, HasNoNewline, Spells, content, content_of, line_of, first, next, first_marker, next_marker};

/// A message has at most one CRC.
pub fn crc_is_unique()
    ensures { (bytes : List ℕ) (a : ℕ) (b : ℕ) → IsCrc bytes a → IsCrc bytes b → a ≡ b }
{}

/// The fold by which the CRC is worked out gives the CRC of each message.
#[inline(always)]
pub fn crc_is_worked_out()
    ensures { (bytes : List ℕ) → AreBytes bytes → IsCrc bytes (crc_of bytes) }
{}

/// A line holds the first bytes of a packet exactly where it is their text.
pub fn first_line_is_its_text()
    ensures { (line : List ℕ) (bytes : List ℕ) → AreBytes line → AreBytes bytes
        → (content line ≡ first bytes) ↔ Spells first_marker line bytes }
{}

/// A line holds further bytes of a packet exactly where it is their text.
pub fn next_line_is_its_text()
    ensures { (line : List ℕ) (bytes : List ℕ) → AreBytes line → AreBytes bytes
        → (content line ≡ next bytes) ↔ Spells next_marker line bytes }
{}

/// What is written for at most 384 bytes is read as these bytes.
#[inline(always)]
pub fn written_lines_are_read()
    ensures { (is_first : Bool) (bytes : List ℕ) → AreBytes bytes → length bytes ≤ 384
        → content (line_of is_first bytes) ≡ content_of is_first bytes }
{}

/// The text of a line has no newline before its end.
#[inline(always)]
pub fn text_has_no_newline()
    ensures { (is_first : Bool) (bytes : List ℕ) → HasNoNewline (line_of is_first bytes) }
{}

/// The first 516 bytes of a line tell what it holds.
#[inline(always)]
pub fn front_tells_content()
    ensures { (line : List ℕ) → content (take 516 line) ≡ content line }
{}
