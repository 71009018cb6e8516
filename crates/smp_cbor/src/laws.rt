//! Laws of spellings, of their faults and of the shortest form: functions with empty bodies, whose clauses hold of every
//! value. A caller that calls one knows its law from there on.

ghost use Rattle.smp_cbor.specs.Laws.{SpellingsEnd, HasOneFault, HasNoFaultWhereMap, HasSoundFront, HasLastingFault, ShortestSpells, IsLeastHead, ShortestIsRead, HeadsAreShort, TextsTakeTheirBytes};

/// No spelling is a proper front of another, and no bytes spell two values.
pub fn spellings_end()
    ensures { SpellingsEnd }
{}

/// No bytes have two first faults.
pub fn fault_is_unique(_bytes: &[u8])
    ensures { HasOneFault _bytes.now }
{}

/// Bytes that spell a map have no fault.
pub fn map_has_no_fault(_bytes: &[u8])
    ensures { HasNoFaultWhereMap _bytes.now }
{}

/// Before the first fault nothing is wrong: the data up to there is a map, or lacks only what is due at its end.
pub fn front_is_sound(_bytes: &[u8])
    ensures { HasSoundFront _bytes.now }
{}

/// A fault other than `Short` stays, whatever follows the data.
pub fn fault_lasts(_bytes: &[u8], _rest: &[u8])
    ensures { HasLastingFault _bytes.now _rest.now }
{}

/// The shortest form of a value, with all that it holds, is a spelling of it.
pub fn shortest_spells()
    ensures { ShortestSpells }
{}

/// A head that the writer puts is the one of least width.
pub fn head_is_least(_head: &[u8])
    ensures { IsLeastHead _head.now }
{}

/// What is written in its shortest form as one map is read as that map.
pub fn shortest_is_read()
    ensures { ShortestIsRead }
{}

/// A head that the writer puts has at most nine bytes.
pub fn heads_are_short()
    ensures { HeadsAreShort }
{}

/// A map in which a key has a text is no shorter than the shortest map of that key and that text.
pub fn texts_take_their_bytes(_bytes: &[u8])
    ensures { TextsTakeTheirBytes _bytes.now }
{}
