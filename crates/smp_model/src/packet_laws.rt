//! Laws of packets and of the maps in them: functions with empty bodies, whose clauses hold of every value. A caller that calls
//! one knows its law from there on.

ghost use Rattle.smp_model.specs.Keys.{KeysAreTexts, PlainMapsAreWritten};
ghost use Rattle.smp_model.specs.Packets.{PacketsAreReadBack};

/// The bytes of a packet are that packet.
pub fn packets_are_read_back()
    ensures { PacketsAreReadBack }
{}

/// A key that is a short ASCII text can be written.
pub fn keys_are_texts()
    ensures { KeysAreTexts }
{}

/// A map of at most nine pairs, whose keys are short ASCII texts that differ, can be written where its values can.
pub fn plain_maps_are_written()
    ensures { PlainMapsAreWritten }
{}
