//! Worked examples: the transcripts of short lists of events. They were worked out by hand.
ghost use Rattle.std.specs.Prelude.{◌≡◌, ◌∷◌, [], None, codes};
ghost use Rattle.smp_flash.specs.declared.arm.ArmKind.TheVariants.{Cut, Fail, Read};
ghost use Rattle.smp_flash.specs.declared.arm.Left.TheVariants.{Nothing};
ghost use Rattle.smp_flash.specs.declared.region.Region.TheVariants.{Any, Settings};
ghost use Rattle.smp_jobs.specs.Jobs.{echoes, gets, puts, sets};
ghost use Rattle.smp_world.specs.Examples.{Replays, comes, printed, printed_of_two, some_sizes, text_of};
ghost use Rattle.smp_world.specs.Runs.{IsTranscript, arms, begins, boot, down, new, number, quiet, up};

use smp_model::steps_need_the_flash;

/// Raw bytes: an echo in either version; a map of no stated length; a group that is not there; a key that comes twice; version bits
/// that are not known; no packets and no requests; the parameters of the device; and what was counted.
pub fn raw_packets_for_example()
    ensures echo { printed (
        comes (codes "0200000600000100a16164626869") ∷ [])
        ≡ text_of (
        codes "raw 0300000600000100a16172626869" ∷ codes "end sent 0 answered 0 done 0" ∷ []) }
    ensures newer { printed (
        comes (codes "0a00000700000200bf6164626869ff") ∷ [])
        ≡ text_of (
        codes "raw 0b00000600000200a16172626869" ∷ codes "end sent 0 answered 0 done 0" ∷ []) }
    ensures unknown { printed (
        comes (codes "0000000100630300a0") ∷ [])
        ≡ text_of (
        codes "raw 0100000500630300a162726308" ∷ codes "end sent 0 answered 0 done 0" ∷ []) }
    ensures twice { printed (
        comes (codes "0a00000b00010501a2636f666600636f666600") ∷ [])
        ≡ text_of (
        codes "raw 0b00000500010501a162726303" ∷ codes "end sent 0 answered 0 done 0" ∷ []) }
    ensures too_new { printed (
        comes (codes "1a00000100000400a0") ∷ [])
        ≡ text_of (
        codes "raw 0b00000500000400a16272630d" ∷ codes "end sent 0 answered 0 done 0" ∷ []) }
    ensures dropped { printed (
        comes (codes "02000006000001") ∷ comes (codes "0200000700000100a16164626869") ∷
        comes (codes "0100000600000100a16164626869") ∷ [])
        ≡ text_of (
        codes "raw dropped" ∷ codes "raw dropped" ∷ codes "raw dropped" ∷
        codes "end sent 0 answered 0 done 0" ∷ []) }
    ensures parameters { printed (
        comes (codes "0000000100000606a0") ∷ [])
        ≡ text_of (
        codes "raw 0100001800000606a2686275665f73697a65190800696275665f636f756e7401" ∷
        codes "end sent 0 answered 0 done 0" ∷ []) }
    ensures counted { printed (
        comes (codes "02000006000001") ∷ comes (codes "0200000600000100a16164626869") ∷
        comes (codes "0800000a00020300a1646e616d6563736d70") ∷ [])
        ≡ text_of (
        codes "raw dropped" ∷ codes "raw 0300000600000100a16172626869" ∷
        codes "raw 0900002c00020300a2646e616d6563736d70666669656c6473a36768616e646c6564016764726f7070656401666572726f727300" ∷
        codes "end sent 0 answered 0 done 0" ∷ []) }
{}

/// A setting is written and lost at a boot; it is written, saved, and there after a boot.
pub fn settings_for_example()
    ensures lost { printed (
        comes (codes "0a00000e00030800a2646e616d6561616376616c4101") ∷ boot ∷
        comes (codes "0800000800030a00a1646e616d656161") ∷ [])
        ≡ text_of (
        codes "raw 0b00000100030800a0" ∷
        codes "boot upload none pending none confirmed no saved 0100" ∷
        codes "raw 0900001100030a00a163657272a26567726f75700362726303" ∷
        codes "end sent 0 answered 0 done 0" ∷ []) }
    ensures saved { printed (
        comes (codes "0a00000e00030800a2646e616d6561616376616c4101") ∷
        comes (codes "0a00000100030903a0") ∷ boot ∷
        comes (codes "0800000800030a00a1646e616d656161") ∷ [])
        ≡ text_of (
        codes "raw 0b00000100030800a0" ∷ codes "raw 0b00000100030903a0" ∷
        codes "boot upload none pending none confirmed no saved 010101610101" ∷
        codes "raw 0900000700030a00a16376616c4101" ∷ codes "end sent 0 answered 0 done 0" ∷ []) }
{}

/// An upload of 40 bytes without a digest: its start, a part at the wanted offset, one at another, a boot, and an erase.
pub fn uploads_for_example()
    ensures whole { printed (
        comes (codes "0a00003300010001a3636c656e1828636f666600646461746158203db8f39600000000000000000000000000000000000000000000000000000000") ∷
        comes (codes "0a00001500010101a2636f666618206464617461480000000000000000") ∷
        comes (codes "0a00000d00010201a2636f66660864646174614100") ∷ boot ∷
        comes (codes "0a00000700010305a164736c6f7401") ∷ boot ∷ [])
        ≡ text_of (
        codes "raw 0b00000700010001a1636f66661820" ∷ codes "raw 0b00000700010101a1636f66661828" ∷
        codes "raw 0b00000700010201a1636f66661828" ∷
        codes "boot upload 40/40/- pending none confirmed no saved 0100" ∷
        codes "raw 0b00000100010305a0" ∷
        codes "boot upload none pending none confirmed no saved 0100" ∷
        codes "end sent 0 answered 0 done 0" ∷ []) }
{}

/// A boot of a device of one image, and of two.
pub fn boots_for_example()
    ensures one { printed (boot ∷ [])
        ≡ text_of (codes "boot upload none pending none confirmed no saved 0100" ∷
        codes "end sent 0 answered 0 done 0" ∷ []) }
    ensures two { printed_of_two (boot ∷ [])
        ≡ text_of (
        codes "boot upload none pending none confirmed no upload none pending none confirmed no saved 0100" ∷
        codes "end sent 0 answered 0 done 0" ∷ []) }
{}

/// What is armed strikes: a save is cut before it took effect, and it fails so; a boot fails, and the next one does not. These are
/// some of the runs of these events: a save that is cut may have taken effect.
pub fn struck_runs_for_example()
    ensures cut { IsTranscript some_sizes [] None (
        arms (record { kind = Cut; region = Any; after = 1; left = Nothing }) ∷
        comes (codes "0a00000e00030800a2646e616d6561616376616c4101") ∷
        comes (codes "0a00000100030903a0") ∷ comes (codes "0200000600000100a16164626869") ∷
        boot ∷ [])
        (text_of (codes "arm" ∷ codes "raw 0b00000100030800a0" ∷ codes "raw cut" ∷
        codes "raw down" ∷ codes "boot upload none pending none confirmed no saved 0100" ∷
        codes "end sent 0 answered 0 done 0" ∷ [])) }
    ensures failed { IsTranscript some_sizes [] None (
        arms (record { kind = Fail; region = Settings; after = 1; left = Nothing }) ∷
        comes (codes "0a00000e00030800a2646e616d6561616376616c4101") ∷
        comes (codes "0a00000100030903a0") ∷ boot ∷ [])
        (text_of (codes "arm" ∷ codes "raw 0b00000100030800a0" ∷
        codes "raw 0b00001100030903a163657272a26567726f7570036272630c" ∷
        codes "boot upload none pending none confirmed no saved 0100" ∷
        codes "end sent 0 answered 0 done 0" ∷ [])) }
    ensures boot_fault { IsTranscript some_sizes [] None (
        arms (record { kind = Read; region = Any; after = 1; left = Nothing }) ∷ boot ∷ boot ∷ [])
        (text_of (codes "arm" ∷ codes "boot fault" ∷
        codes "boot upload none pending none confirmed no saved 0100" ∷
        codes "end sent 0 answered 0 done 0" ∷ [])) }
{
    steps_need_the_flash();
}

/// Clients: an echo, whose reply comes twice; one that hears nothing and sends nine times; one that writes a setting; a file that is
/// put, and got by another client.
pub fn clients_for_example()
    ensures echo { printed (
        begins (echoes (codes "hi")) ∷ up new ∷ down new ∷ down new ∷ [])
        ≡ text_of (
        codes "client 1 send 1" ∷ codes "up 1 reply 1 0b00000600000000a16172626869" ∷
        codes "down 1 done" ∷ codes "down 1 over" ∷ codes "end sent 1 answered 1 done 1" ∷ []) }
    ensures silence { printed (
        begins (echoes (codes "hi")) ∷ quiet 1 ∷ quiet 1 ∷ quiet 1 ∷ quiet 1 ∷ quiet 1 ∷
        quiet 1 ∷ quiet 1 ∷ quiet 1 ∷ quiet 1 ∷ quiet 1 ∷ up (number 10) ∷ down new ∷ [])
        ≡ text_of (
        codes "client 1 send 1" ∷ codes "quiet 1 send 2" ∷ codes "quiet 1 send 3" ∷
        codes "quiet 1 send 4" ∷ codes "quiet 1 send 5" ∷ codes "quiet 1 send 6" ∷
        codes "quiet 1 send 7" ∷ codes "quiet 1 send 8" ∷ codes "quiet 1 send 9" ∷
        codes "quiet 1 failed no-answer" ∷ codes "quiet 1 over" ∷ codes "up 10 none" ∷
        codes "down 0 none" ∷ codes "end sent 9 answered 0 done 0" ∷ []) }
    ensures setting { printed (
        begins (sets (record { name = codes "a"; val = 1 ∷ [] } ∷ [])) ∷ up new ∷ down new ∷
        up new ∷ down new ∷ [])
        ≡ text_of (
        codes "client 1 send 1" ∷ codes "up 1 reply 1 0b00000100030000a0" ∷
        codes "down 1 send 2" ∷ codes "up 2 reply 2 0b00000100030103a0" ∷ codes "down 2 done" ∷
        codes "end sent 2 answered 2 done 1" ∷ []) }
    ensures file { printed (
        begins (puts (codes "a") (codes "abc")) ∷ up new ∷ down new ∷ begins (gets (codes "a")) ∷
        up new ∷ down new ∷ [])
        ≡ text_of (
        codes "client 1 send 1" ∷ codes "up 1 reply 1 0b00000600080000a1636f666603" ∷
        codes "down 1 done" ∷ codes "client 2 send 2" ∷
        codes "up 2 reply 2 0900001400080000a3636f666600646461746143616263636c656e03" ∷
        codes "down 2 done" ∷ codes "end sent 2 answered 2 done 2" ∷ []) }
{}

/// A whole replay, from a schedule's text to its transcript: a client's save is cut before it took effect, and is sent again after the
/// boot, when what ran is lost.
pub fn a_replay_for_example()
    ensures { Replays (text_of (codes "client 1 set a 01" ∷ codes "up new" ∷
        codes "arm cut settings-gate 1 none" ∷ codes "down new" ∷ codes "up new" ∷ codes "boot" ∷
        codes "quiet 1" ∷ codes "up new" ∷ codes "down new" ∷ []))
        (text_of (codes "client 1 send 1" ∷ codes "up 1 reply 1 0b00000100030000a0" ∷
        codes "arm" ∷ codes "down 1 send 2" ∷ codes "up 2 cut" ∷
        codes "boot upload none pending none confirmed no saved 0100" ∷ codes "quiet 1 send 3" ∷
        codes "up 3 reply 2 0b00000100030103a0" ∷ codes "down 2 done" ∷
        codes "end sent 3 answered 2 done 1" ∷ [])) }
{
    steps_need_the_flash();
}
