// Laws of the abstract device, each as the contract of a function that does nothing: what holds of every step of every
// request, from whatever state.
ghost use Rattle.std.specs.Prelude.{◌≡◌, ◌↔◌, ◌⊎◌, ◌+◌, ◌≤◌, ◌<◌, [], ◌∷◌, ◌++◌, ℕ, List, Bool, true, false, Option, Some, None, Ok, IfSome, IsSome, IsTrue, length, option_map, if◌then◌else◌};
ghost use Rattle.smp_header.specs.Message.{Message};
ghost use Rattle.smp_model.specs.declared.device.AbstractDevice.{AbstractDevice as Device};
ghost use Rattle.smp_model.specs.declared.device.Side.{Side as OneSide};
ghost use Rattle.smp_model.specs.declared.device.Sizes.{Sizes as FlashSizes};
ghost use Rattle.smp_model.specs.declared.device.Upload.{Upload as Uploaded};
ghost use Rattle.smp_model.specs.declared.setting.Setting.{Setting as Stored};
ghost use Rattle.smp_model.specs.declared.upload.Announcement.{Announcement as Announced};
ghost use Rattle.smp_model.specs.declared.upload.Mark.{Mark as Marked};
ghost use Rattle.smp_model.specs.Acknowledged.{acknowledged, chosen_since, CoversOn};
ghost use Rattle.smp_model.specs.Consistent.{HasTexts, IsConsistent};
ghost use Rattle.smp_model.specs.Counters.{no_counters, os_reply};
ghost use Rattle.smp_model.specs.Does.{does};
ghost use Rattle.smp_model.specs.Due.{IsStart, IsStepDue, image_for};
ghost use Rattle.smp_model.specs.Faults.{IsHandledWithFault};
ghost use Rattle.smp_model.specs.FlashUse.{uses_images, uses_saved};
ghost use Rattle.smp_model.specs.Handled.{Handled, handled};
ghost use Rattle.smp_model.specs.ImageGroup.{confirms_on, holds, is_offset, marks_on, pair_of, refuses_image, runs, sets_hash, side_of, uploads_to};
ghost use Rattle.smp_model.specs.Laws.{EachSide, EachStep, GoesToUpload, GoodUpload, IsAboutImages, IsApart, IsDropDue, IsDue, IsNoSave, IsOfFirst, IsOffSides, IsOn, IsSetOn, IsSound, MatchHolds, MatchTold, OnImage, PendingIsGood, Reaches, ReplyHeld, SameBesideImages, SameImages, SameUpload, SettlesAtMost, StartsWith, is_foreign};
ghost use Rattle.smp_model.specs.Meaning.{meaning};
ghost use Rattle.smp_model.specs.Meant.{Meant, erase, image_list, image_set, save, upload};
ghost use Rattle.smp_model.specs.Response.{reply_alone};
ghost use Rattle.smp_model.specs.Said.{Said, images, is_error};
ghost use Rattle.smp_model.specs.Settings.{IsStoredForm, is_within_limits, settings_in, stored_form};
ghost use Rattle.smp_model.specs.Sides.{Append, Choose, Drop, MarkPending, SidePart, SideStep, side_applied, side_settle};
ghost use Rattle.smp_model.specs.Steps.{OnSide, Part, Step, applied, on_side, with_side, settle, settle_of, settle_steps, settle_steps_of, side_at, start};
ghost use Rattle.smp_model.specs.Uploads.{is_resumed_by, is_spoiled, is_tagged_by, uploaded_image};

use crate::error::{HASH_NOT_FOUND, INVALID_SLOT};

/// Each step of a request stands where it is due: on a side that is there, on the side that the request is for, and with the
/// cause that `Due.antt` names for it.
pub fn steps_are_due()
    ensures { (sizes : FlashSizes) (d : Device) (m : Meant) (front : List Step) (step : Step)
        (rest : List Step)
        → (does sizes d m).steps ≡ front ++ step ∷ rest
        → IsStepDue sizes d.target m (applied front d) step }
{}

/// The steps of a side change the device by that side alone, and what the side may be found as, the device may.
pub fn steps_of_a_side_lift()
    ensures found { (image : ℕ) (steps : List SideStep) (d : Device) (s : OneSide)
        → side_at image d ≡ Some s
        → side_at image (applied (on_side image steps) d) ≡ Some (side_applied steps s) }
    ensures others { (image other : ℕ) (steps : List SideStep) (d : Device) → (image ≡ other → ⊥)
        → side_at other (applied (on_side image steps) d) ≡ side_at other d }
    ensures device { (image : ℕ) (steps : List SideStep) (d : Device) (s : OneSide)
        → side_at image d ≡ Some s
        → applied (on_side image steps) d ≡ with_side image (λ _. side_applied steps s) d }
    ensures part { (image : ℕ) (steps : List SideStep) (d : Device) (s t : OneSide)
        → side_at image d ≡ Some s → SidePart s steps t
        → Part d (on_side image steps) (with_side image (λ _. t) d) }
{}

/// What a device may be found as where steps are broken off, it may be found as where further steps stand behind or before
/// them.
pub fn parts_join()
    ensures front { (a b : List Step) (d e : Device) → Part d a e → Part d (a ++ b) e }
    ensures behind { (a b : List Step) (d e : Device) → Part (applied a d) b e → Part d (a ++ b) e }
    ensures whole { (a : List Step) (d : Device) → Part d a (applied a d) }
{}

/// A mark is set on a side only where nothing is pending there, its upload is good, and its image is the one that is asked for.
pub fn marks_are_due()
    ensures { (sizes : FlashSizes) (d : Device) (m : Meant) (image : ℕ) (mark : Marked)
        (front rest : List Step)
        → (does sizes d m).steps ≡ front ++ OnSide image (MarkPending mark) ∷ rest
        → OnImage image (IsDue m mark) d }
{}

/// A hash means the first slot that has it, in the order 0, 2, 1, 3.
pub fn the_first_slot_is_meant()
    ensures { (sizes : FlashSizes) (d : Device) (hash : List ℕ) (confirm : Bool) (front : List Step)
        (step : Step) (rest : List Step)
        → 0 < length hash
        → (does sizes d (image_set (Some hash) confirm)).steps ≡ front ++ step ∷ rest
        → IsOfFirst (settle d) hash step }
{}

/// Where a mark or a confirmation is asked for and the answer is no error, it is so afterwards: the image of the hash runs and
/// is confirmed, or the slot that holds it is pending by that mark. Without a hash image 0 is confirmed.
pub fn what_is_asked_for_is_done()
    ensures asked { (sizes : FlashSizes) (d : Device) (hash : List ℕ) (confirm : Bool)
        → 0 < length hash
        → is_error (does sizes d (image_set (Some hash) confirm)).reply ≡ false
        → IsSetOn hash confirm (applied (does sizes d (image_set (Some hash) confirm)).steps d) }
    ensures confirmed { (sizes : FlashSizes) (d : Device)
        → (applied (does sizes d (image_set None true)).steps d).first.confirmed ≡ true }
{}

/// An upload is given up only at an erase, while nothing is pending, or where it is spoiled: as it was before the request,
/// where settling takes it, or by bytes of this request that made it complete.
pub fn drops_are_due()
    ensures { (sizes : FlashSizes) (d : Device) (m : Meant) (image : ℕ) (front rest : List Step)
        → (does sizes d m).steps ≡ front ++ OnSide image Drop ∷ rest
        → IsDropDue m image d front }
{}

/// A request for an upload or an erase of one image has no step on the other.
pub fn requests_keep_to_their_image()
    ensures { (sizes : FlashSizes) (d : Device) (m : Meant) (image : ℕ)
        → image_for d.target m ≡ Some image → EachStep (IsOn image) (does sizes d m).steps }
{}

/// An upload is good exactly where it has an image that a mark may ask for.
pub fn good_uploads_have_images()
    ensures { (u : Option Uploaded) → GoodUpload u ↔ IsSome (uploaded_image u) }
{}

/// While a good slot of an image is pending, no request has a step on its upload or mark, and both stay.
pub fn a_pending_slot_stays()
    ensures apart { (sizes : FlashSizes) (d : Device) (m : Meant) (image : ℕ) (s : OneSide)
        (mark : Marked)
        → side_at image d ≡ Some s → PendingIsGood s → s.pending ≡ Some mark
        → EachStep (IsApart image) (does sizes d m).steps }
    ensures same { (sizes : FlashSizes) (d e : Device) (m : Meant) (image : ℕ) (s : OneSide)
        (mark : Marked)
        → side_at image d ≡ Some s → PendingIsGood s → s.pending ≡ Some mark
        → Part d (does sizes d m).steps e → OnImage image (SameUpload s) e }
    ensures started { (d : Device) (image : ℕ) (s : OneSide) (mark : Marked)
        → side_at image d ≡ Some s → PendingIsGood s → s.pending ≡ Some mark
        → OnImage image (SameUpload s) (start d) }
    ensures settled { (d : Device) (image : ℕ) (s : OneSide) (mark : Marked)
        → side_at image d ≡ Some s → PendingIsGood s → s.pending ≡ Some mark
        → settle_steps_of image d ≡ [] }
{}

/// What is pending is good on each side, wherever a request is broken off, and after settling and a start.
pub fn a_pending_slot_is_good()
    ensures requests { (sizes : FlashSizes) (d e : Device) (m : Meant) → EachSide PendingIsGood d
        → Part d (does sizes d m).steps e → EachSide PendingIsGood e }
    ensures settled { (d e : Device) → EachSide PendingIsGood d → Part d (settle_steps d) e
        → EachSide PendingIsGood e }
    ensures settled_one { (image : ℕ) (d e : Device) → EachSide PendingIsGood d
        → Part d (settle_steps_of image d) e → EachSide PendingIsGood e }
    ensures started { (d : Device) → EachSide PendingIsGood d → EachSide PendingIsGood (start d) }
{}

/// Settling a device is settling each of its sides, which gives up an upload that is spoiled and keeps all else. A settled
/// device has nothing to settle, and neither has a settled side.
pub fn settling_is_done_once()
    ensures whole { (d : Device)
        → settle d
        ≡ record d { first = side_settle d.first; second = option_map side_settle d.second } }
    ensures drops { (s : OneSide)
        → (side_settle s).upload ≡ (if is_spoiled s.upload then None else s.upload) }
    ensures keeps { (s : OneSide) → side_settle s ≡ record s { upload = (side_settle s).upload } }
    ensures steps { (d : Device) → settle_steps (settle d) ≡ [] }
    ensures device { (d : Device) → settle (settle d) ≡ settle d }
    ensures one { (image : ℕ) (d : Device) → settle_steps_of image (settle_of image d) ≡ [] }
    ensures sides { (image : ℕ) (d : Device)
        → side_at image (settle d) ≡ option_map side_settle (side_at image d) }
    ensures side { (image : ℕ) (d : Device)
        → side_at image (settle_of image d) ≡ option_map side_settle (side_at image d) }
{}

/// A request that is done whole leaves a settled device settled. An upload that is answered with an offset settles its side, so
/// where its upload is complete then, it has the digest that was announced.
pub fn settled_devices_stay_settled()
    ensures answered { (sizes : FlashSizes) (d : Device) (image len : Option ℕ) (off : ℕ)
        (sha : Option (List ℕ)) (part : List ℕ)
        → IsTrue (is_offset (does sizes d (upload image len off sha part)).reply)
        → IfSome
        (side_at (side_of d.target image off sha)
        (applied (does sizes d (upload image len off sha part)).steps d))
        IsSound }
    ensures side { (sizes : FlashSizes) (d : Device) (m : Meant) (image : ℕ)
        → IfSome (side_at image d) IsSound
        → IfSome (side_at image (applied (does sizes d m).steps d)) IsSound }
    ensures sides { (sizes : FlashSizes) (d : Device) (m : Meant) → EachSide IsSound d
        → EachSide IsSound (applied (does sizes d m).steps d) }
    ensures settled { (d : Device) → EachSide IsSound (settle d) }
    ensures nothing { (d : Device) → EachSide IsSound d → settle_steps d ≡ [] }
{}

/// An offset that is answered about an upload is held by it afterwards. Where no upload is there then, the offset is 0,
/// or the upload was given up since its bytes do not have the announced digest. And `match` is true: the upload is complete
/// and has the announced digest, or it was given up.
pub fn answered_offsets_are_held()
    ensures { (sizes : FlashSizes) (d : Device) (image len : Option ℕ) (off : ℕ)
        (sha : Option (List ℕ)) (part : List ℕ)
        → IfSome
        (side_at (side_of d.target image off sha)
        (applied (does sizes d (upload image len off sha part)).steps d))
        (λ s. ReplyHeld (does sizes d (upload image len off sha part)).reply s.upload
        × MatchHolds (does sizes d (upload image len off sha part)).reply s.upload) }
{}

/// Where the bytes of a request complete an upload that announced a digest, the reply has `match`.
pub fn complete_uploads_are_told()
    ensures { (sizes : FlashSizes) (d : Device) (image len : Option ℕ) (off : ℕ)
        (sha : Option (List ℕ)) (part : List ℕ) (front : List Step) (on : ℕ) (bytes : List ℕ)
        (rest : List Step)
        → (does sizes d (upload image len off sha part)).steps
        ≡ front ++ OnSide on (Append bytes) ∷ rest
        → IfSome
        (side_at (side_of d.target image off sha)
        (applied (does sizes d (upload image len off sha part)).steps d))
        (λ s. MatchTold (does sizes d (upload image len off sha part)).reply s.upload) }
{}

/// What was acknowledged of the upload of an image stays held: after each request, and wherever one is broken off.
pub fn acknowledged_bytes_are_held()
    ensures requests { (sizes : FlashSizes) (d : Device) (m : Meant) (image n : ℕ)
        → CoversOn image d n
        → CoversOn image (applied (does sizes d m).steps d)
        (acknowledged image d.target m (does sizes d m).steps (does sizes d m).reply n) }
    ensures started { (image : ℕ) (d : Device) (n : ℕ) → CoversOn image d n
        → CoversOn image (start d) n }
    ensures fronts { (image : ℕ) (d : Device) (front : List Step) (n : ℕ) → CoversOn image d n
        → CoversOn image (applied front d) (chosen_since image front n) }
{}

/// A part at the offset that is wanted, and that fits, is kept but for at most seven bytes, where it has no tag or the announced
/// digest as its tag.
pub fn the_next_part_is_kept()
    ensures { (sizes : FlashSizes) (d : Device) (s : OneSide) (u : Uploaded) (image len : Option ℕ)
        (sha : Option (List ℕ)) (part : List ℕ)
        → 0 < sizes.unit → sizes.unit ≤ 8
        → side_at (side_of d.target image (length u.accepted) sha) d ≡ Some s
        → (side_settle s).upload ≡ Some u → 0 < length u.accepted
        → IfSome sha (λ tag. length tag ≡ 32) → IsTrue (is_tagged_by sha u.announcement.digest)
        → length u.accepted + length part ≤ u.announcement.length
        → Reaches u.announcement.length (length u.accepted + length part)
        (does sizes d (upload image len (length u.accepted) sha part)).reply }
{}

/// A start is refused, or what it brings is kept but for at most seven bytes, or it goes on with the upload that it announces:
/// one of the same length and the same digest.
pub fn the_first_part_is_kept()
    ensures kept { (sizes : FlashSizes) (d : Device) (image : Option ℕ) (n : ℕ)
        (sha : Option (List ℕ)) (part : List ℕ)
        → 0 < sizes.unit → sizes.unit ≤ 8
        → IfSome (side_at (side_of d.target image 0 sha) d)
        (λ s. StartsWith (record { length = n; digest = sha }) (length part)
        (side_settle s).upload (does sizes d (upload image (Some n) 0 sha part)).reply) }
    ensures resumed { (one other : Announced) → IsTrue (is_resumed_by one other)
        → (one ≡ other) × IsSome other.digest }
{}

/// A part whose tag is not the digest of the upload that its side has stores nothing: it has no steps but those by which that
/// side settles.
pub fn a_foreign_part_stores_nothing()
    ensures { (sizes : FlashSizes) (d : Device) (image len : Option ℕ) (off : ℕ) (tag part : List ℕ)
        → 0 < off
        → IfSome (side_at (side_of d.target image off (Some tag)) d)
        (λ s. IsTrue (is_foreign tag s.upload))
        → ((does sizes d (upload image len off (Some tag) part)).steps ≡ [])
        ⊎
        ((does sizes d (upload image len off (Some tag) part)).steps
        ≡ settle_steps_of (side_of d.target image off (Some tag)) d) }
{}

/// A start that names no image is for image 0, and so is a part with a tag. A part with neither is for the target.
pub fn unnamed_images_are_found()
    ensures start { (sizes : FlashSizes) (d : Device) (len : Option ℕ) (sha : Option (List ℕ))
        (part : List ℕ)
        → does sizes d (upload None len 0 sha part) ≡ does sizes d (upload (Some 0) len 0 sha part) }
    ensures tagged { (sizes : FlashSizes) (d : Device) (len : Option ℕ) (off : ℕ)
        (tag part : List ℕ)
        → does sizes d (upload None len off (Some tag) part)
        ≡ does sizes d (upload (Some 0) len off (Some tag) part) }
    ensures bare { (sizes : FlashSizes) (d : Device) (len : Option ℕ) (off : ℕ) (part : List ℕ)
        → 0 < off
        → does sizes d (upload None len off None part)
        ≡ does sizes d (upload (Some d.target) len off None part) }
{}

/// The target of parts is the image of the last start that was answered with an offset. It moves before such a start chooses
/// an upload or appends to one, so it does wherever that was done. A refusal does not move it, and no other request does.
pub fn the_target_moves_at_starts()
    ensures moved { (sizes : FlashSizes) (d : Device) (image len : Option ℕ) (sha : Option (List ℕ))
        (part : List ℕ)
        → IsTrue (is_offset (does sizes d (upload image len 0 sha part)).reply)
        → (applied (does sizes d (upload image len 0 sha part)).steps d).target
        ≡ side_of d.target image 0 sha }
    ensures early { (sizes : FlashSizes) (d : Device) (image len : Option ℕ) (sha : Option (List ℕ))
        (part : List ℕ) (front : List Step) (step : Step) (rest : List Step)
        → IsTrue (is_offset (does sizes d (upload image len 0 sha part)).reply)
        → (does sizes d (upload image len 0 sha part)).steps ≡ front ++ step ∷ rest
        → GoesToUpload step
        → (applied front d).target ≡ side_of d.target image 0 sha }
    ensures refused { (sizes : FlashSizes) (d e : Device) (m : Meant)
        → IsTrue (is_error (does sizes d m).reply) → Part d (does sizes d m).steps e
        → e.target ≡ d.target }
    ensures others { (sizes : FlashSizes) (d e : Device) (m : Meant) → (IsStart m → ⊥)
        → Part d (does sizes d m).steps e → e.target ≡ d.target }
{}

/// A refusal has no steps but those of settling one side or all.
pub fn refusals_change_nothing()
    ensures { (sizes : FlashSizes) (d : Device) (m : Meant)
        → IsTrue (is_error (does sizes d m).reply) → SettlesAtMost d (does sizes d m).steps }
{}

/// Only a save changes what is saved: to what runs. One that is done whole has done so.
pub fn only_a_save_saves()
    ensures only { (sizes : FlashSizes) (d e : Device) (m : Meant) → Part d (does sizes d m).steps e
        → (e.saved ≡ d.saved) ⊎ ((m ≡ save) × (e.saved ≡ d.running)) }
    ensures whole { (sizes : FlashSizes) (d : Device)
        → (applied (does sizes d save).steps d).saved ≡ d.running }
{}

/// A start keeps what is saved and makes it run, settles each side, and forgets files, counters and the target of parts.
pub fn a_start_forgets()
    ensures saved { (d : Device) → (start d).saved ≡ d.saved }
    ensures running { (d : Device) → (start d).running ≡ d.saved }
    ensures files { (d : Device) → (start d).files ≡ [] }
    ensures counters { (d : Device) → (start d).counters ≡ no_counters }
    ensures target { (d : Device) → (start d).target ≡ 0 }
    ensures sides { (image : ℕ) (d : Device)
        → side_at image (start d) ≡ option_map side_settle (side_at image d) }
{}

/// A device of one image has steps on that image alone, and answers about it as if there were no images to choose from.
pub fn one_image_is_image_0()
    ensures steps { (sizes : FlashSizes) (d : Device) (m : Meant) → d.second ≡ None
        → EachStep (IsOn 0) (does sizes d m).steps }
    ensures settled { (d : Device) → d.second ≡ None → settle_steps d ≡ settle_steps_of 0 d }
    ensures listed { (sizes : FlashSizes) (d : Device) → d.second ≡ None
        → (does sizes d image_list).reply ≡ images (pair_of (side_settle d.first)) None }
    ensures uploads { (sizes : FlashSizes) (d : Device) (image len : Option ℕ) (off : ℕ)
        (sha : Option (List ℕ)) (part : List ℕ)
        → d.target ≡ 0 → (image ≡ None) ⊎ (image ≡ Some 0)
        → does sizes d (upload image len off sha part)
        ≡ uploads_to sizes 0 (Some d.first) len off sha part }
    ensures others { (sizes : FlashSizes) (d : Device) (image : ℕ) (len : Option ℕ) (off : ℕ)
        (sha : Option (List ℕ)) (part : List ℕ)
        → d.second ≡ None → 0 < image
        → does sizes d (upload (Some image) len off sha part) ≡ refuses_image INVALID_SLOT }
    ensures marked { (d : Device) (hash : List ℕ) (confirm : Bool) → d.second ≡ None
        → sets_hash hash confirm d
        ≡
        (if runs hash (Some d.first) then confirms_on 0 confirm (Some d.first) d else if
        holds hash (Some d.first) then marks_on 0 confirm (Some d.first) d else
        refuses_image HASH_NOT_FOUND) }
    ensures erased { (sizes : FlashSizes) (d : Device) → d.second ≡ None
        → does sizes d (erase 3) ≡ refuses_image INVALID_SLOT }
{}

/// The groups OS and statistics are answered by the counters alone.
pub fn counters_are_answered()
    ensures { (sizes : FlashSizes) (d : Device) (m : Meant) (reply : Said)
        → os_reply d.counters m ≡ Some reply → does sizes d m ≡ reply_alone reply }
{}

/// The stored form of settings within the limits is read back as these settings, nothing else is read, and so different
/// settings have different forms.
pub fn stored_settings_are_read_back()
    ensures back { (settings : List Stored) → IsTrue (is_within_limits settings)
        → settings_in (stored_form settings) ≡ Some settings }
    ensures exact { (bytes : List ℕ) (settings : List Stored) → settings_in bytes ≡ Some settings
        → IsStoredForm bytes settings }
    ensures differ { (one other : List Stored) → IsTrue (is_within_limits one)
        → IsTrue (is_within_limits other) → stored_form one ≡ stored_form other → one ≡ other }
{}

/// Every text of a request that a packet means is UTF-8.
pub fn packets_have_texts()
    ensures { (packet : Message) (m : Meant) → meaning packet ≡ Ok m → HasTexts m }
{}

/// A consistent device stays consistent: its slots 0 begin with good images, its settings and files are within their limits
/// and in order, the uploads within their slots, what is pending good, and parts go to an image that is there. It does
/// whatever bytes come, wherever a request is broken off, also by a fault of the flash that is reported, and after settling
/// and a start.
pub fn devices_stay_consistent()
    ensures handled { (sizes : FlashSizes) (d : Device) (bytes : List ℕ)
        → IsConsistent sizes d → IsConsistent sizes (handled sizes d bytes).device }
    ensures broken { (sizes : FlashSizes) (d : Device) (bytes : List ℕ) (h : Handled)
        → IsConsistent sizes d → IsHandledWithFault sizes d bytes h
        → IsConsistent sizes h.device }
    ensures requests { (sizes : FlashSizes) (d e : Device) (m : Meant)
        → IsConsistent sizes d → HasTexts m → Part d (does sizes d m).steps e
        → IsConsistent sizes e }
    ensures settled { (sizes : FlashSizes) (d e : Device)
        → IsConsistent sizes d → Part d (settle_steps d) e → IsConsistent sizes e }
    ensures settled_one { (sizes : FlashSizes) (image : ℕ) (d e : Device)
        → IsConsistent sizes d → Part d (settle_steps_of image d) e → IsConsistent sizes e }
    ensures started { (sizes : FlashSizes) (d : Device)
        → IsConsistent sizes d → IsConsistent sizes (start d) }
{}

/// A request about images leaves settings and files, another leaves the images, and none counts: its reply is counted beside
/// its steps.
pub fn requests_keep_to_their_part()
    ensures images { (sizes : FlashSizes) (d e : Device) (m : Meant)
        → IsAboutImages m → Part d (does sizes d m).steps e → SameBesideImages d e }
    ensures others { (sizes : FlashSizes) (d e : Device) (m : Meant)
        → (IsAboutImages m → ⊥) → Part d (does sizes d m).steps e → SameImages d e }
    ensures counters { (d e : Device) (steps : List Step)
        → Part d steps e → e.counters ≡ d.counters }
{}

/// A request that does not come to the slots has no step on a side, and one that does not come to the saved settings none that
/// saves.
pub fn steps_need_the_flash()
    ensures images { (sizes : FlashSizes) (d : Device) (m : Meant)
        → uses_images sizes d m ≡ false → EachStep IsOffSides (does sizes d m).steps }
    ensures saved { (sizes : FlashSizes) (d : Device) (m : Meant)
        → uses_saved m ≡ false → EachStep IsNoSave (does sizes d m).steps }
{}
