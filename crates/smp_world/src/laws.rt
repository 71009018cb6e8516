//! What is so of every run. The calls do nothing: each stands for a law.
ghost use Rattle.std.specs.Prelude.{◌≡◌, ◌≢◌, ◌≤◌, ◌<◌, ◌+◌, ◌∷◌, ◌++◌, ℕ, List, length, ◌^◌, All, Contains, Option, Some, None, IfSome, IsSome, flat_map, option_map, true, false};
ghost use Rattle.smp_flash.specs.declared.arm.Arm.{Arm};
ghost use Rattle.smp_flash.specs.declared.region.Region.{Region};
ghost use Rattle.smp_model.specs.declared.device.AbstractDevice.{AbstractDevice as Device};
ghost use Rattle.smp_model.specs.declared.device.Side.{Side as OneSide};
ghost use Rattle.smp_model.specs.declared.device.Sizes.{Sizes as FlashSizes};
ghost use Rattle.smp_model.specs.declared.setting.Setting.{Setting as Stored};
ghost use Rattle.smp_model.specs.declared.upload.Ending.{Ending as EndingOf};
ghost use Rattle.smp_model.specs.declared.upload.Ending.TheVariants.{Only};
ghost use Rattle.smp_model.specs.declared.upload.Mark.{Mark as Marked};
ghost use Rattle.smp_model.specs.Acknowledged.{CoversOn};
ghost use Rattle.smp_model.specs.Consistent.{IsConsistent};
ghost use Rattle.smp_model.specs.Does.{does};
ghost use Rattle.smp_model.specs.Handled.{handled};
ghost use Rattle.smp_model.specs.Laws.{EachSide, OnImage, PendingIsGood, SameUpload};
ghost use Rattle.smp_model.specs.Meant.{Meant, reset};
ghost use Rattle.smp_model.specs.Response.{after};
ghost use Rattle.smp_model.specs.Sides.{SideStep};
ghost use Rattle.smp_model.specs.Steps.{OnSide, applied, side_at, start};
ghost use Rattle.smp_jobs.specs.Clients.{Client};
ghost use Rattle.smp_jobs.specs.Jobs.{Job as ClientJob, UploadJob, done, sets, uploads};
ghost use Rattle.smp_edge.specs.Files.{Folder};
ghost use Rattle.smp_schedule.specs.Lawful.{IsJob, IsLawful};
ghost use Rattle.smp_schedule.specs.Schedules.{Schedule};
ghost use Rattle.smp_schedule.specs.declared.job.JobWords.TheVariants.{Set as SetWords, Upload as UploadWords};
ghost use Rattle.smp_world.specs.Below.{DeviceGoes, LawsBelow};
ghost use Rattle.smp_world.specs.Deliveries.{AreAccepted, AreOrderly, GoesWell, HasRoom, IsDoneSoon, NoUpload, delivered, enough_packets};
ghost use Rattle.smp_device.specs.Formatting.{formatted};
ghost use Rattle.smp_device.specs.Goings.{IsCounted, armed_by, durable};
ghost use Rattle.smp_world.specs.Laws.{CanFormat, EachLine, IsFrontOf, IsOfChanges, IsSave, KeepsNumbers, NamesMail, NoArms, NothingSaved, Passed, TellsTrouble, acknowledged_after, image_in};
ghost use Rattle.smp_world.specs.Lines.{lines_text};
ghost use Rattle.smp_world.specs.Runs.{Event, Happens, Moment, Run, State, arms, begins, boot, first_state, nth, raw, state_at_end, transcript};
ghost use Rattle.smp_schedule.specs.declared.event.Event.{Event as Spelled};
ghost use Rattle.smp_schedule.specs.declared.flash_line.FlashLine.{FlashLine as Line};
ghost use Rattle.smp_world.specs.Schedules.{AreEventsOf, AreJobsOf, Flash, IsFlash, IsJobOf};
ghost use Rattle.smp_world.specs.SetJobs.{AreTexts, HasAll, IsNoBoot, IsSetJob, NothingStruck, SparesNames};
ghost use Rattle.smp_world.specs.Unarmed.{unarmed_moment, unarmed_moments};
ghost use Rattle.smp_world.specs.UploadJobs.{AreDifferent, AreTagged, Begun, HasOwnHash, IsAmong, IsDoneBy, IsFront, IsMarked, IsNotRaw, IsTagged, IsUpload};

use smp_device::{arms_are_told, boots_go, packets_go};
use smp_model::{
    a_pending_slot_is_good, a_pending_slot_stays, acknowledged_bytes_are_held,
    answered_offsets_are_held, devices_stay_consistent, good_uploads_have_images, images_end,
    images_lie_within, only_a_save_saves, packets_have_texts, requests_keep_to_their_part,
    steps_are_due, steps_need_the_flash,
};
use smp_reply::{device_replies_are_sendable, replies_are_told};
use smp_request::requests_are_meant;

/// What the device says of packets and boots.
pub fn device_goes()
    ensures { DeviceGoes }
{
    arms_are_told();
    packets_go();
    boots_go();
}

/// What the crates below say.
fn laws_below()
    ensures { LawsBelow }
{
    requests_are_meant();
    replies_are_told();
    steps_are_due();
    good_uploads_have_images();
    requests_keep_to_their_part();
}

/// A run begins with a device that has started, with nothing pending and nothing acknowledged, as the laws below ask for.
pub fn runs_begin_with_nothing()
    ensures started { (sizes : FlashSizes) (image : List ℕ) (second : Option (List ℕ))
        → start (formatted sizes image second) ≡ formatted sizes image second }
    ensures pending { (sizes : FlashSizes) (image : List ℕ) (second : Option (List ℕ))
        → EachSide PendingIsGood (first_state sizes image second).device }
    ensures acknowledged { (sizes : FlashSizes) (image : List ℕ) (second : Option (List ℕ)) (n : ℕ)
        → CoversOn n (first_state sizes image second).device 0 }
{}

/// What comes of a request is the abstract device's. Where no trouble struck, so is the reply; where one did, some first steps
/// were taken, and the reply is an error of the flash or there is none. What is durable moves by the steps that were taken, at
/// every event. (A reset takes no steps of its own; those of its moment are the boot's.)
pub fn moments_are_the_devices()
    ensures reply { (sizes : FlashSizes) (s : State) (e : Event) (m : Moment) (r : Meant)
        → Happens sizes s e m → m.request ≡ Some r → m.struck ≡ false
        → m.reply ≡ Some (does sizes s.device r).reply }
    ensures taken { (sizes : FlashSizes) (s : State) (e : Event) (m : Moment) (r : Meant)
        → r ≢ reset → Happens sizes s e m → m.request ≡ Some r
        → IsFrontOf (does sizes s.device r).steps m.taken }
    ensures troubles { (sizes : FlashSizes) (s : State) (e : Event) (m : Moment) (r : Meant)
        → r ≢ reset → Happens sizes s e m → m.request ≡ Some r → m.struck ≡ true
        → TellsTrouble m.reply }
    ensures moves { (sizes : FlashSizes) (s : State) (e : Event) (m : Moment)
        → Happens sizes s e m
        → durable m.state.device ≡ durable (applied m.taken s.device) }
{}

/// Where nothing struck, a request is done whole: the device is then what the abstract device is after all steps, with the reply
/// counted. A reset starts it, and so does a boot.
pub fn unstruck_moments_are_whole()
    ensures taken { (sizes : FlashSizes) (s : State) (e : Event) (m : Moment) (r : Meant)
        → r ≢ reset → Happens sizes s e m → m.request ≡ Some r → m.struck ≡ false
        → (m.taken ≡ (does sizes s.device r).steps)
        × (m.state.device ≡ after (does sizes s.device r) s.device) }
    ensures restarted { (sizes : FlashSizes) (s : State) (e : Event) (m : Moment)
        → Happens sizes s e m → m.request ≡ Some reset → m.struck ≡ false
        → m.state.device ≡ start s.device }
    ensures booted { (sizes : FlashSizes) (s : State) (m : Moment)
        → Happens sizes s boot m → m.struck ≡ false → m.state.device ≡ start s.device }
{}

/// Packets, replies and clients keep their numbers, a client keeps its job, and one that has ended stays as it is.
pub fn numbers_are_kept()
    ensures { (sizes : FlashSizes) (s : State) (e : Event) (m : Moment)
        → Happens sizes s e m → KeepsNumbers s m.state }
{}

/// The numbers in lines are those by which later events name what they tell of: a packet that was sent is the newest then, and a
/// reply is the newest then and has the bytes of its line.
pub fn lines_name_their_mail()
    ensures { (sizes : FlashSizes) (s : State) (e : Event) (m : Moment)
        → Happens sizes s e m → EachLine (NamesMail m.state) m.lines }
{}

/// A device that is down stays as it is until a boot. One that is up goes down only where something struck, and where a request
/// got no answer, since power was cut.
pub fn a_device_that_is_down_waits_for_a_boot()
    ensures waits { (sizes : FlashSizes) (s : State) (e : Event) (m : Moment)
        → s.up ≡ false → e ≢ boot → Happens sizes s e m
        → (m.state.up ≡ false) × (m.state.device ≡ s.device) }
    ensures struck { (sizes : FlashSizes) (s : State) (e : Event) (m : Moment)
        → s.up ≡ true → Happens sizes s e m → m.state.up ≡ false → m.struck ≡ true }
    ensures cut { (sizes : FlashSizes) (s : State) (e : Event) (m : Moment) (r : Meant)
        → Happens sizes s e m → m.request ≡ Some r → m.reply ≡ None → m.state.up ≡ false }
{}

/// A device that was formatted with good images that fit is consistent, and stays so: its slots 0 begin with good images, its
/// settings and files are within their limits, its uploads fit, and parts go to an image that is there.
pub fn devices_stay_consistent_in_runs()
    ensures first { (sizes : FlashSizes) (image : List ℕ) (second : Option (List ℕ))
        → CanFormat sizes image → IfSome second (CanFormat sizes)
        → IsConsistent sizes (first_state sizes image second).device }
    ensures later { (sizes : FlashSizes) (s : State) (events : List Event) (moments : List Moment)
        → Run sizes s events moments → IsConsistent sizes s.device
        → IsConsistent sizes (state_at_end s moments).device }
{
    images_end();
    packets_have_texts();
    devices_stay_consistent();
}

/// What was acknowledged of the upload of an image is held by it, at each place of a run.
pub fn acknowledged_bytes_stay()
    ensures { (sizes : FlashSizes) (image : ℕ) (s : State) (events : List Event)
        (moments : List Moment) (n : ℕ)
        → Run sizes s events moments → CoversOn image s.device n
        → CoversOn image (state_at_end s moments).device
        (acknowledged_after image s.device.target moments n) }
{
    acknowledged_bytes_are_held();
}

/// What is pending on a side is what was announced and a good image, at each place of a run.
pub fn a_pending_slot_is_good_in_runs()
    ensures { (sizes : FlashSizes) (s : State) (events : List Event) (moments : List Moment)
        → Run sizes s events moments → EachSide PendingIsGood s.device
        → EachSide PendingIsGood (state_at_end s moments).device }
{
    a_pending_slot_is_good();
}

/// What is pending on a side stays pending, with the same mark and the same upload.
pub fn a_pending_slot_stays_in_runs()
    ensures { (sizes : FlashSizes) (state : State) (events : List Event) (moments : List Moment)
        (image : ℕ) (s : OneSide) (mark : Marked)
        → Run sizes state events moments
        → side_at image state.device ≡ Some s → PendingIsGood s → s.pending ≡ Some mark
        → OnImage image (SameUpload s) (state_at_end state moments).device }
{
    a_pending_slot_stays();
}

/// What a save made the saved settings, where it was answered by no error, stays so until another save takes effect.
pub fn saves_stay()
    ensures { (sizes : FlashSizes) (s : State) (e : Event) (events : List Event) (m : Moment)
        (moments : List Moment)
        → Run sizes s (e ∷ events) (m ∷ moments) → IsSave m → NothingSaved moments
        → (state_at_end m.state moments).device.saved ≡ s.device.running }
{}

/// A cut or a failure that was armed and has not struck was passed by fewer events that its region counts than the number
/// that was armed with it: in the region `any`, events that changed what is durable.
pub fn armed_troubles_strike_in_time()
    ensures { (sizes : FlashSizes) (arm : Arm) (n : ℕ) (s : State) (events : List Event)
        (m : Moment) (moments : List Moment)
        → IsOfChanges arm.kind → 1 ≤ arm.after → NoArms events
        → Run sizes s (arms arm ∷ events) (m ∷ moments)
        → IsSome (state_at_end m.state moments).armed
        → Passed arm.region n m.state.device moments → n < arm.after }
{}

/// A region counts steps of its own image alone.
pub fn regions_count_their_image()
    ensures { (region : Region) (d : Device) (image : ℕ) (step : SideStep)
        → IsCounted region d (OnSide image step) → image_in region ≡ Some image }
{}

/// From each state there is a run of whatever events.
pub fn every_schedule_runs()
    ensures { (sizes : FlashSizes) (s : State) (events : List Event)
        → (moments : List Moment) × Run sizes s events moments }
{
    steps_need_the_flash();
}

/// A run of the first events of a schedule goes on with the others, whatever came of it, and each run is parted so at any place.
/// What the first moments print is a front of the transcript of the whole run.
pub fn fronts_of_runs_are_runs()
    ensures goes_on { (sizes : FlashSizes) (s : State) (events later : List Event)
        (moments : List Moment)
        → Run sizes s events moments
        → (more : List Moment) × Run sizes s (events ++ later) (moments ++ more) }
    ensures parted { (sizes : FlashSizes) (s : State) (events later : List Event)
        (moments : List Moment)
        → Run sizes s (events ++ later) moments
        → (firsts : List Moment) × (more : List Moment) × (moments ≡ firsts ++ more)
        × Run sizes s events firsts × Run sizes (state_at_end s firsts) later more }
    ensures printed { (s : State) (moments more : List Moment)
        → IsFront (flat_map (λ m. lines_text m.lines) moments) (transcript s (moments ++ more)) }
{
    steps_need_the_flash();
}

/// Where nothing is armed, the moments of a run are a function of its events, and what that function gives is a run. At raw bytes the device does what the
/// abstract device does with them.
pub fn unarmed_runs_are_functions()
    ensures handled { (sizes : FlashSizes) (s : State) (bytes : List ℕ)
        → s.up ≡ true
        → (unarmed_moment sizes s (raw bytes)).state.device ≡ (handled sizes s.device bytes).device }
    ensures moments { (sizes : FlashSizes) (s : State) (events : List Event) (moments : List Moment)
        → s.armed ≡ None → NoArms events → Run sizes s events moments
        → moments ≡ unarmed_moments sizes s events }
    ensures run { (sizes : FlashSizes) (s : State) (events : List Event)
        → s.armed ≡ None → NoArms events
        → Run sizes s events (unarmed_moments sizes s events) }
{
    steps_need_the_flash();
}

/// In a run without raw bytes, of a schedule in which two upload jobs with one digest have one file: at each place, the
/// bytes that were accepted of an upload that announced a digest are a front of the file of the jobs with that digest, to
/// whichever image, whatever late packets are delivered.
pub fn tagged_uploads_are_of_their_files()
    ensures { (sizes : FlashSizes) (image : List ℕ) (second : Option (List ℕ))
        (events later : List Event) (moments : List Moment)
        → All IsNotRaw events → AreTagged (Begun (events ++ later))
        → Run sizes (first_state sizes image second) events moments
        → IsTagged (Begun (events ++ later))
        (state_at_end (first_state sizes image second) moments).device }
{
    laws_below();
}

/// In a run without raw bytes, of a schedule whose upload jobs have different digests and different hashes, whatever was
/// lost, repeated, late, cut or struck: where a job with a mark is done, the secondary slot of its image is pending and holds
/// exactly its file; or the file's hash is that of an image that runs, and this is confirmed.
pub fn done_marks_are_there()
    ensures { (sizes : FlashSizes) (image : List ℕ) (second : Option (List ℕ))
        (events later : List Event) (moments : List Moment) (c : Client) (j : UploadJob)
        → All IsNotRaw events → AreDifferent (Begun (events ++ later))
        → Run sizes (first_state sizes image second) events moments
        → Contains (state_at_end (first_state sizes image second) moments).clients c
        → c.job ≡ uploads j → c.ended ≡ Some done → j.ending ≢ Only
        → IsMarked j (state_at_end (first_state sizes image second) moments).device }
{
    laws_below();
    a_pending_slot_stays();
}

/// In a run without raw bytes and with one upload job, to whichever image, whatever was lost, repeated, late, cut or
/// struck: where the job is done, the upload of its image is complete and is exactly its file; and with a mark it is pending, or
/// the file's hash is that of an image that runs, which is confirmed.
pub fn done_uploads_are_there()
    ensures { (sizes : FlashSizes) (image : List ℕ) (second : Option (List ℕ)) (j : UploadJob)
        (events : List Event) (moments : List Moment) (c : Client)
        → IsUpload j → All (IsAmong (λ k. k ≡ j)) events
        → Run sizes (first_state sizes image second) events moments
        → Contains (state_at_end (first_state sizes image second) moments).clients c
        → c.job ≡ uploads j → c.ended ≡ Some done
        → IsDoneBy j j.ending (state_at_end (first_state sizes image second) moments).device }
{
    laws_below();
    a_pending_slot_stays();
    answered_offsets_are_held();
    device_replies_are_sendable();
}

/// In a run without raw bytes: where a job is done that writes settings whose names differ, no other job sets one of its
/// names, and no boot, cut or failing flash operation came since its first packet, its settings are saved. Its client has the
/// number after those that were there before it.
pub fn done_sets_are_saved()
    ensures { (sizes : FlashSizes) (image : List ℕ) (second : Option (List ℕ))
        (settings : List Stored) (before events : List Event) (firsts : List Moment) (m : Moment)
        (moments : List Moment) (c : Client)
        → IsSetJob settings → All (SparesNames settings) before → All (SparesNames settings) events
        → All IsNoBoot events → NothingStruck moments
        → Run sizes (first_state sizes image second) before firsts
        → Run sizes (state_at_end (first_state sizes image second) firsts)
        (begins (sets settings) ∷ events) (m ∷ moments)
        → nth (state_at_end m.state moments).clients
        (length (state_at_end (first_state sizes image second) firsts).clients + 1) ≡ Some c
        → c.ended ≡ Some done
        → HasAll settings (state_at_end m.state moments).device.saved }
{
    laws_below();
    only_a_save_saves();
}

/// In a run of one upload job alone where each packet and each answer is delivered once, in order, no wait ends, nothing is
/// armed and the device accepts: the job is done after at most the length of the file divided by the chunk less 7, and 3
/// packets.
pub fn delivered_uploads_take_few_packets()
    ensures { (sizes : FlashSizes) (image : List ℕ) (second : Option (List ℕ)) (j : UploadJob)
        (k : ℕ) (m : Moment) (moments : List Moment)
        → IsUpload j → HasRoom sizes j → enough_packets j ≤ k
        → Run sizes (first_state sizes image second) (begins (uploads j) ∷ delivered k)
        (m ∷ moments)
        → AreAccepted moments → IsDoneSoon j (state_at_end m.state moments) }
{
    laws_below();
}

/// In a run without raw bytes whose one upload job begins first, among any other jobs: where each packet and each
/// answer of its client is delivered once, in order, no wait of it ends, nothing strikes and the device accepts, the client
/// never sends more than the length of the file divided by the chunk less 7, and 3 packets; and until it is done, each of
/// its packets but the newest was answered.
pub fn orderly_uploads_take_few_packets()
    ensures { (sizes : FlashSizes) (image : List ℕ) (second : Option (List ℕ)) (j : UploadJob)
        (events : List Event) (m : Moment) (moments : List Moment)
        → IsUpload j → HasRoom sizes j → All NoUpload events
        → Run sizes (first_state sizes image second) (begins (uploads j) ∷ events) (m ∷ moments)
        → AreOrderly 1 m.state events moments → GoesWell j (state_at_end m.state moments) }
{
    laws_below();
}

/// A lawful schedule whose clients have jobs has its events: each client's line begins the job of its number.
pub fn schedules_have_events()
    ensures { (folder : Folder) (s : Schedule) (jobs : List ClientJob)
        → IsLawful s → AreJobsOf folder s.events jobs
        → (events : List Event) × AreEventsOf jobs s.events events }
{}

/// Where the files are told, a schedule fixes its flash and its jobs, and these fix its events.
pub fn told_files_fix_a_replay()
    ensures flash { (files : List ℕ → Option (List ℕ)) (line : Option Line) (one other : Flash)
        → IsFlash (Some files) line one → IsFlash (Some files) line other → one ≡ other }
    ensures jobs { (files : List ℕ → Option (List ℕ)) (lines : List Spelled)
        (one other : List ClientJob)
        → AreJobsOf (Some files) lines one → AreJobsOf (Some files) lines other → one ≡ other }
    ensures events { (jobs : List ClientJob) (lines : List Spelled) (one other : List Event)
        → AreEventsOf jobs lines one → AreEventsOf jobs lines other → one ≡ other }
{}

/// The jobs of lawful lines are such as the laws on jobs ask for. An upload has bytes, the hash of its file's image, and an image
/// that may be there; what is loaded is far shorter than 4294967296 bytes. Settings are texts, and few.
pub fn jobs_of_schedules_are_proper()
    ensures uploads { (folder : Folder) (image : ℕ) (file : List ℕ) (chunk : ℕ)
        (ending : EndingOf) (j : UploadJob)
        → IsJob (UploadWords image file chunk ending)
        → IsJobOf folder (UploadWords image file chunk ending) (uploads j)
        → length j.file < 2 ^ 32 → IsUpload j × HasOwnHash j }
    ensures sets { (folder : Folder) (pairs settings : List Stored)
        → IsJob (SetWords pairs) → IsJobOf folder (SetWords pairs) (sets settings)
        → AreTexts settings × (length settings ≤ 254) }
{
    images_lie_within();
}
