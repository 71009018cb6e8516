//! What the packets of the Simple Management Protocol say: requests, replies, and what they are about.
//!
//! A packet is a header of eight bytes and a map of CBOR. A request names its row of the table of requests by its
//! group, command and operation, and its data by the keys of that row:
//!
//! ```text
//! 02 00 00 06 00 00 01 00   a1 61 64 62 68 69          write, 6 bytes, group 0, sequence 1, command 0: {"d": "hi"}
//! 03 00 00 06 00 00 01 00   a1 61 72 62 68 69          its reply: {"r": "hi"}
//! ```
//!
//! The types are what a program passes around. What they mean is defined in `specs/`: the table of requests, the
//! meaning of a packet, the bytes of a reply, and what the device answers.
#![tactic(auto)]

mod device;
pub mod error;
mod image;
mod image_laws;
mod laws;
pub mod memory;
mod packet;
mod packet_laws;
pub mod pair;
mod reply;
mod request;
mod setting;
mod upload;

pub use device::{AbstractDevice, Counters, Side, Sizes, StoredFile, StoredFiles, Upload};
pub use image::{ImageFault, ImageHeader, ImageInfo, make_image};
pub use image_laws::{
    first_faults_are_read, good_images_are_right, images_are_read, images_end, images_lie_within,
    made_images_are_good, tlvs_are_read_in_order,
};
pub use laws::{
    a_foreign_part_stores_nothing, a_pending_slot_is_good, a_pending_slot_stays, a_start_forgets,
    acknowledged_bytes_are_held, answered_offsets_are_held, complete_uploads_are_told,
    counters_are_answered, devices_stay_consistent, drops_are_due, good_uploads_have_images,
    marks_are_due, one_image_is_image_0, only_a_save_saves, packets_have_texts, parts_join,
    refusals_change_nothing, requests_keep_to_their_image, requests_keep_to_their_part,
    settled_devices_stay_settled, settling_is_done_once, steps_are_due, steps_need_the_flash,
    steps_of_a_side_lift, stored_settings_are_read_back, the_first_part_is_kept,
    the_first_slot_is_meant, the_next_part_is_kept, the_target_moves_at_starts,
    unnamed_images_are_found, what_is_asked_for_is_done,
};
pub use packet::set_length;
pub use packet_laws::{keys_are_texts, packets_are_read_back, plain_maps_are_written};
pub use reply::{Reply, SidePair, SlotEntry, Version};
pub use request::{Request, UploadPart};
pub use setting::{Pairs, Setting};
pub use upload::{Announcement, Ending, Mark};
