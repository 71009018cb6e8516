//! Runs of a device with its clients: what may come of each event of a schedule, and what holds in every run.
//!
//! A run begins with a flash that was formatted with one image or two. Each event has a moment: what the device or a client did,
//! the lines that are printed, and the state then (`specs/Runs.antt`).
//!
//! | Event | What may come of it |
//! |---|---|
//! | a client begins | its first packet is sent |
//! | raw bytes, or a packet of a client, come to the device | the device's definition says what is answered and done; or what is armed strikes |
//! | a reply comes to its client, or a wait of a client ends | the client's definition says what it sends, and when its job ends |
//! | the flash is armed | it stays so until it strikes, or until another is armed |
//! | a boot | the device starts; or what is armed strikes |
//!
//! Where nothing is armed, there is one run of a schedule (`specs/Unarmed.antt`). What holds of all runs is said by laws, which
//! are functions that do nothing.
#![tactic(auto)]

mod clients;
mod examples;
mod laws;
mod machine;
mod mail;
mod printing;
#[cfg(test)]
mod tests;
mod world;

pub use examples::{
    a_replay_for_example, boots_for_example, clients_for_example, raw_packets_for_example,
    settings_for_example, struck_runs_for_example, uploads_for_example,
};
pub use laws::{
    a_device_that_is_down_waits_for_a_boot, a_pending_slot_is_good_in_runs,
    a_pending_slot_stays_in_runs, acknowledged_bytes_stay, armed_troubles_strike_in_time,
    delivered_uploads_take_few_packets, devices_stay_consistent_in_runs, done_marks_are_there,
    done_sets_are_saved, done_uploads_are_there, every_schedule_runs, fronts_of_runs_are_runs,
    jobs_of_schedules_are_proper, lines_name_their_mail, moments_are_the_devices, numbers_are_kept,
    orderly_uploads_take_few_packets, regions_count_their_image, runs_begin_with_nothing,
    saves_stay, schedules_have_events, tagged_uploads_are_of_their_files, told_files_fix_a_replay,
    unarmed_runs_are_functions, unstruck_moments_are_whole,
};
pub use world::World;
