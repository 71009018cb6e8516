//! The list of images.

ghost use Rattle.std.specs.Prelude.{◌≡◌, ◌+◌, ◌≤◌, ◌++◌, ℕ, Option, None, Some, length, map as each};
ghost use Rattle.arrayvec.specs.ArrayVec.{array_vec_len};
ghost use Rattle.smp_cbor.specs.Shortest.{shortest, shortest_values, values_count};
ghost use Rattle.smp_cbor.specs.Values.{list, values};
ghost use Rattle.smp_reply.specs.Parts.{image_bytes, named_bytes, flag_bytes, last_flag_bytes};
ghost use Rattle.smp_model.specs.Said.{entry_value, images, reply_value, slots_of, version_text};

use arrayvec::{ArrayString, ArrayVec};
use itoa::Buffer;
use smp_cbor::{put_list, put_map, put_text};
use smp_header::{LARGEST_PACKET, PacketBuffer};
use smp_model::pair::{put_bytes, put_number, put_truth, put_words};
use smp_model::{SidePair, SlotEntry, Version};

/// `major.minor.revision`, and `.build` where the build is not 0.
fn text_of(version: &Version) -> ArrayString<24>
    ensures { result.bytes ≡ version_text version.now }
{
    let mut buffer = Buffer::new();
    let mut text = ArrayString::<24>::new();
    text.push_str(buffer.format(version.major));
    text.push_str(".");
    text.push_str(buffer.format(version.minor));
    text.push_str(".");
    text.push_str(buffer.format(version.revision));
    if version.build != 0 {
        text.push_str(".");
        text.push_str(buffer.format(version.build));
    }
    text
}

/// What is said of one slot.
#[tactic(auto, unfolding(smp_cbor::specs::Shortest::shortest, smp_cbor::specs::Shortest::shortest_pairs))]
fn put_entry(out: &mut PacketBuffer, image: Option<u32>, entry: &SlotEntry)
    requires { array_vec_len out.old + length (shortest (entry_value (image, entry.now)))
        ≤ LARGEST_PACKET }
    ensures { out.new.items ≡ out.old.items ++ shortest (entry_value (image, entry.now)) }
{
    match image {
        None => put_map(out, 8),
        Some(number) => {
            put_map(out, 9);
            put_number(out, "image", number);
        }
    }
    put_image(out, entry);
    put_flags(out, entry);
    put_last_flags(out, entry);
}

/// The slot, and the version and the hash of its image.
fn put_image(out: &mut PacketBuffer, entry: &SlotEntry)
    requires { array_vec_len out.old + length (named_bytes entry.now) ≤ LARGEST_PACKET }
    ensures { out.new.items ≡ out.old.items ++ named_bytes entry.now }
{
    put_number(out, "slot", entry.slot);
    put_words(out, "version", text_of(&entry.version).as_str());
    put_bytes(out, "hash", &entry.hash);
}

/// The first of the image's flags.
fn put_flags(out: &mut PacketBuffer, entry: &SlotEntry)
    requires { array_vec_len out.old + length (flag_bytes entry.now) ≤ LARGEST_PACKET }
    ensures { out.new.items ≡ out.old.items ++ flag_bytes entry.now }
{
    put_truth(out, "bootable", entry.bootable);
    put_truth(out, "pending", entry.pending);
    put_truth(out, "confirmed", entry.confirmed);
}

/// The last of them.
fn put_last_flags(out: &mut PacketBuffer, entry: &SlotEntry)
    requires { array_vec_len out.old + length (last_flag_bytes entry.now) ≤ LARGEST_PACKET }
    ensures { out.new.items ≡ out.old.items ++ last_flag_bytes entry.now }
{
    put_truth(out, "active", entry.active);
    put_truth(out, "permanent", entry.permanent);
}

/// The slots of an image.
#[tactic(auto, unfolding(smp_cbor::specs::Shortest::shortest_values))]
fn put_pair(out: &mut PacketBuffer, image: Option<u32>, pair: &SidePair)
    requires { array_vec_len out.old
        + length (shortest_values (values (each entry_value (slots_of image pair.now))))
        ≤ LARGEST_PACKET }
    ensures { out.new.items
        ≡ out.old.items ++ shortest_values (values (each entry_value (slots_of image pair.now))) }
{
    put_entry(out, image, &pair.first);
    if let Some(second) = &pair.second {
        put_entry(out, image, second);
    }
}

/// How many slots have an entry.
fn count_of(pair: &SidePair) -> u16
    ensures count { (image : Option ℕ)
        → result ≡ values_count (values (each entry_value (slots_of image pair.now))) }
    ensures few { result ≤ 2 }
{
    match pair.second {
        None => 1,
        Some(_) => 2,
    }
}

/// A list with the slots of the only image.
#[tactic(auto, unfolding(smp_cbor::specs::Shortest::shortest))]
fn put_one(out: &mut PacketBuffer, pair: &SidePair)
    requires { array_vec_len out.old
        + length (shortest (list (values (each entry_value (slots_of None pair.now)))))
        ≤ LARGEST_PACKET }
    ensures { out.new.items
        ≡ out.old.items ++ shortest (list (values (each entry_value (slots_of None pair.now)))) }
{
    put_list(out, count_of(pair));
    put_pair(out, None, pair);
}

/// A list with the slots of two images.
#[tactic(auto, unfolding(smp_cbor::specs::Shortest::shortest), using(crate::proofs::Lists::two_laid, crate::proofs::Lists::two_counted))]
fn put_two(out: &mut PacketBuffer, pair: &SidePair, other: &SidePair)
    requires { array_vec_len out.old
        + length
        (shortest
        (list
        (values
        (each entry_value
        (slots_of (Some 0) pair.now ++ slots_of (Some 1) other.now)))))
        ≤ LARGEST_PACKET }
    ensures { out.new.items
        ≡ out.old.items
        ++ shortest
        (list
        (values
        (each entry_value
        (slots_of (Some 0) pair.now ++ slots_of (Some 1) other.now)))) }
{
    put_list(out, count_of(pair) + count_of(other));
    put_pair(out, Some(0), pair);
    put_pair(out, Some(1), other);
}

/// `{"images": list}`, with an entry for each slot.
#[tactic(auto, unfolding(smp_cbor::specs::Shortest::shortest, smp_cbor::specs::Shortest::shortest_pairs))]
pub fn put_images(out: &mut PacketBuffer, pair: &SidePair, other: &Option<SidePair>)
    requires { array_vec_len out.old + length (shortest (reply_value 1 (images pair.now other.now)))
        ≤ LARGEST_PACKET }
    ensures { out.new.items ≡ out.old.items ++ shortest (reply_value 1 (images pair.now other.now)) }
{
    put_map(out, 1);
    put_text(out, "images");
    match other {
        None => put_one(out, pair),
        Some(other) => put_two(out, pair, other),
    }
}
