// The text of a list of images.
ghost use Rattle.std.specs.Prelude.{◌≡◌, ◌++◌, [], codes, flat_map, OnOk, Some, None, option_map};
ghost use Rattle.std.specs.Fmt.{decimal};
ghost use Rattle.hex.specs.Hex.{encode_lower};
ghost use Rattle.smp_cbor.specs.Views.{entries, look_up, rest_of, value_of};
ghost use Rattle.smp_jobs.specs.Results.{word_if, words_of, entry_of, value_line};

use itoa::Buffer;
use smp_cbor::{Item, ListView, MapView};
use std::alloc::{AllocError, Global};

/// Appends a word where its key is true.
fn write_word(out: &mut Vec<u8>, entry: &MapView<'_>, word: &str) -> Result<(), AllocError>
    ensures { OnOk result (out.new.items ≡ out.old.items ++ word_if word.now (look_up word.now (entries entry.now))) }
{
    match entry.find(word) {
        Some(Item::Bool(true)) => {
            out.extend_from_slice(b" ")?;
            out.extend_from_slice(word.as_bytes())?;
            Ok(())
        }
        _ => Ok(()),
    }
}

/// Appends the words that are true.
fn write_words(out: &mut Vec<u8>, entry: &MapView<'_>) -> Result<(), AllocError>
    ensures { OnOk result (out.new.items ≡ out.old.items ++ words_of (entries entry.now)) }
{
    write_word(out, entry, "bootable")?;
    write_word(out, entry, "pending")?;
    write_word(out, entry, "confirmed")?;
    write_word(out, entry, "active")?;
    write_word(out, entry, "permanent")
}

/// Appends a slot, a version and a hash.
fn write_image(
    alloc: Global,
    out: &mut Vec<u8>,
    slot: u64,
    version: &str,
    hash: &[u8],
) -> Result<(), AllocError>
    ensures { OnOk result (out.new.items ≡ out.old.items ++ (decimal slot ++ codes " " ++ version.now ++ codes " " ++ encode_lower hash.now)) }
{
    let mut buffer = Buffer::new();
    out.extend_from_slice(buffer.format(slot).as_bytes())?;
    out.extend_from_slice(b" ")?;
    out.extend_from_slice(version.as_bytes())?;
    out.extend_from_slice(b" ")?;
    let digits = hex::encode(alloc, hash)?;
    out.extend_from_slice(digits.as_bytes())?;
    Ok(())
}

/// Appends the line of an entry that has a slot, a version and a hash.
fn write_entry(alloc: Global, out: &mut Vec<u8>, entry: &MapView<'_>) -> Result<(), AllocError>
    ensures { OnOk result (out.new.items ≡ out.old.items ++ entry_of (entries entry.now)) }
{
    let Some(Item::Unsigned(slot)) = entry.find("slot") else {
        return Ok(());
    };
    let Some(Item::Text(version)) = entry.find("version") else {
        return Ok(());
    };
    let Some(Item::Octets(hash)) = entry.find("hash") else {
        return Ok(());
    };
    write_image(alloc, out, slot, version, hash)?;
    write_words(out, entry)?;
    out.extend_from_slice(b"\n")?;
    Ok(())
}

/// Appends the line of a value of a list.
fn write_value(alloc: Global, out: &mut Vec<u8>, item: &Item<'_>) -> Result<(), AllocError>
    ensures { OnOk result (out.new.items ≡ out.old.items ++ value_line (value_of item.now)) }
{
    match item {
        Item::Map(entry) => write_entry(alloc, out, entry),
        _ => Ok(()),
    }
}

/// Appends the lines of a list of images: for each the slot, the version, the hash, and the words that are true.
pub fn write_images(alloc: Global, out: &mut Vec<u8>, list: ListView<'_>) -> Result<(), AllocError>
    ensures { OnOk result (out.new.items ≡ out.old.items ++ flat_map value_line (rest_of list.entry)) }
{
    let mut rest = list;
    'entries: while let Some(item) = rest.next() {
        write_value(alloc, out, &item)?;
    }
    Ok(())
}
