// Whole conversations as rows, which were written down from the formats of packets, requests and replies and from the rules of the
// jobs, and not taken from a program.
//
// A packet is its header and its data, in hex; blanks only part the fields. A header is the version and operation (08 reads, 09 is
// the response to a read, 0a writes, 0b is the response to a write; 01 and 03 are responses in version 1), the flags, the length of
// the data in two bytes, the group in two bytes, the sequence number and the command. In the data a1 to a8 is a map of one to
// eight pairs, 60 and more a text, 40 and more bytes, 58 bytes with their count in one byte, and 59 with it in two; 18 and 19
// are numbers of one and two bytes, f4 is false and f5 true.

use crate::{Job, JobMove};
use std::alloc::{AllocError, Global};
use std::test::Fail;

/// The data of a packet, in pieces of hex digits.
pub type Digits = &'static [&'static str];

/// A row of a conversation. Behind a row whose move is `Send` stands the packet that is sent, and the first row has the first one.
pub enum Row {
    /// The job sends the packet with this header and data.
    Sends(&'static str, Digits),
    /// It hears the packet with this header and data, and this is its move.
    Hears(&'static str, Digits, JobMove),
    /// A wait ends in which nothing was heard, and this is its move.
    Quiet(JobMove),
}

/// Adds digits without their blanks.
fn add_digits(digits: &mut Vec<u8>, piece: &str) -> Result<(), AllocError> {
    for digit in piece.as_bytes() {
        if *digit != b' ' {
            digits.push(*digit)?;
        }
    }
    Ok(())
}

/// The bytes of a header and of data.
pub fn bytes_of(alloc: Global, header: &str, data: &[&str]) -> Result<Vec<u8>, Fail> {
    let mut digits = Vec::new(alloc);
    add_digits(&mut digits, header)?;
    for piece in data {
        add_digits(&mut digits, piece)?;
    }
    Ok(hex::decode(alloc, digits.as_slice())?)
}

/// A job that is driven row by row: the packet that was sent last, and whether one is to be sent.
#[derive(Drop)]
struct Driven {
    job: Job,
    sent: Vec<u8>,
    is_due: bool,
}

/// Whether a job keeps to a row.
fn keeps_to(alloc: Global, driven: &mut Driven, row: &Row) -> Result<bool, Fail> {
    let (made, due) = match row {
        Row::Sends(header, data) => {
            driven.sent = bytes_of(alloc, header, data)?;
            let was_due = driven.is_due;
            driven.is_due = false;
            return Ok(was_due && driven.job.packet() == driven.sent.as_slice());
        }
        Row::Hears(header, data, due) => {
            let packet = bytes_of(alloc, header, data)?;
            (driven.job.hear(packet.as_slice()), *due)
        }
        Row::Quiet(due) => (driven.job.quiet(), *due),
    };
    let was_due = driven.is_due;
    driven.is_due = made == JobMove::Send;
    let is_same = driven.is_due || driven.job.packet() == driven.sent.as_slice();
    Ok(made == due && is_same && !was_due)
}

/// The first row that a job does not keep to, counted from 1, and one more than there are where it has not ended behind all rows
/// or then prints something else; None where it keeps to all.
pub fn first_wrong(
    alloc: Global,
    job: Job,
    rows: &[Row],
    printed: &[u8],
) -> Result<Option<usize>, Fail> {
    let mut driven = Driven {
        job,
        sent: Vec::new(alloc),
        is_due: true,
    };
    for (i, row) in rows.iter().enumerate() {
        if !driven.job.is_over() && !driven.job.result().is_empty() {
            return Ok(Some(i));
        }
        if !keeps_to(alloc, &mut driven, row)? {
            return Ok(Some(i.saturating_add(1)));
        }
    }
    if driven.job.is_over() && driven.job.result() == printed {
        Ok(None)
    } else {
        Ok(Some(rows.len().saturating_add(1)))
    }
}
