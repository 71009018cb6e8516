//! What the plain program answers: a reply and steps, of one side or of the device.

ghost use Rattle.std.specs.Prelude.{◌≡◌, ◌≤◌, ◌+◌, [], ◌∷◌, ◌++◌, length, map as each};
ghost use Rattle.smp_model.specs.ImageGroup.{aims, begins_on, is_offset, refuses_image, refuses_part};
ghost use Rattle.smp_model.specs.Response.{reply_alone, refuses, responds, settling_side, side_responds};
ghost use Rattle.smp_model.specs.Said.{said_of};
ghost use Rattle.smp_model.specs.Sides.{side_settle_steps};
ghost use Rattle.smp_model.specs.Steps.{on_side};
ghost use Rattle.smp_plain.specs.Plain.{behind_settling, lifted, response_of, side_response_of, side_step_of, step_of, steps_of};

use crate::uploads::is_spoiled;
use arrayvec::ArrayVec;
use smp_model::error::IMAGE_GROUP;
use smp_model::{AbstractDevice, Announcement, Mark, Reply, Side};

/// A change of what is lost at a start.
#[derive(Clone, Copy, Debug, PartialEq, Eq)]
pub enum PlainChange<'a> {
    WriteSetting {
        name: &'a str,
        val: &'a [u8],
    },
    DeleteSetting {
        name: &'a str,
    },
    LoadSettings,
    BeginFile {
        name: &'a str,
        announced: u32,
        part: &'a [u8],
    },
    AppendFile {
        name: &'a str,
        part: &'a [u8],
    },
    AimAt {
        image: u32,
    },
}

/// A step of the side of an image.
#[derive(Clone, Copy, Debug, PartialEq, Eq)]
pub enum PlainSideStep<'a> {
    Choose(Announcement),
    Append(&'a [u8]),
    Drop,
    MarkPending(Mark),
    Confirm,
}

impl Default for PlainSideStep<'_> {
    fn default() -> Self {
        PlainSideStep::Drop
    }
}

/// A step of the abstract device.
#[derive(Clone, Copy, Debug, PartialEq, Eq)]
pub enum PlainStep<'a> {
    OnSide { image: u32, step: PlainSideStep<'a> },
    Save,
    Run(PlainChange<'a>),
}

impl Default for PlainStep<'_> {
    fn default() -> Self {
        PlainStep::Save
    }
}

/// What one side does: a reply, and its steps, of which there are at most three.
#[derive(Debug, Drop)]
pub(crate) struct PlainSideResponse<'a> {
    pub(crate) reply: Reply<'a>,
    pub(crate) steps: ArrayVec<PlainSideStep<'a>, 3>,
}

/// What the device does at a request: its reply, and its steps, of which there are at most five: to settle, to move the
/// target of parts, to choose an upload, to append to it and to give it up.
#[derive(Debug, Drop)]
pub struct PlainResponse<'a> {
    pub reply: Reply<'a>,
    pub steps: ArrayVec<PlainStep<'a>, 5>,
}

/// A reply and no steps.
pub(crate) fn reply_alone<'a>(reply: Reply<'a>) -> PlainResponse<'a>
    ensures value { response_of result ≡ reply_alone (said_of reply.entry) }
    ensures few { length result.steps.items ≡ 0 }
{
    PlainResponse {
        reply,
        steps: ArrayVec::new(),
    }
}

/// An error of a group, and no steps.
pub(crate) fn refused<'a>(group: u16, number: u32) -> PlainResponse<'a>
    ensures value { response_of result ≡ refuses group number }
    ensures few { length result.steps.items ≡ 0 }
{
    reply_alone(Reply::GroupError { group, number })
}

/// An error of the group image, and no steps.
pub(crate) fn refused_image<'a>(number: u32) -> PlainResponse<'a>
    ensures value { response_of result ≡ refuses_image number }
    ensures few { length result.steps.items ≡ 0 }
{
    refused(IMAGE_GROUP, number)
}

/// A reply and one step.
pub(crate) fn responded<'a>(reply: Reply<'a>, step: PlainStep<'a>) -> PlainResponse<'a>
    ensures value { response_of result ≡ responds (said_of reply.entry) (step_of step.entry ∷ []) }
    ensures few { length result.steps.items ≡ 1 }
{
    let mut steps = ArrayVec::new();
    steps.push(step);
    PlainResponse { reply, steps }
}

/// A reply and no steps of a side.
pub(crate) fn side_reply_alone<'a>(reply: Reply<'a>) -> PlainSideResponse<'a>
    ensures value { side_response_of result ≡ side_responds (said_of reply.entry) [] }
    ensures few { length result.steps.items ≡ 0 }
{
    PlainSideResponse {
        reply,
        steps: ArrayVec::new(),
    }
}

/// An error of the group image, and no steps of a side.
pub(crate) fn refused_part<'a>(number: u32) -> PlainSideResponse<'a>
    ensures value { side_response_of result ≡ refuses_part number }
    ensures few { length result.steps.items ≡ 0 }
{
    side_reply_alone(Reply::GroupError {
        group: IMAGE_GROUP,
        number,
    })
}

/// A reply and one step of a side.
pub(crate) fn side_responded<'a>(reply: Reply<'a>, step: PlainSideStep<'a>) -> PlainSideResponse<'a>
    ensures value { side_response_of result
        ≡ side_responds (said_of reply.entry) (side_step_of step.entry ∷ []) }
    ensures few { length result.steps.items ≡ 1 }
{
    let mut steps = ArrayVec::new();
    steps.push(step);
    PlainSideResponse { reply, steps }
}

/// The response with a step before its own.
pub(crate) fn preceded<'a>(
    step: PlainSideStep<'a>,
    response: PlainSideResponse<'a>,
) -> PlainSideResponse<'a>
    requires { length response.steps.items ≤ 2 }
    ensures value { side_response_of result
        ≡ side_responds
        (side_response_of response.entry).reply
        (side_step_of step.entry ∷ (side_response_of response.entry).steps) }
    ensures few { length result.steps.items ≡ length response.entry.steps.items + 1 }
{
    let PlainSideResponse { reply, steps } = response;
    let mut all = steps;
    all.insert(0, step);
    PlainSideResponse { reply, steps: all }
}

/// Adds steps of a side, as steps of the device.
fn add_on_side<'a>(all: &mut ArrayVec<PlainStep<'a>, 5>, image: u32, steps: &[PlainSideStep<'a>])
    requires { length all.old.items + length steps.now ≤ 5 }
    ensures { all.new.items ≡ all.old.items ++ lifted image steps.now }
{
    for step in steps {
        all.push(PlainStep::OnSide { image, step: *step });
    }
}

/// Adds steps of the device.
fn add_steps<'a>(all: &mut ArrayVec<PlainStep<'a>, 5>, steps: &[PlainStep<'a>])
    requires { length all.old.items + length steps.now ≤ 5 }
    ensures { all.new.items ≡ all.old.items ++ steps.now }
{
    for step in steps {
        all.push(*step);
    }
}

/// Adds the steps by which a side settles.
fn add_settling<'a>(all: &mut ArrayVec<PlainStep<'a>, 5>, image: u32, side: &Side)
    requires { length all.old.items ≤ 4 }
    ensures value { steps_of all.new.items
        ≡ steps_of all.old.items ++ on_side image (side_settle_steps side.now) }
    ensures few { length all.new.items ≤ length all.old.items + 1 }
{
    if is_spoiled(&side.upload) {
        all.push(PlainStep::OnSide {
            image,
            step: PlainSideStep::Drop,
        });
    }
}

fn is_offset(reply: &Reply<'_>) -> bool
    ensures { result ≡ is_offset (said_of reply.now) }
{
    match reply {
        Reply::Offset { .. } => true,
        _ => false,
    }
}

/// Adds the step that moves the target of parts, where the reply to a start is an offset.
fn add_aim<'a>(all: &mut ArrayVec<PlainStep<'a>, 5>, image: u32, reply: &Reply<'_>)
    requires { length all.old.items ≤ 4 }
    ensures value { steps_of all.new.items
        ≡ steps_of all.old.items ++ aims image (said_of reply.now) }
    ensures few { length all.new.items ≤ length all.old.items + 1 }
{
    if is_offset(reply) {
        all.push(PlainStep::Run(PlainChange::AimAt { image }));
    }
}

/// What the settled side of an image does at a start, behind the steps of its settling and of the target.
pub(crate) fn begins_on<'a>(
    image: u32,
    side: &Side,
    response: PlainSideResponse<'a>,
) -> PlainResponse<'a>
    ensures { response_of result ≡ begins_on image side.now (side_response_of response.entry) }
{
    let PlainSideResponse { reply, steps: own } = response;
    let mut steps = ArrayVec::new();
    add_settling(&mut steps, image, side);
    add_aim(&mut steps, image, &reply);
    add_on_side(&mut steps, image, own.as_slice());
    PlainResponse { reply, steps }
}

/// What the settled side of an image does, behind the steps of its settling.
pub(crate) fn goes_on<'a>(
    image: u32,
    side: &Side,
    response: PlainSideResponse<'a>,
) -> PlainResponse<'a>
    ensures { response_of result ≡ settling_side image side.now [] (side_response_of response.entry) }
{
    let PlainSideResponse { reply, steps: own } = response;
    let mut steps = ArrayVec::new();
    add_settling(&mut steps, image, side);
    add_on_side(&mut steps, image, own.as_slice());
    PlainResponse { reply, steps }
}

/// What the settled device does, behind the steps by which its sides settle.
pub(crate) fn behind_settling<'a>(
    device: &AbstractDevice,
    response: PlainResponse<'a>,
) -> PlainResponse<'a>
    requires { length response.steps.items ≤ 3 }
    ensures { response_of result ≡ behind_settling device.now (response_of response.entry) }
{
    let PlainResponse { reply, steps: own } = response;
    let mut steps = ArrayVec::new();
    add_settling(&mut steps, 0, &device.first);
    if let Some(second) = &device.second {
        add_settling(&mut steps, 1, second);
    }
    add_steps(&mut steps, own.as_slice());
    PlainResponse { reply, steps }
}
