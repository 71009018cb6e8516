//! Marks and confirmations, over images of which all are mounted.

ghost use Rattle.std.specs.Prelude.{◌≡◌, true, Some, IfOk, IfSome};
ghost use Rattle.smp_flash.specs.Layout.{geometry_of};
ghost use Rattle.smp_side.specs.Held.{Answers, IsAnswer, is_mounted, is_ok, response_of};
ghost use Rattle.smp_side.specs.declared.held.Held.TheVariants as helds;
ghost use Rattle.smp_upload.specs.States.{Says, known_mounted};
ghost use Rattle.smp_model.specs.Said.{said_of};
ghost use Rattle.smp_device.specs.Answers.{ImagesAnswer, IsImageReply};
ghost use Rattle.smp_device.specs.Mounts.{MountsSettled};
ghost use Rattle.smp_device.specs.Places.{ArePlaces};
ghost use Rattle.smp_device.specs.Setting.{CanAct, act_steps, acts_on, is_done};
ghost use Rattle.smp_device.specs.Settling.{SettledSay, both_places, both_settled, settled_places};

use crate::images::{Images, Replied};
use crate::laws::side_laws;
use crate::lists::list_settled;
use crate::settled::{Settled, held_of};
use smp_flash::Flash;
use smp_model::{Mark, Reply};
use smp_side::{Handed, Held, confirm, mark};
use smp_upload::{Mounted, UploadFault};

/// What is to be done with an image.
#[derive(Clone, Copy, Debug)]
pub enum Act {
    /// The image that runs is to stay; or it is to be marked for a test, which is refused.
    Confirm(bool),
    /// The image that was uploaded is to run.
    Mark(Mark),
}

/// Does it on a side.
fn act_on<F: Flash>(mounted: Mounted, flash: &mut F, act: Act) -> Handed
    requires layout { geometry_of (known_mounted mounted).layout ≡ (F.state flash.old).geometry }
    requires says { IfSome (F.state flash.old).bytes (Says (known_mounted mounted)) }
    requires can { CanAct act mounted }
    ensures answers { Answers (known_mounted mounted).layout 0 (λ side. response_of (act_steps act side)) result (F.state flash.old) (F.state flash.new) }
    ensures answer { IfOk result.result (λ reply. IsAnswer (said_of reply)) }
{
    match act {
        Act::Confirm(asked) => confirm(mounted, flash, asked),
        Act::Mark(asked) => mark(mounted, flash, asked),
    }
}

/// The state of a side that is mounted.
fn mounted_of(held: Held) -> Mounted
    requires { is_mounted held ≡ true }
    ensures { held ≡ helds.Mounted result }
{
    match held {
        Held::Mounted(mounted) => mounted,
        Held::Unmounted(_) => unreachable!(),
    }
}

/// It is done: the reply has nothing to say.
fn is_done(answer: &Result<Reply<'static>, UploadFault>) -> bool
    ensures { result ≡ is_done answer.now }
{
    match answer {
        Ok(reply) => match reply {
            Reply::Empty => true,
            _ => false,
        },
        Err(_) => false,
    }
}

/// The images of a device of two, of which the other is mounted.
pub fn with_second(zero: Held, one: Held, target: u32) -> Images
    ensures { result ≡ record { zero = zero; one = Some one; target = target } }
{
    Images {
        zero,
        one: Some(one),
        target,
    }
}

/// Does it on image 0, and lists the images.
pub fn act_first<F: Flash>(settled: Settled, flash: &mut F, act: Act) -> Replied
    requires places { ArePlaces (F.state flash.old).geometry (settled_places settled) }
    requires says { IfSome (F.state flash.old).bytes (SettledSay settled) }
    requires can { CanAct act settled.zero }
    ensures answers { ImagesAnswer (settled_places settled) 0 settled.target (acts_on act 0) result.images result.result (F.state flash.old) (F.state flash.new) }
    ensures answer { IfOk result.result (λ reply. IsImageReply (said_of reply)) }
    ensures mounts { MountsSettled result.images.zero result.images.one (is_ok result.result) }
{
    side_laws();
    let Settled { zero, one, target } = settled;
    let handed = act_on(zero, flash, act);
    if !is_done(&handed.result) {
        return Replied {
            images: Images {
                zero: handed.held,
                one: held_of(one),
                target,
            },
            result: handed.result,
        };
    }
    let settled = Settled {
        zero: mounted_of(handed.held),
        one,
        target,
    };
    list_settled(settled, flash)
}

/// Does it on image 1, and lists the images.
pub fn act_second<F: Flash>(
    zero: Mounted,
    one: Mounted,
    target: u32,
    flash: &mut F,
    act: Act,
) -> Replied
    requires places { ArePlaces (F.state flash.old).geometry (both_places zero one) }
    requires says { IfSome (F.state flash.old).bytes (SettledSay (both_settled zero one target)) }
    requires can { CanAct act one }
    ensures answers { ImagesAnswer (both_places zero one) 0 target (acts_on act 1) result.images result.result (F.state flash.old) (F.state flash.new) }
    ensures answer { IfOk result.result (λ reply. IsImageReply (said_of reply)) }
    ensures mounts { MountsSettled result.images.zero result.images.one (is_ok result.result) }
{
    side_laws();
    let handed = act_on(one, flash, act);
    if !is_done(&handed.result) {
        return Replied {
            images: with_second(Held::Mounted(zero), handed.held, target),
            result: handed.result,
        };
    }
    let settled = Settled {
        zero,
        one: Some(mounted_of(handed.held)),
        target,
    };
    list_settled(settled, flash)
}
