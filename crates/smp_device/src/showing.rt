//! What a device shows of its images.

ghost use Rattle.std.specs.Prelude.{◌≡◌, Some};
ghost use Rattle.smp_upload.specs.States.{known_mounted};
ghost use Rattle.smp_device.specs.Showing.{shown_at, shown_held, shown_known};

use crate::images::Images;
use smp_model::{Announcement, Mark};
use smp_side::Held;
use smp_upload::Mounted;

/// Whether the image that runs was confirmed when the device was started, for each image.
#[derive(Clone, Copy, Debug, PartialEq, Eq)]
pub struct Confirmed {
    pub zero: bool,
    pub one: bool,
}

/// What is known of an image.
#[derive(Clone, Copy, Debug, PartialEq, Eq)]
pub struct Shown {
    /// The upload that is under way or complete: what it announced, and how many bytes were accepted.
    pub upload: Option<(Announcement, u32)>,

    /// How the image in the secondary slot is to run at the next start of the system.
    pub pending: Option<Mark>,

    /// The image that runs was confirmed when the device was started.
    pub confirmed: bool,
}

/// What a mounted side shows.
fn show_mounted(mounted: &Mounted, confirmed: bool) -> Shown
    ensures { result ≡ shown_known confirmed (known_mounted mounted.now) }
{
    match mounted {
        Mounted::Idle(_) => Shown {
            upload: None,
            pending: None,
            confirmed,
        },
        Mounted::Receiving(state) => Shown {
            upload: Some((state.announcement, state.offset)),
            pending: None,
            confirmed,
        },
        Mounted::Whole(state) => Shown {
            upload: Some((state.announcement, state.announcement.length)),
            pending: None,
            confirmed,
        },
        Mounted::Pending(state) => Shown {
            upload: Some((state.announcement, state.announcement.length)),
            pending: Some(state.mark),
            confirmed,
        },
    }
}

/// What a side shows: nothing exactly where it is not mounted.
fn show_held(held: &Held, confirmed: bool) -> Option<Shown>
    ensures { result ≡ shown_held confirmed held.now }
{
    match held {
        Held::Unmounted(_) => None,
        Held::Mounted(mounted) => Some(show_mounted(mounted, confirmed)),
    }
}

/// What an image shows: nothing where there is no such image.
pub fn show(images: &Images, image: u32, confirmed: Confirmed) -> Option<Shown>
    ensures { result ≡ shown_at image images.now confirmed }
{
    if image == 0 {
        return show_held(&images.zero, confirmed.zero);
    }
    if image != 1 {
        return None;
    }
    match &images.one {
        Some(held) => show_held(held, confirmed.one),
        None => None,
    }
}
