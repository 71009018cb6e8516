//! What a device holds of its images.

use smp_model::{Announcement, Reply};
use smp_side::Held;
use smp_upload::UploadFault;

/// The images of a device: each mounted or not, and the image of parts that name none.
#[derive(Drop)]
pub struct Images {
    pub zero: Held,
    pub one: Option<Held>,
    /// The image of the last start that was answered with an offset, from 0.
    pub target: u32,
}

/// What a request about images hands back: the images, and the reply or the fault that broke it off.
#[derive(Drop)]
pub struct Replied {
    pub images: Images,
    pub result: Result<Reply<'static>, UploadFault>,
}

/// What a request about one image hands back: its side, the target, and the reply or the fault that broke it off.
#[derive(Drop)]
pub struct Asked {
    pub held: Held,
    pub target: u32,
    pub result: Result<Reply<'static>, UploadFault>,
}

/// A request about one image, of which all is right but what its side has to tell.
#[derive(Clone, Copy, Debug)]
pub enum SideRequest<'a> {
    /// The first part of an upload, and what it announces.
    Start {
        announcement: Announcement,
        bytes: &'a [u8],
    },
    /// A further part.
    Part {
        off: u32,
        tag: Option<&'a [u8]>,
        bytes: &'a [u8],
    },
    /// The upload is given up.
    Erase,
}
