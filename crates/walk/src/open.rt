// An image that the opener accepts, and a block of it.
ghost use Rattle.std.specs.Prelude.{◌≡◌, ◌<◌, false, length, MatchOption};
ghost use Rattle.lists.specs.Bytes.{Bytes};
ghost use Rattle.loaded.specs.Opener.{open_of};
ghost use Rattle.walk.specs.Walk.{Opened, image_in, block_place};

use opener::open;

// The bytes of an image, which the opener accepts: what reads them need not ask again.
#[derive(Clone, Copy)]
pub struct OpenImage<'a> {
    pub bytes: &'a [u8],
    pub ghost fits: { Bytes bytes.now },
    pub ghost opened: { Opened bytes.now },
}

// A block of an image, by its number from 0, and by the byte at which it begins.
#[derive(Clone, Copy)]
pub struct Block<'a> {
    pub image: OpenImage<'a>,
    pub number: u32,
    pub at: usize,
    pub ghost exists: { number < length (image_in image.bytes.now).blocks },
    pub ghost place: { at ≡ block_place (image_in image.bytes.now) number },
}

impl<'a> OpenImage<'a> {
    // An image that was opened before.
    pub fn opened(bytes: &'a [u8]) -> OpenImage<'a>
        requires { Opened bytes.now }
        ensures { result.bytes.now ≡ bytes.now }
    {
        OpenImage { bytes }
    }

    // None where the opener does not accept the bytes.
    pub fn open(bytes: &'a [u8]) -> Option<OpenImage<'a>>
        ensures { MatchOption result (open_of bytes.now ≡ false) (λ i. i.bytes.now ≡ bytes.now) }
    {
        if !open(bytes) {
            return None;
        }
        Some(OpenImage { bytes })
    }
}
