// The head of an accepted image.
ghost use Rattle.std.specs.Prelude.{◌≡◌, length};
ghost use Rattle.loaded.specs.Opener.{kind_at};
ghost use Rattle.walk.specs.Open.{image_of};

use crate::open::OpenImage;
use image::kind::kind_from;
use image::layout::{HEAD_BLOCKS, HEAD_LIMIT, HEAD_SIGNALS, kind_place};
use numbers::little_endian::get_u32;
use signal::kind::SignalEncoding;

impl<'a> OpenImage<'a> {
    // How many signals there are.
    pub fn signal_count(self) -> u32
        ensures { result ≡ length (image_of self.entry).kinds }
    {
        get_u32(self.bytes, HEAD_SIGNALS)
    }

    // B: how many times a block holds at most.
    pub fn block_limit(self) -> u32
        ensures { result ≡ (image_of self.entry).limit }
    {
        get_u32(self.bytes, HEAD_LIMIT)
    }

    // How many blocks there are.
    pub fn block_count(self) -> u32
        ensures { result ≡ length (image_of self.entry).blocks }
    {
        get_u32(self.bytes, HEAD_BLOCKS)
    }

    // A signal's kind; past the signals stands an absent one.
    pub fn kind_at(self, signal: u32) -> SignalEncoding
        ensures { result ≡ kind_at (image_of self.entry) signal }
    {
        if self.signal_count() <= signal {
            return SignalEncoding::Absent;
        }
        kind_from(get_u32(self.bytes, kind_place(signal as usize)))
    }
}
