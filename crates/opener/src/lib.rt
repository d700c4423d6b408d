// The opener: whether bytes are an image. Document 01, 'Block and image', with document 02's joins.
//
// Head, then blocks in order, each test where its bytes stand; a block has at least 20 bytes, so that reading ends with the bytes, whatever
// number of blocks the head claims. specs/Opening.antt has the tests; that they are crate codec's `walk`, and so `parse`, is proved in
// proofs/HeadLaws.antt and proofs/OpenLaws.antt.
#![tactic(auto)]

ghost use Rattle.std.specs.Prelude.{◌≡◌, ◌≤◌, length};
ghost use Rattle.std.proofs.Math.Option.{none};
ghost use Rattle.image.specs.Head.{head_size};
ghost use Rattle.loaded.specs.Opener.{open_of};
ghost use Rattle.parts.specs.Parts.{kinds_at};
ghost use Rattle.opener.specs.Opening.{numbers_fit, known_at, is_head, blocks_fill};

use blocks::block_at;
use image::kind::kind_from;
use image::layout::{
    HEAD_BLOCKS, HEAD_KINDS, HEAD_LIMIT, HEAD_SIGNALS, HEAD_TOTAL, head_size, kind_place,
};
use image::limits::{MAX_LIMIT, MAX_SIGNALS, MAX_TOTAL, MIN_LIMIT};
use numbers::little_endian::get_u32;
use signal::kind::known_kind;

// Whether the numbers of a head are those of an image of so many bytes: B, S and the total as a start takes them.
#[tactic(auto, unfolding(crate::specs::Opening::numbers_fit))]
fn numbers_fit(len: usize, signals: usize, limit: u32, total: usize) -> bool
    ensures { result ≡ numbers_fit len signals limit total }
{
    MIN_LIMIT <= limit
        && (limit <= MAX_LIMIT
            && (signals <= MAX_SIGNALS as usize
                && (total <= MAX_TOTAL && (head_size(signals) <= len && total == len))))
}

// Whether all of the kinds in a head are known.
fn kinds_known(image: &[u8], signals: usize) -> bool
    requires { head_size signals ≤ length image.now }
    ensures { result ≡ known_at signals image.now 16 }
{
    for i in 0..signals {
        if !known_kind(kind_from(get_u32(image, kind_place(i)))) {
            return false;
        }
    }
    true
}

// Whether bytes begin with a head whose total they have.
fn is_head(image: &[u8]) -> bool
    ensures { result ≡ is_head image.now }
{
    if image.len() < HEAD_KINDS {
        return false;
    }
    let signals = get_u32(image, HEAD_SIGNALS) as usize;
    let limit = get_u32(image, HEAD_LIMIT);
    let total = get_u32(image, HEAD_TOTAL) as usize;
    if !numbers_fit(image.len(), signals, limit, total) {
        return false;
    }
    kinds_known(image, signals)
}

// Whether so many blocks follow the head and fill the image.
fn blocks_fill(image: &[u8], signals: usize, limit: u32, number: u32) -> bool
    requires { (head_size signals ≤ length image.now) × (signals ≤ 65536) × (limit ≤ 65535) }
    ensures { result ≡ blocks_fill limit (kinds_at signals image.now 16) number none image.now (head_size signals) }
{
    let mut at = head_size(signals);
    let mut end = None;
    for _ in 0..number {
        let Some(block) = block_at(image, at, signals, limit, end) else {
            return false;
        };
        at = block.next;
        end = Some(block.last);
    }
    at == image.len()
}

// Whether bytes are an image: left by a list of calls, from an accepted start to an accepted finish, or joined from images.
pub fn open(image: &[u8]) -> bool
    ensures { result ≡ open_of image.now }
{
    if !is_head(image) {
        return false;
    }
    blocks_fill(
        image,
        get_u32(image, HEAD_SIGNALS) as usize,
        get_u32(image, HEAD_LIMIT),
        get_u32(image, HEAD_BLOCKS),
    )
}
