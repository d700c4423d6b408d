// Where the numbers of a head and of a block stand. Document 01, 'Block and image'.
//
// The places are those of specs/Head.antt and specs/Block.antt; other crates take them from here. Those in a block count from its first byte.
ghost use Rattle.std.specs.Prelude.{◌≡◌, ◌<◌};
ghost use Rattle.image.specs.Head.{head_size, kind_place};
ghost use Rattle.image.specs.Block.{offset_place, times_place, front_size};

// In the head: S.
pub const HEAD_SIGNALS: usize = 0;

// In the head: B.
pub const HEAD_LIMIT: usize = 4;

// In the head: N.
pub const HEAD_BLOCKS: usize = 8;

// In the head: the total.
pub const HEAD_TOTAL: usize = 12;

// In the head: the kinds.
pub const HEAD_KINDS: usize = 16;

// In a block: how many bytes it has.
pub const BLOCK_SIZE: usize = 0;

// In a block: T.
pub const BLOCK_TIMES: usize = 4;

// In a block: S.
pub const BLOCK_SIGNALS: usize = 8;

// In a block: the offsets.
pub const BLOCK_OFFSETS: usize = 12;

// How many bytes the head of so many signals has; the blocks follow it.
pub fn head_size(signals: usize) -> usize
    requires { head_size signals < 18446744073709551616 }
    ensures { result ≡ head_size signals }
{
    HEAD_KINDS + 4 * signals
}

// Where a signal's kind stands in the head.
pub fn kind_place(signal: usize) -> usize
    requires { kind_place signal < 18446744073709551616 }
    ensures { result ≡ kind_place signal }
{
    HEAD_KINDS + 4 * signal
}

// Where a signal's offset stands in a block.
pub fn offset_place(signal: usize) -> usize
    requires { offset_place signal < 18446744073709551616 }
    ensures { result ≡ offset_place signal }
{
    BLOCK_OFFSETS + 4 * signal
}

// Where the times of a block of so many signals begin.
pub fn times_place(signals: usize) -> usize
    requires { times_place signals < 18446744073709551616 }
    ensures { result ≡ times_place signals }
{
    BLOCK_OFFSETS + 4 * signals
}

// Where the data of a block of so many signals and times begin.
pub fn data_start(signals: usize, times: usize) -> usize
    requires { front_size signals times < 18446744073709551616 }
    ensures { result ≡ front_size signals times }
{
    BLOCK_OFFSETS + 4 * signals + 8 * times
}
