// Why a call is refused.
//
// Definitions and callers in C know a refusal by its number; specs/Refusal.antt has the numbers. include/wejumo.h tells the same.
#![tactic(auto)]

ghost use Rattle.std.specs.Prelude.{◌≡◌};
ghost use Rattle.refusal.specs.Refusal.{refusal_number};

#[derive(Clone, Copy, Debug, PartialEq, Eq)]
pub enum Refusal {
    // The start's numbers or buffers.
    BadStart,
    Closed,
    // A change before any time.
    BeforeTime,
    // A number at or above S, or an absent signal.
    NoSignal,
    WrongKind,
    BadValue,
    WorkFull,
    // No room for a block to cut, or for a joined image.
    ImageFull,
    OutputShort,
    // State or memory was altered between calls.
    Altered,
    // The opener does not accept the bytes.
    NoImage,
    // Images to join differ in S, B or a kind.
    Unlike,
    // The first image to join has no block.
    NoBlock,
    // The second image to join starts before the first ends.
    Overlap,
    // A sender that is no probe, or a signal whose record does not name the sender.
    Foreign,
}

impl Refusal {
    // 12, 13 and 17 are no refusal's.
    pub fn number(self) -> u32
        ensures { result ≡ refusal_number self }
    {
        match self {
            Refusal::BadStart => 1,
            Refusal::Closed => 2,
            Refusal::BeforeTime => 3,
            Refusal::NoSignal => 4,
            Refusal::WrongKind => 5,
            Refusal::BadValue => 6,
            Refusal::WorkFull => 7,
            Refusal::ImageFull => 8,
            Refusal::OutputShort => 9,
            Refusal::Altered => 10,
            Refusal::NoImage => 11,
            Refusal::Unlike => 14,
            Refusal::NoBlock => 15,
            Refusal::Overlap => 16,
            Refusal::Foreign => 18,
        }
    }
}
