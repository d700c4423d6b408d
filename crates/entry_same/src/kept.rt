// Whether a change repeats the one that was kept last.
ghost use Rattle.std.specs.Prelude.{◌≡◌};
ghost use Rattle.entry.specs.Read.{content_read, Reads};
ghost use Rattle.entry_same.specs.Kept.{repeats_kept, kept_content, KeptReads};

use crate::same::same_content;
use entry::read::PlacedChange;
use signal::kind::SignalEncoding;

// Whether a change repeats the one that was kept last, if one was.
// Inlined: a caller asks for each change of a stream, and for most kinds the answer is a comparison.
#[inline(always)]
pub fn repeats_last(
    image: &[u8],
    kind: SignalEncoding,
    last: Option<PlacedChange>,
    change: PlacedChange,
) -> bool
    requires { KeptReads kind image.now last × Reads kind image.now change.value change.next }
    ensures { result ≡ repeats_kept (kept_content kind image.now last) (content_read kind image.now change.value change.next) }
{
    match last {
        None => false,
        Some(kept) => same_content(image, kind, kept, change),
    }
}
