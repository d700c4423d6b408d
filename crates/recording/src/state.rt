// What becomes of a skip, whose it is, and the states that are made whole: code that changes a field or two names these and not every field.
ghost use Rattle.std.specs.Prelude.{◌≡◌, ◌≤◌};
ghost use Rattle.recording.specs.State.{no_skip, skip_begun, skip_ended, skip_same, skip_counted, no_skips, skip_of, with_skip, start_state};

use crate::{EDITION_2, Encoder, ProbeSkip, Settings, Skips};
use image::layout::head_size;

impl ProbeSkip {
    // At a start.
    pub fn none() -> ProbeSkip
        ensures { result ≡ no_skip }
    {
        ProbeSkip {
            on: false,
            count: 0,
        }
    }

    // A time went back.
    pub fn begun(self) -> ProbeSkip
        ensures { result ≡ skip_begun self }
    {
        ProbeSkip { on: true, ..self }
    }

    // It ends, as where a time was taken.
    pub fn ended(self) -> ProbeSkip
        ensures { result ≡ skip_ended self }
    {
        ProbeSkip { on: false, ..self }
    }

    // An equal time came: it ends a skip in edition 2.
    pub fn after_same(self, edition: u32) -> ProbeSkip
        ensures { result ≡ skip_same edition self }
    {
        if edition == EDITION_2 {
            self.ended()
        } else {
            self
        }
    }

    // A change was skipped.
    pub fn counted(self) -> ProbeSkip
        ensures { result ≡ skip_counted self }
    {
        if self.count < u32::MAX {
            ProbeSkip {
                count: self.count + 1,
                ..self
            }
        } else {
            self
        }
    }
}

impl Skips {
    // At a start.
    pub fn none() -> Skips
        ensures { result ≡ no_skips }
    {
        Skips {
            zero: ProbeSkip::none(),
            one: ProbeSkip::none(),
        }
    }

    // A sender's.
    pub fn of(self, sender: u32) -> ProbeSkip
        ensures { result ≡ skip_of self sender }
    {
        if sender == 0 { self.zero } else { self.one }
    }

    // The sender's becomes this one; the other probe's stays.
    pub fn with(self, sender: u32, skip: ProbeSkip) -> Skips
        ensures { result ≡ with_skip self sender skip }
    {
        if sender == 0 {
            Skips { zero: skip, ..self }
        } else {
            Skips { one: skip, ..self }
        }
    }
}

impl Encoder {
    // As a start leaves it: no times and no blocks; of the image its head is used.
    pub fn started(settings: Settings) -> Encoder
        requires { settings.signals ≤ 65536 }
        ensures { result ≡ start_state settings }
    {
        let image = head_size(settings.signals as usize) as u32;
        Encoder {
            closed: false,
            limit: settings.limit,
            signals: settings.signals,
            held: 0,
            work: 0,
            image,
            blocks: 0,
            edition: settings.edition,
            skips: Skips::none(),
        }
    }
}
