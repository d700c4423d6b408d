// A change's value in each of its notations: what it says to a signal of a kind, and the bytes of its change in a stream. Document 01,
// 'Symbol and value'.
//
// A caller that is generic over `GivenValue` is compiled once for each notation. It is a crate of its own so that a wrong claim is refused in
// a short check.
#![tactic(auto)]

ghost use Rattle.std.specs.Prelude.{◌≡◌, ◌+◌, ◌≤◌, length};
ghost use Rattle.std.proofs.lemmas.List.Edits.{sets};
ghost use Rattle.value.specs.Class.{class_number};
ghost use Rattle.signal.specs.Content.{Given, vcd, raw, real, decode};
ghost use Rattle.signal.specs.Answer.{decoded_as};
ghost use Rattle.stream.specs.Stream.{max_delta};
ghost use Rattle.stream.specs.Answer.{Says, said_bytes};

use refusal::Refusal;
use signal::decode::{ChangeValue, DecodedChange};
use signal::kind::SignalEncoding;
use signal_decode::{decode_raw, decode_real, decode_vcd};
use stream_write::{put_raw_change, put_real_change, put_vcd_change};
use value::states::States;

// A change's value, as a caller gives it.
pub trait GivenValue: Copy {
    ghost given: { Self → Given };

    // What it says to a signal of a kind.
    fn decode_to(&self, kind: SignalEncoding) -> Result<DecodedChange, Refusal>
        ensures { result ≡ decoded_as kind (decode kind (given self.now)) };

    // Writes the change that it says, d after the one before it; change is decoding's answer for it.
    fn put_change(
        &self,
        out: &mut [u8],
        at: usize,
        kind: SignalEncoding,
        d: u32,
        change: ChangeValue,
    ) -> usize
        requires said { (d ≤ max_delta) × Says kind (given self.now) change }
        requires room { at + length (said_bytes kind d (given self.now)) ≤ length out.old }
        ensures { (result ≡ at + length (said_bytes kind d (given self.now))) × (out.new ≡ sets out.old at (said_bytes kind d (given self.now))) };
}

// A VCD value's bytes.
#[derive(Clone, Copy)]
pub struct VcdBytes<'b>(pub &'b [u8]);

// A raw value's bytes, with the number of the class that it claims.
#[derive(Clone, Copy)]
pub struct RawBytes<'b> {
    pub claim: u32,
    pub bytes: &'b [u8],
}

// The 64 bits of a real's f64.
#[derive(Clone, Copy)]
pub struct RealBits(pub u64);

impl<'b> GivenValue for VcdBytes<'b> {
    ghost given = { λ v. vcd v.0.now };

    fn decode_to(&self, kind: SignalEncoding) -> Result<DecodedChange, Refusal> {
        decode_vcd(kind, self.0)
    }

    fn put_change(
        &self,
        out: &mut [u8],
        at: usize,
        kind: SignalEncoding,
        d: u32,
        change: ChangeValue,
    ) -> usize {
        put_vcd_change(out, at, kind, d, self.0, change)
    }
}

impl<'b> GivenValue for RawBytes<'b> {
    ghost given = { λ v. raw v.claim v.bytes.now };

    fn decode_to(&self, kind: SignalEncoding) -> Result<DecodedChange, Refusal> {
        decode_raw(kind, self.claim, self.bytes)
    }

    fn put_change(
        &self,
        out: &mut [u8],
        at: usize,
        kind: SignalEncoding,
        d: u32,
        change: ChangeValue,
    ) -> usize {
        put_raw_change(out, at, kind, d, self.claim, self.bytes, change)
    }
}

impl GivenValue for RealBits {
    ghost given = { λ v. real v.0 };

    fn decode_to(&self, kind: SignalEncoding) -> Result<DecodedChange, Refusal> {
        decode_real(kind, self.0)
    }

    // Only a real's signal hears a real, so the kind and the answer are known.
    fn put_change(
        &self,
        out: &mut [u8],
        at: usize,
        _kind: SignalEncoding,
        d: u32,
        _change: ChangeValue,
    ) -> usize {
        put_real_change(out, at, d, self.0)
    }
}

// A raw value that claims a class.
pub fn raw_notation<'b>(claim: States, bytes: &'b [u8]) -> RawBytes<'b>
    ensures { (result.claim ≡ class_number claim) × (result.bytes.now ≡ bytes.now) }
{
    RawBytes {
        claim: u32::from(claim.number()),
        bytes,
    }
}
