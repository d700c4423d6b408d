// The text of a VCD value: the part that holds its symbols, without the prefixes. Document 01, 'Symbol and value', after the end of wellen's
// vcd.rs; the lenient prefixes are wellen's.
//
// The contracts cite specs/Vcd.antt of the crate vcd.
#![tactic(auto)]

ghost use Rattle.std.specs.Prelude.{◌≡◌};
ghost use Rattle.vcd.specs.Vcd.{without_b, without0b, text_of};

// The value without one leading `b` or `B`.
fn without_b(value: &[u8]) -> &[u8]
    ensures { result.now ≡ without_b value.now }
{
    match value {
        [b'b' | b'B', rest @ ..] => rest,
        _ => value,
    }
}

// The value without a leading `0b`, which is dropped only where more follows.
fn without_0b(value: &[u8]) -> &[u8]
    ensures { result.now ≡ without0b value.now }
{
    match value {
        [b'0', b'b', _, ..] => &value[2..],
        _ => value,
    }
}

// The part of a wider vector's value that holds its symbols.
#[tactic(auto, unfolding(vcd::specs::Vcd::text_of))]
pub fn vcd_text(value: &[u8]) -> &[u8]
    ensures { result.now ≡ text_of value.now }
{
    without_0b(without_b(value))
}
