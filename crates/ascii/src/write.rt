// Text put into a buffer from a place on. Each function answers the place after it.
ghost use Rattle.std.specs.Prelude.{◌≡◌, ◌∷◌, [], ◌<◌};
ghost use Rattle.ascii.specs.Ascii.{digit_code, decimal, hexadecimal};
ghost use Rattle.ascii.specs.Put.{Room, Puts};

// Writes a text from a place on, and answers the place after it.
pub fn put_text(out: &mut [u8], at: usize, text: &[u8]) -> usize
    requires { Room text.now at out.old }
    ensures { Puts text.now at out.old result out.new }
{
    let end = at + text.len();
    out[at..end].copy_from_slice(text);
    end
}

fn digit(d: u64) -> u8
    requires { d < 16 }
    ensures { result ≡ digit_code d }
{
    if d < 10 {
        b'0' + d as u8
    } else {
        b'a' + (d as u8 - 10)
    }
}

fn put_digit(out: &mut [u8], at: usize, d: u64) -> usize
    requires { (d < 16) × Room (digit_code d ∷ []) at out.old }
    ensures { Puts (digit_code d ∷ []) at out.old result out.new }
{
    out[at] = digit(d);
    at + 1
}

// In decimal, without zeros in front.
pub fn put_decimal(out: &mut [u8], at: usize, n: u64) -> usize
    requires { Room (decimal n) at out.old }
    ensures { Puts (decimal n) at out.old result out.new }
{
    if n < 10 {
        return put_digit(out, at, n);
    }
    let p = put_decimal(out, at, n / 10);
    put_digit(out, p, n % 10)
}

// So many hexadecimal digits, the highest first.
fn put_hex_digits(out: &mut [u8], at: usize, places: u32, n: u64) -> usize
    requires { Room (hexadecimal places n) at out.old }
    ensures { Puts (hexadecimal places n) at out.old result out.new }
{
    if places == 0 {
        return at;
    }
    let p = put_hex_digits(out, at, places - 1, n / 16);
    put_digit(out, p, n % 16)
}

// As 16 hexadecimal digits.
pub fn put_hex(out: &mut [u8], at: usize, n: u64) -> usize
    requires { Room (hexadecimal 16 n) at out.old }
    ensures { Puts (hexadecimal 16 n) at out.old result out.new }
{
    put_hex_digits(out, at, 16, n)
}
