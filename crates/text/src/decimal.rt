// A character, and a number in decimal, by hand and not by `Display`: `Writes` says what stands in a buffer that is too short. Each
// function takes the buffer and the place, and hands back the new one: as a struct with methods the place goes through memory, and a line
// takes 9 to 45 instructions more.
ghost use Rattle.std.specs.Prelude.{◌≤◌, ◌<◌, ◌+◌, ◌^◌, ◌≡◌, [], ◌∷◌, length};
ghost use Rattle.text.specs.Decimal.{digit as digit_of, last_digits as last_digits_of, decimal as decimal_of};
ghost use Rattle.text.specs.Lines.{field as field_of};
ghost use Rattle.text.specs.Written.{Writes};

// What brings each of a number's last four digits to its end, the last one first.
const TENS: [u64; 4] = [1, 10, 100, 1000];

// One character, or nothing past the buffer's end; a test and no `get_mut`, whose contract leaves open what the buffer becomes.
fn put(out: &mut [u8], at: u64, byte: u8) -> u64
    requires { at < 2 ^ 40 }
    ensures { Writes out.old at (byte ∷ []) result out.new }
{
    let place = at as usize;
    if place < out.len() {
        out[place] = byte;
    }
    at + 1
}

// Characters one after another.
pub fn put_all(out: &mut [u8], at: u64, text: &[u8]) -> u64
    requires { at + length text.now < 2 ^ 40 }
    ensures { Writes out.old at text.now result out.new }
{
    let mut next = at;
    for byte in text {
        next = put(out, next, *byte);
    }
    next
}

// The character of a number's last digit.
fn digit(n: u64) -> u8
    ensures { result ≡ digit_of n }
{
    b'0' + (n % 10) as u8
}

// A number's last K digits, at most four.
fn last_digits<const K: usize>(out: &mut [u8], at: u64, n: u64) -> u64
    requires { (at < 2 ^ 38) × (K ≤ 4) }
    ensures { Writes out.old at (last_digits_of K n) result out.new }
{
    let mut next = at;
    for k in (0..K).rev() {
        next = put(out, next, digit(n / TENS[k]));
    }
    next
}

// One to four digits.
fn short(out: &mut [u8], at: u64, n: u64) -> u64
    requires { (at < 2 ^ 38) × (n < 10000) }
    ensures { Writes out.old at (decimal_of n) result out.new }
{
    match n {
        0..=9 => put(out, at, digit(n)),
        10..=99 => last_digits::<2>(out, at, n),
        100..=999 => last_digits::<3>(out, at, n),
        _ => last_digits::<4>(out, at, n),
    }
}

// The digits of a number, the highest first: one to four, or those of the rest and the last four.
fn decimal(out: &mut [u8], at: u64, n: u64) -> u64
    requires { at < 2 ^ 36 }
    ensures { Writes out.old at (decimal_of n) result out.new }
{
    if n < 10000 {
        return short(out, at, n);
    }
    let next = decimal(out, at, n / 10000);
    last_digits::<4>(out, next, n)
}

// A number and the character after it.
pub fn field(out: &mut [u8], at: u64, n: u64, after: u8) -> u64
    requires { at < 2 ^ 36 }
    ensures { Writes out.old at (field_of n after) result out.new }
{
    if n < 10000 {
        let next = short(out, at, n);
        return put(out, next, after);
    }
    let next = decimal(out, at, n);
    put(out, next, after)
}

// The same in a line, where most numbers have one digit.
pub fn line_field(out: &mut [u8], at: u64, n: u64, after: u8) -> u64
    requires { at < 2 ^ 36 }
    ensures { Writes out.old at (field_of n after) result out.new }
{
    if n < 10 {
        let next = put(out, at, digit(n));
        return put(out, next, after);
    }
    field(out, at, n, after)
}
