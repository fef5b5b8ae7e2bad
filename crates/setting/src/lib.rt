// One vector of a 256-bit register of a lent page set or cleared. A slice may have any length.
#![tactic(auto, unfolding(registers::specs::Vectors::put_vector))]

ghost use Rattle.std.specs.Prelude.{◌≡◌, ◌%◌};
ghost use Rattle.registers.specs.Vectors.{vector_byte, put_bit, put_vector};

fn vector_byte(vector: u8) -> usize
    ensures { result ≡ vector_byte vector }
{
    let v = vector as usize;
    v / 32 * 16 + v % 32 / 8
}

// A byte with one bit on, or off.
fn put_bit(byte: u8, vector: u8, on: bool) -> u8
    ensures { result ≡ put_bit byte (vector % 8) on }
{
    let mask = 1u8 << (vector % 8);
    if on { byte | mask } else { byte & !mask }
}

// The vector's bit on, or off, in a register that starts where the slice does; a test and no `get_mut`, whose contract leaves open what
// the slice becomes.
fn put_in(register: &mut [u8], vector: u8, on: bool)
    ensures { register.new ≡ put_vector register.old 0 vector on }
{
    let at = vector_byte(vector);
    if at < register.len() {
        register[at] = put_bit(register[at], vector, on);
    }
}

// The vector's bit on, or off, in the page's register at the base.
pub fn put_vector(page: &mut [u8], base: u16, vector: u8, on: bool)
    ensures { page.new ≡ put_vector page.old base vector on }
{
    let at = base as usize;
    if at <= page.len() {
        put_in(&mut page[at..], vector, on);
    }
}
