// Bytes and little-endian words stored in a page.
ghost use Rattle.std.specs.Prelude.{◌≡◌};
ghost use Rattle.stores.specs.Stores.{set_bytes, set_byte, set_half, set_word, set_long};

// A byte stored at a place of the slice, nothing past its end; a test and no `get_mut`, whose contract leaves open what the slice becomes.
fn set_byte_from(page: &mut [u8], at: usize, value: u8)
    ensures { page.new ≡ set_byte page.old at value }
{
    if at < page.len() {
        page[at] = value;
    }
}

// N bytes of which the slice may lack some.
fn set_past<const N: usize>(page: &mut [u8], offset: u16, bytes: [u8; N])
    ensures { page.new ≡ set_bytes page.old offset bytes.entry }
{
    for (i, byte) in bytes.iter().enumerate() {
        set_byte_from(page, offset as usize + i, *byte);
    }
}

// N bytes stored, nothing past the slice's end.
#[tactic(auto, using(crate::proofs::Whole::overwritten))]
fn set_bytes<const N: usize>(page: &mut [u8], offset: u16, bytes: [u8; N])
    ensures { page.new ≡ set_bytes page.old offset bytes.entry }
{
    let at = offset as usize;
    if at + N <= page.len() {
        page[at..at + N].copy_from_slice(&bytes);
    } else {
        set_past(page, offset, bytes);
    }
}

pub fn set_byte(page: &mut [u8], offset: u16, value: u8)
    ensures { page.new ≡ set_byte page.old offset value }
{
    set_byte_from(page, offset as usize, value);
}

// A line for each width over `set_bytes`: a trait of the widths would have the same lines in its impls.
pub fn set_half(page: &mut [u8], offset: u16, value: u16)
    ensures { page.new ≡ set_half page.old offset value }
{
    set_bytes::<2>(page, offset, value.to_le_bytes());
}

pub fn set_word(page: &mut [u8], offset: u16, value: u32)
    ensures { page.new ≡ set_word page.old offset value }
{
    set_bytes::<4>(page, offset, value.to_le_bytes());
}

pub fn set_long(page: &mut [u8], offset: u16, value: u64)
    ensures { page.new ≡ set_long page.old offset value }
{
    set_bytes::<8>(page, offset, value.to_le_bytes());
}
