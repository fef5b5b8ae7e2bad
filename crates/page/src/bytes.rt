// Bytes and little-endian words of a page.
ghost use Rattle.std.specs.Prelude.{◌≡◌, ◌+◌, ◌<◌, ◌≤◌, length, MatchOption};
ghost use Rattle.page.specs.Page.{AreBytes, byte_at, half_at, word_at, long_at, word_within, long_within};

// The byte at a place of the slice, 0 past its end.
fn byte_from(page: &[u8], at: usize) -> u8
    ensures { result ≡ byte_at page.now at }
{
    page.get(at).copied().unwrap_or(0)
}

// N bytes where the slice has them all.
pub fn bytes_within<const N: usize>(page: &[u8], at: usize) -> Option<[u8; N]>
    ensures { MatchOption result (length page.now < at + N) (λ bytes. (at + N ≤ length page.now) × AreBytes page.now at N bytes) }
{
    page.get(at..at.checked_add(N)?)?.first_chunk().copied()
}

// N bytes of which the slice may lack some.
fn bytes_past<const N: usize>(page: &[u8], offset: u16) -> [u8; N]
    ensures { AreBytes page.now offset N result }
{
    let mut bytes = [0; N];
    for (i, byte) in bytes.iter_mut().enumerate() {
        *byte = byte_from(page, offset as usize + i);
    }
    bytes
}

// N bytes, 0 past the slice's end.
fn bytes_at<const N: usize>(page: &[u8], offset: u16) -> [u8; N]
    ensures { AreBytes page.now offset N result }
{
    match bytes_within(page, offset as usize) {
        Some(bytes) => bytes,
        None => bytes_past(page, offset),
    }
}

pub fn byte_at(page: &[u8], offset: u16) -> u8
    ensures { result ≡ byte_at page.now offset }
{
    byte_from(page, offset as usize)
}

// A line for each width over `bytes_at`, and over `bytes_within`: a trait of the widths would have the same lines in its impls.
pub fn half_at(page: &[u8], offset: u16) -> u16
    ensures { result ≡ half_at page.now offset }
{
    u16::from_le_bytes(bytes_at(page, offset))
}

pub fn word_at(page: &[u8], offset: u16) -> u32
    ensures { result ≡ word_at page.now offset }
{
    u32::from_le_bytes(bytes_at(page, offset))
}

pub fn long_at(page: &[u8], offset: u16) -> u64
    ensures { result ≡ long_at page.now offset }
{
    u64::from_le_bytes(bytes_at(page, offset))
}

// Four bytes where the slice has them all, else 0.
pub fn word_within(page: &[u8], offset: u16) -> u32
    ensures { result ≡ word_within page.now offset }
{
    bytes_within(page, offset as usize).map_or(0, u32::from_le_bytes)
}

// Eight bytes where the slice has them all, else 0.
pub fn long_within(page: &[u8], offset: u16) -> u64
    ensures { result ≡ long_within page.now offset }
{
    bytes_within(page, offset as usize).map_or(0, u64::from_le_bytes)
}
