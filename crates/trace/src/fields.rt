// Big-endian fields of a slice, each 0 where the slice does not have it whole. Slice and place go side by side, the form that document 01
// names for what `reader` is thin functions over.
ghost use Rattle.std.specs.Prelude.{◌≡◌};
ghost use Rattle.trace.specs.Fields.{has as has_of, two_at, four_at, eight_at};

use page::bytes::bytes_within;

// The slice has n bytes from a place on.
pub fn has(bytes: &[u8], at: usize, n: usize) -> bool
    ensures { result ≡ has_of bytes.now at n }
{
    let len = bytes.len();
    n <= len && at <= len - n
}

// A line for each width over `bytes_within`: a trait of the widths would have the same lines in its impls.
pub fn two_at(bytes: &[u8], at: usize) -> u16
    ensures { result ≡ two_at bytes.now at }
{
    bytes_within(bytes, at).map_or(0, u16::from_be_bytes)
}

pub fn four_at(bytes: &[u8], at: usize) -> u32
    ensures { result ≡ four_at bytes.now at }
{
    bytes_within(bytes, at).map_or(0, u32::from_be_bytes)
}

pub fn eight_at(bytes: &[u8], at: usize) -> u64
    ensures { result ≡ eight_at bytes.now at }
{
    bytes_within(bytes, at).map_or(0, u64::from_be_bytes)
}
