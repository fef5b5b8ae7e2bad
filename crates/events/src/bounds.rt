// The bounds of an event's fields.
ghost use Rattle.std.specs.Prelude.{◌≡◌, not, ◌&&◌};
ghost use Rattle.events.specs.Events.{vector_in_bounds, offset_in_bounds, size_in_bounds, value_in_bounds};

use processor::access::MemoryAccess;

// How many there are: vectors, offsets on a page, CR8 values, registers, activities.
pub const VECTORS: u16 = 256;

pub const OFFSETS: u16 = 4096;

pub const CR8_VALUES: u8 = 16;

pub const REGISTERS: u8 = 16;

pub const ACTIVITIES: u8 = 4;

// A vector asked for, at the width of any call.
pub fn vector_in_bounds(vector: u32) -> bool
    ensures { result ≡ vector_in_bounds vector }
{
    vector < VECTORS as u32
}

fn size_in_bounds(size: u8) -> bool
    ensures { result ≡ size_in_bounds size }
{
    (size == 1) | (size == 2) | (size == 4) | (size == 8)
}

// Every value fits 8 bytes; past a smaller size nothing of it is left.
fn value_in_bounds(size: u8, value: u64) -> bool
    ensures { result ≡ value_in_bounds size value }
{
    let bits = 8 * (size % 8);
    size_in_bounds(size) & ((size == 8) | (value >> bits == 0))
}

// The fields of a memory read.
pub fn memory_read_in_bounds(access: MemoryAccess) -> bool
    ensures { result ≡ (offset_in_bounds access.offset && size_in_bounds access.size) }
{
    (access.offset < OFFSETS) & size_in_bounds(access.size)
}

// The fields of a memory write, whose fetch flag must be off.
pub fn memory_write_in_bounds(access: MemoryAccess, value: u64) -> bool
    ensures { result ≡ (offset_in_bounds access.offset && value_in_bounds access.size value && not access.fetch) }
{
    (access.offset < OFFSETS) & value_in_bounds(access.size, value) & !access.fetch
}
