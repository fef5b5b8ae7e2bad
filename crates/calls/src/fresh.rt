// The bytes of a record before any event.
ghost use Rattle.calls.specs.Calls.{FreshReplies, gg_fresh};

// The record before any event, where 48 bytes are lent: 6 then, else 0, the numbers that `gg_fresh` has in C.
pub fn fresh_bytes(record: &mut [u8]) -> u32
    ensures { FreshReplies (gg_fresh «record».old) result «record».new }
{
    if record.len() != 48 {
        return 0;
    }
    record.fill(0);
    6
}
