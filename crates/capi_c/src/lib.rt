// The boundary that a C simulator links: the functions of `capi`, exported under their names with their promises:
// an export stands in a crate that is an archive, and a proof of one crate cites the functions of another.
#![tactic(auto)]

ghost use Rattle.std.specs.Prelude.{List, ℕ};
ghost use Rattle.calls.specs.Calls.{Handed, FreshReplies, gg_highest, gg_fresh};
ghost use Rattle.replies.specs.Replies.{Replies, RepliesLent, gg_step, gg_external_interrupt, gg_leave};

// One event on a page and a record: the answer's number comes back, its two values go to first and second.
#[unsafe(no_mangle)]
pub extern "C" fn gg_step(
    page: &mut [u8],
    record: &mut [u8],
    event: &[u8],
    first: &mut u64,
    second: &mut u64,
) -> u32
    ensures { Replies (gg_step page.old «record».old event.now) result first.new second.new «record».new page.new }
{
    capi::gg_step(page, record, event, first, second)
}

// An external interrupt on a page, a record and a descriptor: the answer's number comes back, its two values go to first and second.
#[unsafe(no_mangle)]
pub extern "C" fn gg_external_interrupt(
    page: &mut [u8],
    record: &mut [u8],
    descriptor: &mut [u8],
    vector: u32,
    first: &mut u64,
    second: &mut u64,
) -> u32
    ensures { RepliesLent (gg_external_interrupt page.old «record».old descriptor.old vector) result first.new second.new «record».new page.new descriptor.new }
{
    capi::gg_external_interrupt(page, record, descriptor, vector, first, second)
}

// The guest leaves for a reason outside the model: the answer's number comes back, its two values go to first and second.
#[unsafe(no_mangle)]
pub extern "C" fn gg_leave(record: &mut [u8], first: &mut u64, second: &mut u64) -> u32
    ensures { (p : List ℕ) → Replies (gg_leave p «record».old) result first.new second.new «record».new p }
{
    capi::gg_leave(record, first, second)
}

// The highest request (base VIRR) or service (base VISR) of a page, or none: the answer's number comes back, its two values go to
// first and second.
#[unsafe(no_mangle)]
pub extern "C" fn gg_highest(page: &[u8], base: u32, first: &mut u64, second: &mut u64) -> u32
    ensures { Handed (gg_highest page.now base) result first.new second.new }
{
    capi::gg_highest(page, base, first, second)
}

// The record before any event, where 48 bytes are lent.
#[unsafe(no_mangle)]
pub extern "C" fn gg_fresh(record: &mut [u8]) -> u32
    ensures { FreshReplies (gg_fresh «record».old) result «record».new }
{
    capi::gg_fresh(record)
}
