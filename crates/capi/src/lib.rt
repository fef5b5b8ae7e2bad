// The boundary that a C simulator links, as functions of this repository: `capi_c` exports them.
#![tactic(auto, using(crate::proofs::Hand::handed))]

ghost use Rattle.std.specs.Prelude.{List, ℕ};
ghost use Rattle.calls.specs.Calls.{Handed, FreshReplies, gg_highest, gg_fresh};
ghost use Rattle.replies.specs.Replies.{Replies, RepliesLent, gg_step, gg_external_interrupt, gg_leave};

use calls::fresh::fresh_bytes;
use calls::hand::hand_over;
use calls::highest::highest_numbers;
use replies::{external_bytes, leave_bytes, step_bytes};

// One event on a page and a record: the answer's number comes back, its two values go to first and second.
pub fn gg_step(
    page: &mut [u8],
    record: &mut [u8],
    event: &[u8],
    first: &mut u64,
    second: &mut u64,
) -> u32
    ensures { Replies (gg_step page.old «record».old event.now) result first.new second.new «record».new page.new }
{
    hand_over(step_bytes(page, record, event), first, second)
}

// An external interrupt on a page, a record and a descriptor: the answer's number comes back, its two values go to first and second.
pub fn gg_external_interrupt(
    page: &mut [u8],
    record: &mut [u8],
    descriptor: &mut [u8],
    vector: u32,
    first: &mut u64,
    second: &mut u64,
) -> u32
    ensures { RepliesLent (gg_external_interrupt page.old «record».old descriptor.old vector) result first.new second.new «record».new page.new descriptor.new }
{
    hand_over(
        external_bytes(page, record, descriptor, vector),
        first,
        second,
    )
}

// The guest leaves for a reason outside the model: the answer's number comes back, its two values go to first and second.
pub fn gg_leave(record: &mut [u8], first: &mut u64, second: &mut u64) -> u32
    ensures { (p : List ℕ) → Replies (gg_leave p «record».old) result first.new second.new «record».new p }
{
    hand_over(leave_bytes(record), first, second)
}

// The highest request (base VIRR) or service (base VISR) of a page, or none: the answer's number comes back, its two values go to
// first and second.
pub fn gg_highest(page: &[u8], base: u32, first: &mut u64, second: &mut u64) -> u32
    ensures { Handed (gg_highest page.now base) result first.new second.new }
{
    hand_over(highest_numbers(page, base), first, second)
}

// The record before any event, where 48 bytes are lent.
pub fn gg_fresh(record: &mut [u8]) -> u32
    ensures { FreshReplies (gg_fresh «record».old) result «record».new }
{
    fresh_bytes(record)
}
