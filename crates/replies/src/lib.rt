// What a simulator's calls reply: a lent page, a record and an event as bytes, an answer as numbers, each lent apart by C.
#![tactic(auto, using(crate::proofs::Reply::same_controls), unfolding(crate::specs::Replies::external_reply, crate::specs::Replies::gg_external_interrupt, crate::specs::Replies::gg_leave, crate::specs::Replies::gg_step, crate::specs::Replies::kind_reply, crate::specs::Replies::leave_reply, crate::specs::Replies::model_reply, layout::specs::EventBytes::boundary_of, layout::specs::EventBytes::event_of, layout::specs::EventBytes::event_readable, layout::specs::EventBytes::memory_read_of, layout::specs::EventBytes::memory_write_of, layout::specs::EventBytes::request_of, layout::specs::EventBytes::to_cr8_of, layout::specs::EventBytes::wrmsr_of))]

ghost use Rattle.std.specs.Prelude.{◌≡◌, List, ℕ};
ghost use Rattle.replies.specs.Replies.{Replies, gg_step, leave_reply, gg_leave};

use events::answer::{Numbers, Refusal};
pub use external::external_bytes;
use kinds::kind_reply;
use layout::records::{record_of, record_readable};
use told::told_status;

mod external;
mod kinds;
mod told;

// Refusals 1 and 2 of what cannot be read; the event by its kind.
pub fn step_bytes(page: &mut [u8], record: &mut [u8], event: &[u8]) -> Numbers
    ensures { Replies (gg_step page.old «record».old event.now) result.answer result.first result.second «record».new page.new }
{
    if page.len() != 4096 {
        return Refusal::PageLength.into();
    }
    let Some(record) = record.as_mut_array::<48>() else {
        return Refusal::Bounds.into();
    };
    if event.len() != 48 || !record_readable(record) {
        return Refusal::Bounds.into();
    }
    kind_reply(page, record, event)
}

// The guest of a record that can be read leaves.
fn leave_reply(record: &mut [u8; 48]) -> Numbers
    ensures { (p : List ℕ) → Replies (leave_reply p «record».old) result.answer result.first result.second «record».new p }
{
    let outcome = model::leave(record_of(record));
    told_status(record, outcome)
}

// Refusal 2 of what cannot be read; the model decides on the rest.
pub fn leave_bytes(record: &mut [u8]) -> Numbers
    ensures { (p : List ℕ) → Replies (gg_leave p «record».old) result.answer result.first result.second «record».new p }
{
    let Some(record) = record.as_mut_array::<48>() else {
        return Refusal::Bounds.into();
    };
    if !record_readable(record) {
        return Refusal::Bounds.into();
    }
    leave_reply(record)
}
