// An external interrupt on lent bytes: page, record and descriptor.
ghost use Rattle.std.specs.Prelude.{◌≡◌};
ghost use Rattle.replies.specs.Replies.{RepliesLent, external_reply, gg_external_interrupt};

use crate::told::told_status;
use descriptor::posted::descriptor_fits;
use events::answer::{Numbers, Refusal};
use layout::records::{record_of, record_readable};
use model::external_interrupt;

// On a record that can be read.
fn external_reply(
    page: &mut [u8],
    record: &mut [u8; 48],
    descriptor: &mut [u8],
    vector: u32,
) -> Numbers
    ensures { RepliesLent (external_reply page.old «record».old descriptor.old vector) result.answer result.first result.second «record».new page.new descriptor.new }
{
    let outcome = external_interrupt(page, record_of(record), descriptor, vector);
    told_status(record, outcome)
}

// Refusals 1, 5 and 2 of what cannot be read; the model decides on the rest.
pub fn external_bytes(
    page: &mut [u8],
    record: &mut [u8],
    descriptor: &mut [u8],
    vector: u32,
) -> Numbers
    ensures { RepliesLent (gg_external_interrupt page.old «record».old descriptor.old vector) result.answer result.first result.second «record».new page.new descriptor.new }
{
    if page.len() != 4096 {
        return Refusal::PageLength.into();
    }
    if !descriptor_fits(descriptor) {
        return Refusal::DescriptorLength.into();
    }
    let Some(record) = record.as_mut_array::<48>() else {
        return Refusal::Bounds.into();
    };
    if !record_readable(record) {
        return Refusal::Bounds.into();
    }
    external_reply(page, record, descriptor, vector)
}
