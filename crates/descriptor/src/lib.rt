// The lent descriptor into which others post: its length, its highest posted vector, and what becomes of RVI by it. A slice may have
// any length.
#![tactic(auto, unfolding(crate::specs::Descriptor::cleared, crate::specs::Descriptor::cleared_below, crate::specs::Descriptor::joined_below, crate::specs::Descriptor::places_below, crate::specs::Descriptor::posted, crate::specs::Descriptor::raised_by))]

pub mod posted;
