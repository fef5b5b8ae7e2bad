// A lent page read and written by the size of an access.
#![tactic(auto, unfolding(crate::specs::Sizes::read_at, crate::specs::Sizes::store_at))]

pub mod bytes;
