// Which offsets of a page may be redirected, decided from numbers alone.
#![tactic(auto, unfolding(crate::specs::Table::open_offset))]

pub mod offsets;
