// A lent page read as bytes and little-endian words. Every public function takes a slice of any length: what lies past its end reads
// as 0.
#![tactic(auto, unfolding(crate::specs::Page::half_at, crate::specs::Page::long_at, crate::specs::Page::long_within, crate::specs::Page::word_at, crate::specs::Page::word_within))]

pub mod bytes;
