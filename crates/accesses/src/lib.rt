// What a memory access comes to, decided from numbers alone. Nothing here holds a page.
#![tactic(auto, unfolding(crate::specs::Accesses::memory_access, crate::specs::Accesses::read_qualification, crate::specs::Accesses::write_following))]

pub mod memory;
