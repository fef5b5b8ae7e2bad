// What carries out an entry, a request or a boundary that nothing refuses.
#![tactic(auto, unfolding(meaning::specs::Boundary::boundary, meaning::specs::Boundary::boundary_at, meaning::specs::Boundary::delivered_page, meaning::specs::Boundary::delivered_record, meaning::specs::Boundary::delivery, meaning::specs::Entry::entered, meaning::specs::Entry::entry, meaning::specs::Entry::request, meaning::specs::Procedures::requested_page))]

pub mod boundary;
pub mod entry;
