// Which refusal an input gets, with its check, or none. Nothing here changes a page or a record.
#![tactic(auto, unfolding(meaning::specs::Refusals::refusal_of))]

pub mod list;
