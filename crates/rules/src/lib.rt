// The entry checks, and when exit 43 follows an entry at once. Nothing here holds a page: VTPR's byte stands beside the controls, as the
// page's one byte that a rule looks at.
#![tactic(auto, unfolding(crate::specs::EntryChecks::failing_check))]

pub mod entry;
