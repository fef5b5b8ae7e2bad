// The lines of a replay, written into a lent buffer as far as it goes. Every public function takes a buffer of any length and any place,
// and says where the text ends.
#![tactic(auto, unfolding(crate::specs::Decimal::digits, crate::specs::Decimal::last_digits, crate::specs::Lines::bad_line, crate::specs::Lines::done_line, crate::specs::Lines::line))]

mod decimal;
pub mod lines;
