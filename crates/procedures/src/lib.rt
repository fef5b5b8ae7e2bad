// The five procedures on a lent page, what a delivery makes of the record, and the answers that what carries an input out ends in.
#![tactic(auto, unfolding(meaning::specs::Procedures::eoi_end, meaning::specs::Procedures::evaluated_quiet, meaning::specs::Procedures::evaluation, meaning::specs::Procedures::ppr_virtualization, meaning::specs::Procedures::requested_page, meaning::specs::Procedures::requested_record, meaning::specs::Procedures::self_ipi_virtualization, meaning::specs::Procedures::tpr_virtualization, registers::specs::Vectors::highest))]

pub mod delivery;
pub mod outcome;
pub mod virtualization;
