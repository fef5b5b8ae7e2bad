// What a delivery makes of the record.
ghost use Rattle.std.specs.Prelude.{◌≡◌, false};
ghost use Rattle.processor.specs.Controls.{with_rvi, with_svi, with_recognised};
ghost use Rattle.processor.specs.Offsets.{virr};
ghost use Rattle.registers.specs.Vectors.{highest};

use processor::controls::Record;
use processor::offsets::VIRR;
use registers::vectors::{NONE_COUNTS_AS, highest_or};

// RVI is in service on the page: SVI becomes RVI, RVI the highest request that is left.
pub fn delivered_record(page: &[u8], record: Record) -> Record
    ensures { result ≡ with_recognised (with_rvi (with_svi «record» «record».rvi) (highest page.now virr)) false }
{
    let mut next = record;
    next.svi = record.rvi;
    next.rvi = highest_or(page, VIRR, NONE_COUNTS_AS);
    next.recognised = false;
    next
}
