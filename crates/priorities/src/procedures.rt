// What the five procedures and the boundary decide from numbers alone.
ghost use Rattle.std.specs.Prelude.{◌≡◌};
ghost use Rattle.processor.specs.Logic.{larger};
ghost use Rattle.priorities.specs.Priorities.{class, low_cleared, ppr, below_threshold, evaluated, open_boundary};

use processor::controls::{Control, Controls};

// A vector's class.
pub fn class_of(vector: u8) -> u8
    ensures { result ≡ class vector }
{
    vector / 16
}

// A byte with its low four bits cleared.
pub fn low_cleared(vector: u8) -> u8
    ensures { result ≡ low_cleared vector }
{
    16 * (vector / 16)
}

// What PPR virtualization stores.
pub fn ppr_of(vtpr: u8, svi: u8) -> u8
    ensures { result ≡ ppr vtpr svi }
{
    if svi / 16 <= vtpr / 16 {
        return vtpr;
    }
    low_cleared(svi)
}

// VTPR's class is below threshold bits 3:0.
pub fn below_threshold(c: Controls, vtpr: u8) -> bool
    ensures { result ≡ below_threshold c vtpr }
{
    ((vtpr / 16) as u32) < c.threshold % 16
}

// What evaluation recognises.
pub fn evaluates(c: Controls, rvi: u8, vppr: u8) -> bool
    ensures { result ≡ evaluated c rvi vppr }
{
    !c.has(Control::InterruptWindowExiting) & (vppr / 16 < rvi / 16)
}

// The larger of RVI and a vector, by the name that the claims of a request cite.
pub fn larger_of(rvi: u8, vector: u8) -> u8
    ensures { result ≡ larger rvi vector }
{
    rvi.max(vector)
}

// The boundary is open. Its four values go side by side: as a `Between` by value they are packed into one number, and a boundary takes
// three instructions more; lent, eight.
pub fn open_boundary(interrupts: bool, sti: bool, mov_ss: bool, activity: u8) -> bool
    ensures { result ≡ open_boundary interrupts sti mov_ss activity }
{
    interrupts & !sti & !mov_ss & (activity < 2)
}
