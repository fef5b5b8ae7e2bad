// The posted vectors of a descriptor.
ghost use Rattle.std.specs.Prelude.{◌≡◌};
ghost use Rattle.descriptor.specs.Descriptor.{descriptor_fits, highest_posted, raised_by};

use priorities::procedures::larger_of;
use registers::vectors::highest_in;

// The bytes from one word of the request bits to the next.
const STEP: u8 = 4;

// The descriptor has its length.
pub fn descriptor_fits(descriptor: &[u8]) -> bool
    ensures { result ≡ descriptor_fits descriptor.now }
{
    descriptor.len() == 64
}

// The highest posted vector, or none.
#[tactic(auto, using(crate::proofs::Words::posted_words))]
pub fn highest_posted(descriptor: &[u8]) -> Option<u8>
    ensures { result ≡ highest_posted descriptor.now }
{
    highest_in::<STEP>(descriptor)
}

// The larger of RVI and what is found, RVI where nothing is.
pub fn raised_by(rvi: u8, highest: Option<u8>) -> u8
    ensures { result ≡ raised_by rvi highest }
{
    highest.map_or(rvi, |vector| larger_of(rvi, vector))
}
