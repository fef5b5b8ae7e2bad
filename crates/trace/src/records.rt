// What a body of kind 0 says: the controls for later entries.
ghost use Rattle.std.specs.Prelude.{◌≡◌};
ghost use Rattle.trace.specs.Records.{controls_of};

use crate::fields::{eight_at, four_at, two_at};
use crate::kinds::CONTROL_FLAGS;
use processor::controls::Controls;

// Each field is read at a place of its own.
pub fn controls_of(body: &[u8]) -> Controls
    ensures { result ≡ controls_of body.now }
{
    Controls {
        flags: two_at(body, CONTROL_FLAGS) as u32,
        threshold: four_at(body, 3),
        notification: 0,
        eoi_exit_0: eight_at(body, 7),
        eoi_exit_1: eight_at(body, 15),
        eoi_exit_2: eight_at(body, 23),
        eoi_exit_3: eight_at(body, 31),
    }
}
