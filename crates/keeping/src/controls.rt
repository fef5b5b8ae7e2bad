// The controls stored at their places in the record's bytes.
ghost use Rattle.std.specs.Prelude.{◌≡◌};
ghost use Rattle.keeping.specs.KeptBytes.{controls_bytes};

use layout::controls::{
    EOI_EXIT_0, EOI_EXIT_1, EOI_EXIT_2, EOI_EXIT_3, FLAGS, NOTIFICATION, THRESHOLD,
};
use processor::controls::Controls;
use stores::bytes::{set_half, set_long, set_word};

// Each field is stored at a place of its own.
pub fn controls_bytes(bytes: &mut [u8], controls: Controls)
    ensures { bytes.new ≡ controls_bytes bytes.old controls }
{
    set_word(bytes, THRESHOLD, controls.threshold);
    set_word(bytes, FLAGS, controls.flags);
    set_half(bytes, NOTIFICATION, controls.notification);
    set_long(bytes, EOI_EXIT_0, controls.eoi_exit_0);
    set_long(bytes, EOI_EXIT_1, controls.eoi_exit_1);
    set_long(bytes, EOI_EXIT_2, controls.eoi_exit_2);
    set_long(bytes, EOI_EXIT_3, controls.eoi_exit_3);
}
