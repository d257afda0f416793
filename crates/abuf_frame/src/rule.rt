// The rule of a frame's table.
use crate::view::{FrameSize, View};
use atomic_table::TableRule;

/// The state of the table is always lawful.
pub(crate) struct FrameRule;

impl TableRule<(), View, FrameSize> for FrameRule {
    ghost use Rattle.abuf_frame.specs.Lawful.{Lawful};
    ghost use Rattle.abuf_frame.specs.Views.{whole_view};

    ghost holds = { Lawful };

    ghost first = { λ _. whole_view };
}
