use crate::rule::Line;
use std::alloc::Global;
use std::marker::Model;

/// A box. It goes, with the letters that it still holds, when both its sides are gone.
pub(crate) struct Mailbox {
    line: Line,
}

impl Model for Mailbox {
    ghost use Rattle.std.specs.declared.alloc.Global.{Global};
    ghost use Rattle.crossbeam_queue.specs.SegTies.{SegId};

    ghost Value = { SegId Global };

    ghost view = { λ m. m.line };
}

impl Mailbox {
    ghost use Rattle.std.specs.Prelude.{◌≡◌};

    pub(crate) fn new(line: Line) -> Mailbox
        ensures { result ≡ line }
    {
        Mailbox { line }
    }

    pub(crate) fn line(&self) -> &Line
        ensures { result.now ≡ self.now }
    {
        &self.line
    }
}

impl Drop for Mailbox {
    fn drop(self) {
        let Mailbox { line } = self;
        line.destroy();
    }
}
