//! What a switch replies about a version.
ghost use Rattle.version_update.specs.Marks.{VersionMarksStaySettled, version_marks_with_switch_changed};
ghost use Rattle.version_update.specs.Settling.{SettlesVersionMarks};
ghost use Rattle.controller.specs.Exports.{NamesWithinControllerMarks, controller_record_after_reply};

use version_update::{Marks, Settled};

/// What a switch replies about a version.
#[derive(Clone, Copy)]
pub enum ControllerReply {
    Installed,
    Stamped,
}

impl ControllerReply {
    /// Records the reply of a switch in the marks.
    pub fn take_in(self, marks: &mut Marks, s: u32, boot: u32, version: u32) -> Settled
        requires { NamesWithinControllerMarks s version marks.old }
        ensures settled { SettlesVersionMarks
            (version_marks_with_switch_changed s (controller_record_after_reply self boot version) marks.old) marks.new result }
        ensures rule { VersionMarksStaySettled marks.old marks.new }
    {
        match self {
            ControllerReply::Installed => marks.installed(s, boot, version),
            ControllerReply::Stamped => marks.stamped(s, boot, version),
        }
    }
}
