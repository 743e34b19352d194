//! Sends a switch again what it may lack.
ghost use Rattle.std.specs.Prelude.{◌≡◌, ◌++◌, ◌+◌, ◌<◌, ◌≤◌, ◌&&◌, length, All, IsTrue, OnOk};
ghost use Rattle.version_update.specs.Record.{is_member};
ghost use Rattle.version_update.specs.Marks.{update_record_of};
ghost use Rattle.controller.specs.Controller.{controller_kept_plan_touched};
ghost use Rattle.controller.specs.Sends.{is_missing_controller_install, controller_missing_installs, controller_stamp_again, controller_resend_collects};

use crate::sends::Act;
use crate::settling::controller_touched_by_version;
use crate::version::Version;
use ctrl_msg::Body;
use std::alloc::{AllocError, Global};
use version_update::Marks;

/// Adds the installations of the versions from this one on that the switch did not acknowledge.
///
/// # Errors
/// Only out of memory.
pub fn add_missing_controller_installs(
    acts: &mut Vec<Act>,
    alloc: Global,
    marks: &Marks,
    versions: &[Version],
    s: u32,
    first: u32,
) -> Result<(), AllocError>
    requires switch { s < length marks.now.switches }
    requires versions { All (λ kept. (1 ≤ kept.version) × (kept.version ≤ marks.now.count))
        versions.now }
    ensures { OnOk result (acts.new.items ≡ acts.old.items
        ++ controller_missing_installs (record { marks = marks.now; plans = versions.now }) s first) }
{
    let boot = marks.boot(s);
    for kept in versions {
        if is_controller_install_missing(marks, kept.version(), s, first) {
            acts.push(kept.install(alloc, s, boot)?)?;
        }
    }
    Ok(())
}

// Whether the version is at least `first`, and the switch did not acknowledge it.
fn is_controller_install_missing(marks: &Marks, version: u32, s: u32, first: u32) -> bool
    requires switch { s < length marks.now.switches }
    requires one { 1 ≤ version }
    requires last { version ≤ marks.now.count }
    ensures { result ≡ is_missing_controller_install (update_record_of marks.now s) first version }
{
    first <= version && !marks.has_acked(s, version)
}

/// Adds the current stamp with what its change touches, if the member acknowledged a lower one.
///
/// # Errors
/// Only out of memory.
pub fn controller_stamp_again(
    acts: &mut Vec<Act>,
    marks: &Marks,
    versions: &[Version],
    s: u32,
) -> Result<(), AllocError>
    requires switch { s < length marks.now.switches }
    requires member { IsTrue (is_member (update_record_of marks.now s).phase) }
    ensures { OnOk result (acts.new.items ≡ acts.old.items
        ++ controller_stamp_again (controller_kept_plan_touched versions.now marks.now.current) marks.now s) }
{
    let boot = marks.boot(s);
    let version = marks.current();
    if marks.acked_stamp(s) < version {
        let touched = controller_touched_by_version(*acts.allocator(), versions, version)?;
        acts.push(Act::post(
            s,
            Body::Stamp {
                boot,
                version,
                touched,
            },
        ))?;
    }
    Ok(())
}

/// Adds the message to drop the tables of the retired versions, if there are any.
///
/// # Errors
/// Only out of memory.
pub fn controller_resend_collects(
    acts: &mut Vec<Act>,
    marks: &Marks,
    s: u32,
) -> Result<(), AllocError>
    requires { s < length marks.now.switches }
    ensures { OnOk result (acts.new.items ≡ acts.old.items ++ controller_resend_collects marks.now s) }
{
    let boot = marks.boot(s);
    let version = marks.retired();
    if version > 0 {
        acts.push(Act::post(s, Body::Collect { boot, version }))?;
    }
    Ok(())
}
