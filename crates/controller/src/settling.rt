//! What is sent as the marks settle.
ghost use Rattle.std.specs.Prelude.{◌≡◌, ◌==◌, ◌∷◌, ◌++◌, ◌<◌, [], length, find, IfOk, OnOk};
ghost use Rattle.std.specs.Option.{option_copied};
ghost use Rattle.version_update.specs.Marks.{MarksValue};
ghost use Rattle.version_update.specs.Settling.{SettlesVersionMarks};
ghost use Rattle.controller.specs.Exports.{controller_news_body, controller_kept_plan_touched, controller_kept_plans_from, controller_settling_acts, controller_switches_in_mask, controller_posts_to};

use crate::sends::{Act, Sends};
use crate::version::Version;
use base::{Shared, has};
use ctrl_msg::Body;
use std::alloc::{AllocError, Global};
use switch_table::Touched;
use version_update::{Marks, Settled};

/// What is sent to several switches at once.
#[derive(Drop)]
pub enum News {
    /// With what the change of the version touches.
    Stamp(Shared<Touched>),
    OpenAt,
    Collect,
}

impl News {
    fn body(&self, boot: u32, version: u32) -> Result<Body, AllocError>
        ensures { IfOk result (λ body. body ≡ controller_news_body self.now version boot) }
    {
        let body = match self {
            News::Stamp(touched) => Body::Stamp {
                boot,
                version,
                touched: touched.clone()?,
            },
            News::OpenAt => Body::OpenAt { boot, version },
            News::Collect => Body::Collect { boot, version },
        };
        Ok(body)
    }
}

/// Adds what is sent after the marks settled with this result, and drops the versions before the
/// current one.
///
/// # Errors
/// Only out of memory; the versions are dropped even then.
pub fn settle_controller_versions(
    acts: &mut Vec<Act>,
    versions: &mut Vec<Version>,
    marks: &Marks,
    settled: &Settled,
) -> Result<(), AllocError>
    ensures acts { OnOk result ((before : MarksValue) → SettlesVersionMarks before marks.now settled.now
        → acts.new.items ≡ acts.old.items
        ++ controller_settling_acts (controller_kept_plan_touched versions.new.items marks.now.current) before marks.now) }
    ensures versions { versions.new.items ≡ controller_kept_plans_from marks.now.current versions.old.items }
{
    drop_old_plans(versions, marks.current());
    if let Some(current) = settled.current {
        tell_current_version(acts, versions, marks, settled.stamps, current)?;
    }
    let current = marks.current();
    send_to_switches(acts, marks, settled.opens, &News::OpenAt, current)?;
    if let Some(retired) = settled.retired {
        acts.push(Act::Retired(retired))?;
        send_to_switches(acts, marks, settled.collects, &News::Collect, retired)?;
    }
    Ok(())
}

// Adds that a new version is the current one, and for the switches of the mask the message to stamp
// with it, which carries what its change touches.
fn tell_current_version(
    acts: &mut Vec<Act>,
    versions: &[Version],
    marks: &Marks,
    mask: u64,
    current: u32,
) -> Result<(), AllocError>
    ensures { OnOk result (acts.new.items ≡ acts.old.items ++ Act.Current current ∷ []
        ++ controller_posts_to marks.now (λ boot. Body.Stamp boot current (controller_kept_plan_touched versions.now current))
        (controller_switches_in_mask mask (length marks.now.switches))) }
{
    acts.push(Act::Current(current))?;
    let news = News::Stamp(controller_touched_by_version(*acts.allocator(), versions, current)?);
    send_to_switches(acts, marks, mask, &news, current)
}

/// What is sent after the marks settled with this result. It drops versions before the current one.
///
/// # Errors
/// Only out of memory; the versions are dropped even then.
pub fn controller_settled_sends(
    alloc: Global,
    versions: &mut Vec<Version>,
    marks: &Marks,
    settled: &Settled,
) -> Result<Sends, AllocError>
    ensures sends { (before : MarksValue) → SettlesVersionMarks before marks.now settled.now
        → IfOk result (λ sends. sends
        ≡ controller_settling_acts (controller_kept_plan_touched versions.new.items marks.now.current) before marks.now) }
    ensures versions { versions.new.items ≡ controller_kept_plans_from marks.now.current versions.old.items }
{
    let mut acts = Vec::new(alloc);
    settle_controller_versions(&mut acts, versions, marks, settled)?;
    Ok(Sends::from_items(acts))
}

// Drops the versions before the current one: no later call names them.
fn drop_old_plans(versions: &mut Vec<Version>, current: u32)
    ensures { versions.new.items ≡ controller_kept_plans_from current versions.old.items }
{
    versions.retain(|kept| current <= kept.version());
}

/// What the change of a version touches; everything, if its plan isn't kept.
///
/// # Errors
/// Only out of memory.
pub fn controller_touched_by_version(
    alloc: Global,
    versions: &[Version],
    version: u32,
) -> Result<Shared<Touched>, AllocError>
    ensures { IfOk result (λ touched. touched ≡ controller_kept_plan_touched versions.now version) }
{
    match find_controller_kept_version(versions, version) {
        Some(kept) => kept.touched(),
        None => Shared::new(alloc, Touched::all()),
    }
}

fn find_controller_kept_version(versions: &[Version], version: u32) -> Option<&Version>
    ensures { option_copied result ≡ find (λ kept. kept.version == version) versions.now }
{
    versions.iter().find(|kept| kept.version() == version)
}

// Adds the message to each switch of the mask, for its known boot.
fn send_to_switches(
    acts: &mut Vec<Act>,
    marks: &Marks,
    mask: u64,
    news: &News,
    version: u32,
) -> Result<(), AllocError>
    ensures { OnOk result (acts.new.items
        ≡ acts.old.items ++ controller_posts_to marks.now (controller_news_body news.now version)
        (controller_switches_in_mask mask (length marks.now.switches))) }
{
    for s in 0..marks.switches() {
        if has(mask, s) {
            let body = news.body(marks.boot(s), version)?;
            acts.push(Act::post(s, body))?;
        }
    }
    Ok(())
}
