ghost use Rattle.std.specs.Prelude.{◌≡◌, ◌≢◌, ◌+◌, ◌-◌, ◌<◌, ◌≤◌, ◌↔◌, ◌++◌, [], map, length, not, Err, Some, IsTrue, IsFalse, IfOk, IfErr, OnOk, OnErr, if◌then◌else◌};
ghost use Rattle.net_file.specs.Net.{IsNet};
ghost use Rattle.ctrl_msg.specs.Kinds.{is_body_for_controller};
ghost use Rattle.ctrl_msg.specs.declared.message.Body.TheVariants.{Hello};
ghost use Rattle.switch_table.specs.Tables.{AreSoundSwitchTables};
ghost use Rattle.version_update.specs.Marks.{VersionMarksStaySettled, version_marks_with_switch_changed, update_record_of, version_marks_with_version, MarksValue};
ghost use Rattle.version_update.specs.Record.{is_member, is_over, mark_record_after_over};
ghost use Rattle.version_update.specs.Settling.{SettlesVersionMarks};
ghost use Rattle.version_update.specs.declared.marks.SubmitError.TheVariants.{TooManyLive, TooManyVersions};
ghost use Rattle.version_update.specs.declared.record.Phase.TheVariants.{Joining, Member};
ghost use Rattle.controller.specs.Exports.{IsSoundController, IsControllerLeftByRefusal, NamesWithinControllerMarks, ControllerReplyNamesExist, ControllerSettlesWith, ControllerStaysSound, ControllerSubmitsPlan, controller_record_after_reply, controller_recorded_boot, controller_current_plan, controller_current_plan_touched, controller_at_start, controller_hear_acts, controller_install_act, controller_kept_plan_tables, controller_kept_plan_touched, controller_marks_after, controller_newest_policy, controller_next_kept_plan, controller_kept_plans_from, controller_resend_acts, controller_resend_acts_to, controller_settling_acts, controller_submit_acts, controller_switches_by_record};
ghost use Rattle.base.specs.declared.error.Failure.TheVariants.{Refused, NoMemory};

use crate::plan::Plan;
use crate::replying::ControllerReply;
use crate::resending::{
    add_missing_controller_installs, controller_resend_collects, controller_stamp_again,
};
use crate::sends::{Act, Sends};
use crate::settling::{controller_settled_sends, settle_controller_versions};
use crate::version::Version;
use base::Failure;
use ctrl_msg::{Body, SharedTables};
use net_file::Net;
use std::alloc::{AllocError, Global};
use std::marker::Model;
use switch_table::{Touched, tables_laws};
use version_update::{Marks, Phase, Settled, SubmitError, version_mark_settling_laws};

/// The controller of a network: what it knows of the switches, and the plan of each version that a
/// later call can name. Version v is the v-th plan that was submitted, the first by `begin`.
///
/// Contracts see the marks, and the versions from the current one to the last with their plans.
/// Each call returns what it causes, in order, and each message carries its switch's known boot.
/// If memory runs out in a call, what it causes is lost, and no other call may follow.
#[derive(Drop)]
pub struct Controller {
    marks: Marks,
    versions: Vec<Version>,
}

impl Model for Controller {
    ghost use Rattle.controller.specs.Controller.{ControllerValue, IsSoundController};

    ghost Value = { ControllerValue };

    ghost view = { λ c. record { marks = c.marks; plans = c.versions.items } };

    ghost invariant = { λ c. IsSoundController (record {
      marks = c.marks;
      plans = c.versions.items;
    }) };
}

impl Controller {
    /// Every switch of the network has version 1, of which this is the plan.
    ///
    /// # Errors
    /// Only out of memory.
    pub fn begin(alloc: Global, net: &Net, plan: Plan) -> Result<Controller, AllocError>
        requires { IsNet net.now }
        ensures first { IfOk result (λ controller.
            controller ≡ controller_at_start (length net.now.switches) plan) }
        ensures rule { IfOk result IsSoundController }
    {
        let switches = net.switches.items().len() as u32;
        // For the proof: the contract of `hosted` says that the plan is sound.
        let _ = plan.hosted();
        let mut versions = Vec::new(alloc);
        versions.push(Version::new(alloc, 1, plan, Touched::all(), switches)?)?;
        Ok(Controller {
            marks: Marks::begin(switches),
            versions,
        })
    }

    /// What is known of the switches, and which versions are current and retired.
    pub fn marks(&self) -> &Marks
        ensures { result.now ≡ self.now.marks }
    {
        &self.marks
    }

    /// How many switches there are.
    pub fn switches(&self) -> u32
        ensures { result ≡ length self.now.marks.switches }
    {
        self.marks.switches()
    }

    /// The tables that the plan of a version, from the current one to the last, gives a switch,
    /// shared: those that each `Install` of the version carries.
    ///
    /// # Errors
    /// Only out of memory.
    pub fn tables(&self, version: u32, s: u32) -> Result<SharedTables, AllocError>
        requires first { self.now.marks.current ≤ version }
        requires last { version ≤ self.now.marks.count }
        ensures tables { IfOk result (λ tables. controller_kept_plan_tables self.now version s ≡ Some tables) }
        ensures sound { IfOk result AreSoundSwitchTables }
    {
        let alloc = *self.versions.allocator();
        tables_laws();
        let place = version - self.marks.current();
        self.versions[place as usize].tables(alloc, s)
    }

    /// The plan of the current version.
    pub fn current_plan(&self) -> &Plan
        ensures { controller_current_plan self.now ≡ Some result.now }
    {
        self.versions[0].plan()
    }

    /// Adds a version with this plan, and sends it to each switch that isn't over. The words are
    /// what the change that made the version touches; each `Stamp` of the version carries them.
    ///
    /// # Errors
    /// `TooManyLive` exactly if 8 versions are not retired; otherwise `TooManyVersions`
    /// exactly if there are 64; then nothing changed. If memory runs out, the version may be added,
    /// but what it causes is lost.
    pub fn submit(&mut self, plan: Plan, touched: Touched) -> Result<Sends, Failure<SubmitError>>
        ensures after { OnOk result
            (ControllerSubmitsPlan self.old (controller_next_kept_plan self.old plan touched) self.new) }
        ensures newest { OnOk result (controller_newest_policy self.new ≡ Some plan.policy) }
        ensures sends { IfOk result (λ sends.
            sends ≡ controller_submit_acts self.old.marks (controller_next_kept_plan self.old plan touched) self.new) }
        ensures live { (result ≡ Err (Refused TooManyLive))
            ↔ (self.old.marks.count - self.old.marks.retired ≡ 8) }
        ensures versions { (result ≡ Err (Refused TooManyVersions))
            ↔ ((self.old.marks.count - self.old.marks.retired ≢ 8) × (self.old.marks.count ≡ 64)) }
        ensures refused { IfErr result
            (IsControllerLeftByRefusal self.old (controller_next_kept_plan self.old plan touched) self.new) }
        ensures rule { ControllerStaysSound self.old self.new }
    {
        let alloc = *self.versions.allocator();
        if let Some(error) = self.marks.refusal() {
            return Err(Failure::Refused(error));
        }
        let sends = self.add(alloc, plan, touched)?;
        Ok(sends)
    }

    /// Records what a message says, and settles the marks. After a hello of a new boot it sends the
    /// switch each version from the current one on. A body that isn't for the controller causes no
    /// sends and no change.
    ///
    /// # Errors
    /// Only out of memory; what the message says is recorded even then.
    pub fn hear(&mut self, body: &Body) -> Result<Sends, AllocError>
        requires { ControllerReplyNamesExist body.now self.old.marks }
        ensures after { ControllerSettlesWith
            (controller_marks_after body.now self.old.marks) self.old.plans self.new }
        ensures newest { controller_newest_policy self.new ≡ controller_newest_policy self.old }
        ensures sends { IfOk result (λ sends. sends ≡ controller_hear_acts body.now self.old.marks self.new) }
        ensures others { IsFalse (is_body_for_controller body.now) → self.new ≡ self.old }
        ensures silent { IsFalse (is_body_for_controller body.now)
            → IfOk result (λ sends. sends ≡ []) }
        ensures rule { ControllerStaysSound self.old self.new }
    {
        let alloc = *self.versions.allocator();
        match body {
            Body::Hello { switch, boot } => self.hello(alloc, *switch, *boot),
            Body::Installed {
                switch,
                boot,
                version,
            } => self.replied(alloc, ControllerReply::Installed, *switch, *boot, *version),
            Body::Stamped {
                switch,
                boot,
                version,
            } => self.replied(alloc, ControllerReply::Stamped, *switch, *boot, *version),
            _ => Ok(self.unheard(alloc)),
        }
    }

    /// Confirms the switch as down: it is over until it reports a greater boot.
    ///
    /// # Errors
    /// Only out of memory; the switch is over even then.
    pub fn over(&mut self, s: u32) -> Result<Sends, AllocError>
        requires { s < length self.old.marks.switches }
        ensures after { ControllerSettlesWith
            (version_marks_with_switch_changed s mark_record_after_over self.old.marks) self.old.plans self.new }
        ensures newest { controller_newest_policy self.new ≡ controller_newest_policy self.old }
        ensures sends { IfOk result (λ sends.
            sends ≡ controller_settling_acts (controller_current_plan_touched self.new)
            (version_marks_with_switch_changed s mark_record_after_over self.old.marks) self.new.marks) }
        ensures rule { ControllerStaysSound self.old self.new }
    {
        let alloc = *self.versions.allocator();
        let settled = self.marks.over(s);
        controller_settled_sends(alloc, &mut self.versions, &self.marks, &settled)
    }

    /// What the switch may lack, to be sent again: nothing that it acknowledged.
    ///
    /// # Errors
    /// Only out of memory.
    pub fn resend(&self, s: u32) -> Result<Sends, AllocError>
        requires { s < length self.now.marks.switches }
        ensures { IfOk result (λ sends. sends ≡ controller_resend_acts self.now s) }
    {
        let alloc = *self.versions.allocator();
        match self.marks.phase(s) {
            Phase::Joining => self.resend_to_joining(alloc, s),
            Phase::Member => self.resend_to_member(alloc, s),
            Phase::Over => Ok(Sends::from_items(Vec::new(alloc))),
        }
    }

    fn resend_to_joining(&self, alloc: Global, s: u32) -> Result<Sends, AllocError>
        requires { s < length self.now.marks.switches }
        ensures { IfOk result (λ sends. sends ≡ controller_resend_acts_to Joining self.now s) }
    {
        let mut acts = Vec::new(alloc);
        let current = self.marks.current();
        add_missing_controller_installs(&mut acts, alloc, &self.marks, &self.versions, s, current)?;
        Ok(Sends::from_items(acts))
    }

    fn resend_to_member(&self, alloc: Global, s: u32) -> Result<Sends, AllocError>
        requires switch { s < length self.now.marks.switches }
        requires member { IsTrue (is_member (update_record_of self.now.marks s).phase) }
        ensures { IfOk result (λ sends. sends ≡ controller_resend_acts_to Member self.now s) }
    {
        let mut acts = Vec::new(alloc);
        let next = self.marks.current() + 1;
        let boot = self.marks.boot(s);
        let version = self.marks.open_version(s);
        acts.push(Act::post(s, Body::OpenAt { boot, version }))?;
        add_missing_controller_installs(&mut acts, alloc, &self.marks, &self.versions, s, next)?;
        controller_stamp_again(&mut acts, &self.marks, &self.versions, s)?;
        controller_resend_collects(&mut acts, &self.marks, s)?;
        Ok(Sends::from_items(acts))
    }

    // Adds a version, which the marks don't refuse.
    fn add(&mut self, alloc: Global, plan: Plan, touched: Touched) -> Result<Sends, AllocError>
        requires live { self.old.marks.count - self.old.marks.retired ≢ 8 }
        requires versions { self.old.marks.count ≢ 64 }
        ensures after { OnOk result
            (ControllerSubmitsPlan self.old (controller_next_kept_plan self.old plan touched) self.new) }
        ensures newest { OnOk result (controller_newest_policy self.new ≡ Some plan.policy) }
        ensures sends { IfOk result (λ sends.
            sends ≡ controller_submit_acts self.old.marks (controller_next_kept_plan self.old plan touched) self.new) }
        ensures left { OnErr result
            (IsControllerLeftByRefusal self.old (controller_next_kept_plan self.old plan touched) self.new NoMemory) }
        ensures rule { ControllerStaysSound self.old self.new }
    {
        // For the proof: the contract of `hosted` says that the plan is sound.
        let _ = plan.hosted();
        let number = self.marks.count() + 1;
        let version = Version::new(alloc, number, plan, touched, self.marks.switches())?;
        let mut acts = install_at_each(alloc, &self.marks, &version)?;
        self.versions.push(version)?;
        let settled = add_version(&mut self.marks);
        settle_controller_versions(&mut acts, &mut self.versions, &self.marks, &settled)?;
        Ok(Sends::from_items(acts))
    }

    // A body that isn't for the controller causes nothing: settled marks stay unchanged.
    fn unheard(&self, alloc: Global) -> Sends
        ensures none { result ≡ [] }
        ensures idle { controller_settling_acts (controller_current_plan_touched self.now) self.now.marks self.now.marks ≡ [] }
        ensures after { ControllerSettlesWith self.now.marks self.now.plans self.now }
        ensures rule { IsSoundController self.now }
    {
        // For the proof: reading the marks yields their invariant.
        let _ = &self.marks;
        version_mark_settling_laws();
        Sends::from_items(Vec::new(alloc))
    }

    fn hello(&mut self, alloc: Global, s: u32, boot: u32) -> Result<Sends, AllocError>
        requires { s < length self.old.marks.switches }
        ensures after { ControllerSettlesWith
            (controller_marks_after (Hello s boot) self.old.marks) self.old.plans self.new }
        ensures sends { IfOk result (λ sends.
            sends ≡ controller_hear_acts (Hello s boot) self.old.marks self.new) }
        ensures rule { ControllerStaysSound self.old self.new }
    {
        let settled = self.marks.hello(s, boot);
        controller_hello_sends(alloc, &mut self.versions, &self.marks, &settled, s, boot)
    }

    // A switch replied that it has the tables of a version, or stamps packets with it.
    fn replied(
        &mut self,
        alloc: Global,
        reply: ControllerReply,
        s: u32,
        boot: u32,
        version: u32,
    ) -> Result<Sends, AllocError>
        requires { NamesWithinControllerMarks s version self.old.marks }
        ensures after { ControllerSettlesWith (version_marks_with_switch_changed s (controller_record_after_reply reply boot version) self.old.marks)
            self.old.plans self.new }
        ensures sends { IfOk result (λ sends. sends
            ≡ controller_settling_acts (controller_current_plan_touched self.new)
            (version_marks_with_switch_changed s (controller_record_after_reply reply boot version) self.old.marks) self.new.marks) }
        ensures rule { ControllerStaysSound self.old self.new }
    {
        let settled = reply.take_in(&mut self.marks, s, boot, version);
        controller_settled_sends(alloc, &mut self.versions, &self.marks, &settled)
    }
}

// Adds a version to marks that don't refuse it.
fn add_version(marks: &mut Marks) -> Settled
    requires live { marks.old.count - marks.old.retired ≢ 8 }
    requires versions { marks.old.count ≢ 64 }
    ensures settled { SettlesVersionMarks (version_marks_with_version marks.old) marks.new result }
    ensures rule { VersionMarksStaySettled marks.old marks.new }
{
    match marks.submit() {
        Ok(settled) => settled,
        Err(SubmitError::TooManyLive) => unreachable!(),
        Err(SubmitError::TooManyVersions) => unreachable!(),
    }
}

// Sends the version to each switch that isn't over.
fn install_at_each(alloc: Global, marks: &Marks, version: &Version) -> Result<Vec<Act>, AllocError>
    ensures { IfOk result (λ acts. acts.items
        ≡ map (λ s. controller_install_act s (controller_recorded_boot marks.now s) version.now)
        (controller_switches_by_record (λ known. not (is_over known.phase)) marks.now.switches)) }
{
    let mut acts = Vec::new(alloc);
    for s in 0..marks.switches() {
        if is_controller_switch_there(marks.phase(s)) {
            acts.push(version.install(alloc, s, marks.boot(s))?)?;
        }
    }
    Ok(acts)
}

// Whether a switch in this phase isn't over.
fn is_controller_switch_there(phase: Phase) -> bool
    ensures { result ≡ not (is_over phase) }
{
    phase != Phase::Over
}

// What is sent when a hello settled the marks; to a switch in a new boot all versions, too.
fn controller_hello_sends(
    alloc: Global,
    versions: &mut Vec<Version>,
    marks: &Marks,
    settled: &Settled,
    s: u32,
    boot: u32,
) -> Result<Sends, AllocError>
    ensures sends { (before : MarksValue) → SettlesVersionMarks before marks.now settled.now
        → IfOk result (λ sends. sends
        ≡ controller_settling_acts (controller_kept_plan_touched versions.new.items marks.now.current) before marks.now
        ++ (if settled.now.taken then map (controller_install_act s boot) versions.new.items else [])) }
    ensures versions { versions.new.items ≡ controller_kept_plans_from marks.now.current versions.old.items }
{
    let mut acts = Vec::new(alloc);
    settle_controller_versions(&mut acts, versions, marks, settled)?;
    if settled.taken {
        add_controller_installs(&mut acts, alloc, versions, s, boot)?;
    }
    Ok(Sends::from_items(acts))
}

// Adds the installations of all versions at one switch.
fn add_controller_installs(
    acts: &mut Vec<Act>,
    alloc: Global,
    versions: &[Version],
    s: u32,
    boot: u32,
) -> Result<(), AllocError>
    ensures { OnOk result (acts.new.items ≡ acts.old.items ++ map (controller_install_act s boot) versions.now) }
{
    for kept in versions {
        acts.push(kept.install(alloc, s, boot)?)?;
    }
    Ok(())
}
