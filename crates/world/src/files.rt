//! The files of a world, by their numbers, and the plans of the policies that they have or make.
ghost use Rattle.std.specs.Prelude.{◌≡◌, ◌<◌, IfOk, IsSome, Ok, Some, length};
ghost use Rattle.net_file.specs.Net.{IsNet};
ghost use Rattle.policy_rules.specs.Exports.{policy_change_applied};
ghost use Rattle.controller.specs.Exports.{controller_touched_few};
ghost use Rattle.switch_table.specs.Carried.{cache_all_touched};
ghost use Rattle.world.specs.Files.{IsWorldFileCompiled, WorldFilesKeepWhole, world_first_file_policy, world_file_made_at, world_file_made_from};
ghost use Rattle.world.specs.declared.files.Compiled.TheVariants.{Planned};

use crate::codes::{ABSENT, TAKEN, TOO_MANY_ROWS, code_of};
use controller::{Plan, compile, touched};
use net_file::Net;
use policy_rules::{Amendment, ApplyError, Inapplicable, Policy, PolicyFile, apply};
use std::alloc::{AllocError, Global};
use std::marker::Model;
use switch_table::Touched;

/// The result of compiling a file's policy, or the one that its change makes of the newest policy.
#[derive(Drop)]
pub enum Compiled {
    /// Its plan, and the words that the file touches of the newest policy.
    Planned(Plan, Touched),
    /// There is no policy, or it has no plan on the network, for the reason with this code.
    Refused { code: u32 },
}

impl Clone for Compiled {
    ghost is_clone = { λ compiled copy. copy ≡ compiled };

    fn clone(&self) -> Result<Compiled, AllocError> {
        match self {
            Compiled::Planned(plan, touched) => {
                Ok(Compiled::Planned(plan.clone()?, touched.clone()?))
            }
            Compiled::Refused { code } => Ok(Compiled::Refused { code: *code }),
        }
    }
}

/// The files, with the plan of the newest version, to whose policy changes are applied. A policy
/// is compiled at most once, a change once for each newest version; clones of a plan share it.
/// Contracts see the network, the files and the newest version's policy.
#[derive(Drop)]
pub struct Files {
    net: Net,
    files: Vec<PolicyFile>,
    newest: Plan,
    // One for each file: the result, if the file was compiled for this newest policy.
    compiled: Vec<Option<Compiled>>,
}

impl Model for Files {
    ghost use Rattle.world.specs.Files.{WorldFilesValue, AreWorldFilesCompiled};

    ghost Value = { WorldFilesValue };

    ghost view = { λ f. record { net = f.net; files = f.files.items; newest = f.newest.policy } };

    ghost invariant = { λ f. AreWorldFilesCompiled f.net f.files.items f.newest.policy f.compiled.items };
}

impl Files {
    /// These files, of which the first one has a policy. Its plan is that of the newest version.
    ///
    /// # Errors
    /// Only out of memory.
    #[tactic(auto, using(crate::proofs::WorldKeptFiles::first_there))]
    pub fn new(
        alloc: Global,
        net: Net,
        files: Vec<PolicyFile>,
        plan: Plan,
    ) -> Result<Files, AllocError>
        requires net { IsNet net }
        requires first { world_first_file_policy files.items ≡ Some plan.policy }
        requires planned { IsWorldFileCompiled net (Ok plan.policy, cache_all_touched) (Planned plan cache_all_touched) }
        ensures { IfOk result (λ made. made
            ≡ record { net = net; files = files.items; newest = plan.policy }) }
    {
        let first = plan.clone()?;
        let mut compiled = Vec::with_capacity(alloc, files.len())?;
        compiled.push(Some(Compiled::Planned(first, Touched::all())))?;
        while compiled.len() < files.len() {
            compiled.push(None)?;
        }
        Ok(Files {
            net,
            files,
            newest: plan,
            compiled,
        })
    }

    /// The plan of the policy that the file at this place, from 0, has or makes of the newest
    /// policy, and what it touches of that; or the code of why there is none.
    ///
    /// # Errors
    /// Only out of memory.
    pub fn compiled(&mut self, alloc: Global, place: usize) -> Result<Compiled, AllocError>
        requires { place < length self.old.files }
        ensures compiled { IfOk result
            (IsWorldFileCompiled self.old.net (world_file_made_at self.old.files self.old.newest place)) }
        ensures same { self.new ≡ self.old }
    {
        if let Some(compiled) = &self.compiled[place] {
            return Ok(compiled.clone()?);
        }
        let file = &self.files[place];
        let newest = self.newest.policy();
        let compiled = compiled_world_file(alloc, file, newest, &self.net)?;
        let kept = compiled.clone()?;
        self.compiled[place] = Some(kept);
        Ok(compiled)
    }

    /// The newest version has this plan from now on.
    pub fn set_newest(&mut self, plan: Plan)
        ensures { self.new ≡ record self.old { newest = plan.policy } }
    {
        forget_world_change_plans(&self.files, &mut self.compiled);
        self.newest = plan;
    }
}

/// The policy of the first file.
#[tactic(auto, using(crate::proofs::WorldKeptFiles::first_there, crate::proofs::WorldKeptFiles::first_at))]
pub fn world_first_policy(files: &[PolicyFile]) -> &Policy
    requires { IsSome (world_first_file_policy files.now) }
    ensures { world_first_file_policy files.now ≡ Some result.now }
{
    match &files[0] {
        PolicyFile::Whole(policy) => policy,
        PolicyFile::Change(_) => unreachable!(),
    }
}

// Forgets the results for changes, which depend on the newest policy.
fn forget_world_change_plans(files: &[PolicyFile], compiled: &mut Vec<Option<Compiled>>)
    requires { length compiled.old.items ≡ length files.now }
    ensures { WorldFilesKeepWhole files.now compiled.old.items compiled.new.items }
{
    for (place, file) in files.iter().enumerate() {
        match file {
            PolicyFile::Whole(_) => {}
            PolicyFile::Change(_) => compiled[place] = None,
        }
    }
}

// The plan of what the file makes of the newest policy, or the code of its refusal.
fn compiled_world_file(
    alloc: Global,
    file: &PolicyFile,
    newest: &Policy,
    net: &Net,
) -> Result<Compiled, AllocError>
    requires { IsNet net.now }
    ensures { IfOk result (IsWorldFileCompiled net.now (world_file_made_from file.now newest.now)) }
{
    match file {
        PolicyFile::Whole(policy) => compiled_world_policy(alloc, policy, Touched::all(), net),
        PolicyFile::Change(change) => compiled_world_amendment(alloc, newest, change, net),
    }
}

// The plan of the policy on the network, or the code of its refusal.
fn compiled_world_policy(
    alloc: Global,
    policy: &Policy,
    touched: Touched,
    net: &Net,
) -> Result<Compiled, AllocError>
    requires { IsNet net.now }
    ensures { IfOk result (IsWorldFileCompiled net.now (Ok policy.now, touched)) }
{
    match compile(alloc, policy, net) {
        Ok(plan) => Ok(Compiled::Planned(plan, touched)),
        Err(error) => match code_of(error) {
            Some(code) => Ok(Compiled::Refused { code }),
            None => Err(AllocError),
        },
    }
}

// The plan of the policy that the change makes of this one, or the code of its refusal.
fn compiled_world_amendment(
    alloc: Global,
    policy: &Policy,
    change: &Amendment,
    net: &Net,
) -> Result<Compiled, AllocError>
    requires { IsNet net.now }
    ensures { IfOk result (IsWorldFileCompiled net.now
        (policy_change_applied policy.now change.now, controller_touched_few policy.now change.now)) }
{
    let code = match apply(alloc, policy, change) {
        Ok(amended) => {
            let touched = touched(alloc, policy, change)?;
            return compiled_world_policy(alloc, &amended, touched, net);
        }
        Err(ApplyError::Refused(Inapplicable::Absent)) => ABSENT,
        Err(ApplyError::Refused(Inapplicable::Taken)) => TAKEN,
        Err(ApplyError::Refused(Inapplicable::TooManyRows { .. })) => TOO_MANY_ROWS,
        Err(ApplyError::NoMemory) => return Err(AllocError),
    };
    Ok(Compiled::Refused { code })
}
