ghost use Rattle.std.specs.Prelude.{◌≡◌, ◌↔◌, IfOk, IsTrue, List, Some, option_copied};
ghost use Rattle.std.specs.Result.{result_ok};
ghost use Rattle.policy_rules.specs.Applied.{policy_change_applied};
ghost use Rattle.policy_rules.specs.declared.file.PolicyFile.{PolicyFile};
ghost use Rattle.update_machine.specs.Machine.{MachinePacketMayEnd};
ghost use Rattle.trace_audit.specs.Reading.{trace_numbered_file, first_trace_state, audit_latest_policy, audit_made_policy};
ghost use Rattle.update_machine.specs.Setting.{machine_policy_made_by};
ghost use Rattle.trace_audit.specs.Seen.{IsTraceLineTaken, trace_end_seen, audit_packet_seen, trace_state_seen, trace_told_seen};
ghost use Rattle.trace_audit.specs.Told as told;

use crate::index::IndexedAuditPolicy;
use crate::packets::{AuditedPackets, TracePacket};
use crate::printed::is_printed_in_trace;
use crate::told::{End, LineMeaning};
use base::MAX_VERSIONS;
use policy_rules::{Action, Amendment, ApplyError, Header, Policy, PolicyFile, apply};
use std::alloc::{AllocError, Global};

/// What a reader of a trace knows after the lines that it read: the policies of the versions, the
/// mark, the packets, and the pending header of a packet's row.
#[derive(Drop)]
pub(crate) struct Auditor {
    policies: Vec<IndexedAuditPolicy>,
    mark: u32,
    packets: AuditedPackets,
    pending: Option<Header>,
}

/// The policy that the file of this number has, or makes of the newest one, if there is one.
#[tactic(auto, using(crate::proofs::AuditMadePolicies::policy_of, crate::proofs::AuditMadePolicies::no_policy))]
fn audit_made_policy(
    alloc: Global,
    files: &[PolicyFile],
    file: u32,
    newest: Option<&Policy>,
) -> Result<Option<Policy>, AllocError>
    ensures { IfOk result (λ made. made ≡ audit_made_policy files.now file (option_copied newest.entry)) }
{
    match trace_numbered_file(files, file) {
        Some(file) => audit_policy_made_by(alloc, file, newest),
        None => Ok(None),
    }
}

// The file of this number, from 1, if it exists.
fn trace_numbered_file(files: &[PolicyFile], file: u32) -> Option<&PolicyFile>
    ensures { option_copied result ≡ trace_numbered_file files.now file }
{
    if file == 0 {
        return None;
    }
    files.get(file as usize - 1)
}

// The policy that the file has, or makes of the newest one; `None` if it makes none.
fn audit_policy_made_by(
    alloc: Global,
    file: &PolicyFile,
    newest: Option<&Policy>,
) -> Result<Option<Policy>, AllocError>
    ensures { IfOk result (λ made. made
        ≡ result_ok (machine_policy_made_by (Some file.now) (option_copied newest.entry))) }
{
    match file {
        PolicyFile::Whole(policy) => Ok(Some(policy.clone()?)),
        PolicyFile::Change(change) => match newest {
            Some(policy) => changed(alloc, policy, change),
            None => Ok(None),
        },
    }
}

// The policy with the change applied to it; `None` if the policy refuses it.
#[tactic(auto, using(crate::proofs::AuditMadePolicies::some_made, crate::proofs::AuditMadePolicies::none_made))]
fn changed(alloc: Global, policy: &Policy, change: &Amendment) -> Result<Option<Policy>, AllocError>
    ensures { IfOk result (λ made. made ≡ result_ok (policy_change_applied policy.now change.now)) }
{
    match apply(alloc, policy, change) {
        Ok(amended) => Ok(Some(amended)),
        Err(ApplyError::Refused(_)) => Ok(None),
        Err(ApplyError::NoMemory) => Err(AllocError),
    }
}

impl Auditor {
    /// What is known before the first line.
    ///
    /// # Errors
    /// Only out of memory.
    pub fn new(alloc: Global, files: &[PolicyFile]) -> Result<Auditor, AllocError>
        ensures { IfOk result (λ auditor. trace_state_seen auditor ≡ first_trace_state files.now) }
    {
        let mut policies = Vec::new(alloc);
        if let Some(policy) = audit_made_policy(alloc, files, 1, None)? {
            policies.push(IndexedAuditPolicy::new(alloc, policy)?)?;
        }
        Ok(Auditor {
            policies,
            mark: 0,
            packets: AuditedPackets::new(alloc),
            pending: None,
        })
    }

    // The policy of the newest version, if there is one.
    fn newest(&self) -> Option<&Policy>
        ensures { option_copied result ≡ audit_latest_policy self.now.policies.items }
    {
        match self.policies.last() {
            Some(version) => Some(version.policy()),
            None => None,
        }
    }

    fn enter(&mut self, number: u32) -> Result<bool, AllocError>
        ensures { (files : List PolicyFile) → IfOk result
            (IsTraceLineTaken files (trace_state_seen self.old) (told.Entered number) (trace_state_seen self.new)) }
    {
        let Some(header) = self.pending else {
            return Ok(false);
        };
        if self.packets.get(number).is_some() {
            return Ok(false);
        }
        self.packets
            .put(number, TracePacket::new(header, self.mark))?;
        self.pending = None;
        Ok(true)
    }

    fn submit(
        &mut self,
        alloc: Global,
        files: &[PolicyFile],
        file: u32,
        version: u32,
    ) -> Result<bool, AllocError>
        ensures { IfOk result (IsTraceLineTaken files.now (trace_state_seen self.old) (told.Submitted file version) (trace_state_seen self.new)) }
    {
        if version > MAX_VERSIONS || version as usize != self.policies.len() + 1 {
            return Ok(false);
        }
        match audit_made_policy(alloc, files, file, self.newest())? {
            None => Ok(false),
            Some(policy) => {
                self.policies.push(IndexedAuditPolicy::new(alloc, policy)?)?;
                Ok(true)
            }
        }
    }

    fn retire(&mut self, version: u32) -> bool
        ensures { (files : List PolicyFile) →
            IsTraceLineTaken files (trace_state_seen self.old) (told.Retired version) (trace_state_seen self.new) result }
    {
        if version <= self.mark || version as usize >= self.policies.len() {
            return false;
        }
        self.mark = version;
        true
    }

    fn decide(
        &mut self,
        number: u32,
        version: u32,
        rule: &[u8],
        action: &[u8],
    ) -> Result<bool, AllocError>
        ensures { (files : List PolicyFile) → IfOk result
            (IsTraceLineTaken files (trace_state_seen self.old) (told.Decided number version rule.now action.now) (trace_state_seen self.new)) }
    {
        let Some(packet) = self.packets.get(number) else {
            return Ok(false);
        };
        if packet.action().is_some() || packet.has_ended() || version <= packet.entry_mark() {
            return Ok(false);
        }
        let Some(policy) = self.policies.get(version as usize - 1) else {
            return Ok(false);
        };
        let hit = policy.first_match(&packet.header());
        if !is_printed_in_trace(rule, action, hit) {
            return Ok(false);
        }
        self.packets.put(number, packet.decided(hit))?;
        Ok(true)
    }

    fn end(&mut self, number: u32, end: End) -> Result<bool, AllocError>
        ensures { (files : List PolicyFile) → IfOk result
            (IsTraceLineTaken files (trace_state_seen self.old) (told.Ended number (trace_end_seen end)) (trace_state_seen self.new)) }
    {
        let Some(packet) = self.packets.get(number) else {
            return Ok(false);
        };
        if packet.has_ended() || !may_trace_packet_end(&packet, end) {
            return Ok(false);
        }
        self.packets.put(number, packet.ended(end))?;
        Ok(true)
    }

    /// Takes the move that a line states, and returns whether the machine may take it.
    ///
    /// # Errors
    /// Only out of memory.
    pub fn take(
        &mut self,
        alloc: Global,
        files: &[PolicyFile],
        told: &LineMeaning,
    ) -> Result<bool, AllocError>
        ensures { IfOk result (IsTraceLineTaken files.now (trace_state_seen self.old) (trace_told_seen told.now) (trace_state_seen self.new)) }
    {
        match *told {
            LineMeaning::Row(header) => {
                self.pending = header;
                Ok(true)
            }
            LineMeaning::Entered(packet) => self.enter(packet),
            LineMeaning::Submitted { file, version } => self.submit(alloc, files, file, version),
            LineMeaning::Retired(version) => Ok(self.retire(version)),
            LineMeaning::Decided {
                packet,
                version,
                rule,
                action,
            } => self.decide(packet, version, rule, action),
            LineMeaning::Ended { packet, end } => self.end(packet, end),
            LineMeaning::Nothing => Ok(true),
        }
    }
}

// Whether the packet may end like this.
fn may_trace_packet_end(packet: &TracePacket, end: End) -> bool
    ensures { IsTrue result ↔ MachinePacketMayEnd (audit_packet_seen packet.now) (trace_end_seen end) }
{
    match end {
        End::Dropped => packet.action() == Some(Action::Drop),
        End::LeftBy(port) => packet.action() == Some(Action::Out(port)),
        End::Lost | End::Stuck => true,
    }
}
