//! Flow records: how many packets of each header left a port.
ghost use Rattle.std.specs.Prelude.{◌≡◌, ◌++◌, OnOk};

use five_tuple::Header;
use std::alloc::AllocError;
use std::marker::Model;

/// How many packets of one header left by a port.
#[derive(Clone, Copy, Debug, PartialEq, Eq)]
pub struct FlowRecord {
    pub port: u32,
    pub header: Header,
    pub packets: u64,
}

/// Flow records, in order. Contracts see the list.
#[derive(Drop)]
pub struct Flows {
    records: Vec<FlowRecord>,
}

impl Model for Flows {
    ghost use Rattle.std.specs.Prelude.{List};
    ghost use Rattle.meters.specs.declared.flows.FlowRecord.{FlowRecord};

    ghost Value = { List FlowRecord };

    ghost view = { λ f. f.records.items };
}

impl Flows {
    /// These records. Allocates nothing.
    pub fn new(records: Vec<FlowRecord>) -> Flows
        ensures { result ≡ records.items }
    {
        Flows { records }
    }

    /// The records, in order.
    pub fn items(&self) -> &[FlowRecord]
        ensures { result.now ≡ self.now }
    {
        &self.records
    }

    /// Adds more records after these.
    ///
    /// # Errors
    /// Only out of memory.
    pub(crate) fn append(&mut self, mut more: Flows) -> Result<(), AllocError>
        ensures { OnOk result (self.new ≡ self.old ++ more) }
    {
        self.records.append(&mut more.records)
    }
}
