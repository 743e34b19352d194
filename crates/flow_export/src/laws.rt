//! What the records of flow meters count.
ghost use Rattle.flow_export.specs.Counted.{FlowMeterLaws};

/// If flow meters began empty, each record of a meter that stays counts all packets that left by
/// its port with its header. If no meter leaves, each record does so.
pub fn flow_laws()
    ensures { FlowMeterLaws }
{}
