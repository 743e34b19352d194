ghost use Rattle.schedule.specs.Kinds.{ScheduleKindLaws};
ghost use Rattle.schedule.specs.Reading.{ScheduleLaws};

/// The events that a text states are events that the network may take, and at most 100,000: a law
/// about the texts only.
pub fn schedule_laws()
    ensures { ScheduleLaws }
{}

/// Each kind has its own keyword, and each keyword that names a kind is the kind's.
pub fn schedule_kind_laws()
    ensures { ScheduleKindLaws }
{}
