ghost use Rattle.version_update.specs.Laws.{UpdateRecordLaws, UpdateSettlingLaws};

/// A change settles in one way, and settled marks stay unchanged.
pub fn version_mark_settling_laws()
    ensures { UpdateSettlingLaws }
{}

/// The versions that a switch acknowledged are its first one and those of the messages recorded.
#[tactic(auto, using(crate::proofs::VersionAcknowledgements::first_acked, crate::proofs::VersionAcknowledgements::hello_acked, crate::proofs::VersionAcknowledgements::installed_acked, crate::proofs::VersionAcknowledgements::past_acked))]
pub fn version_update_acked_laws()
    ensures { UpdateRecordLaws }
{}
