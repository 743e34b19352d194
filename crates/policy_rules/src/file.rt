use crate::amendment::Amendment;
use crate::policy::Policy;

/// What a policy file has: a policy, or a change of one.
#[derive(Drop)]
pub enum PolicyFile {
    Whole(Policy),
    Change(Amendment),
}
