ghost use Rattle.std.specs.Prelude.{◌≡◌, ◌≤◌, ◌<◌, ◌⊎◌, ◌↔◌, length, IfSome, IsNone};

use std::marker::Model;

/// The most targets of a partition.
const MAX_TARGETS: usize = 4;

/// One to four numbers of switches, in order: a partition's authority switch, then the backups.
///
/// They are stored in place, without an allocation. Contracts see the list.
#[derive(Clone, Copy, Debug, PartialEq, Eq)]
pub struct Targets {
    // The list, and 0 at the places beyond its end.
    places: [u32; MAX_TARGETS],
    len: u8,
}

impl Model for Targets {
    ghost use Rattle.std.specs.Prelude.{List, ℕ, take};
    ghost use Rattle.policy_rules.specs.Targets.{ArePolicyTargetsFilled, policy_filled_targets, policy_filled_targets-take};

    ghost Value = { List ℕ };

    ghost view = { λ t. take t.len t.places };

    ghost invariant = { ArePolicyTargetsFilled };

    ghost inverse = { policy_filled_targets };

    ghost inverse_ok = { policy_filled_targets-take };
}

impl Targets {
    /// The list of these switches; `None` if there are none, or more than four.
    pub fn new(switches: &[u32]) -> Option<Targets>
        ensures list { IfSome result (λ targets. targets ≡ switches.now) }
        ensures none { IsNone result ↔ ((length switches.now ≡ 0) ⊎ (4 < length switches.now)) }
    {
        if switches.is_empty() || switches.len() > MAX_TARGETS {
            return None;
        }
        let mut places = [0; MAX_TARGETS];
        places[..switches.len()].copy_from_slice(switches);
        Some(Targets {
            places,
            len: switches.len() as u8,
        })
    }

    /// The switches, the primary first.
    pub fn items(&self) -> &[u32]
        ensures list { result.now ≡ self.now }
        ensures some { 0 < length self.now }
        ensures few { length self.now ≤ 4 }
    {
        &self.places[..usize::from(self.len)]
    }
}
