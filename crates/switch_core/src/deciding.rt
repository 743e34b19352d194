ghost use Rattle.std.specs.Prelude.{◌≡◌, ◌<◌, ℕ, List, length};
ghost use Rattle.std.specs.Option.{option_copied};
ghost use Rattle.switch_core.specs.Deciding.{IsSwitchFirstHit, switch_decision_by_entry, switch_decision_by_rule, switch_cache_rule_sent, switch_own_partition, switch_packet_to_look_up, switch_core_rule_in};
ghost use Rattle.switch_core.specs.Forwarding.{switch_core_cache_rule};

use cache_maker::widen;
use five_tuple::Header;
use policy_rules::{Action, How, Partition, Rule};
use switch_table::{CacheEntry, Tables};
use ternary::Word;

/// By which rule a switch decides a packet.
#[derive(Clone, Copy, Debug, PartialEq, Eq)]
pub struct Decision {
    /// The version of the policy that has the rule.
    pub version: u32,
    /// The priority of the row, or `None` for the default.
    pub rule: Option<u32>,
    pub action: Action,
    pub how: How,
}

impl Decision {
    /// A decision by a cached rule.
    pub(crate) fn by_entry(entry: &CacheEntry) -> Decision
        ensures { result ≡ switch_decision_by_entry entry.now }
    {
        Decision {
            version: entry.version,
            rule: entry.rule,
            action: entry.action,
            how: How::Cached {
                message: entry.message,
            },
        }
    }

    /// A decision by a rule of a partition of which this switch is an authority.
    pub(crate) fn by_rule(switch: u32, version: u32, partition: u32, rule: &Rule) -> Decision
        ensures { result ≡ switch_decision_by_rule switch version partition rule.now }
    {
        Decision {
            version,
            rule: rule.rule,
            action: rule.action,
            how: How::Authority { switch, partition },
        }
    }
}

/// A switch's own partition of this number; `None` if it has none.
pub fn switch_own_part(tables: &Tables, number: u32) -> Option<&Partition>
    ensures { option_copied result ≡ switch_own_partition tables.now number }
{
    let parts = tables.auth.items();
    parts.iter().find(|part| part.number == number)
}

/// The rule at a place.
pub fn switch_core_rule_in(part: &Partition, place: u32) -> &Rule
    requires { place < length part.now.rules }
    ensures { result.now ≡ switch_core_rule_in part.now place }
{
    &part.rules.items()[place as usize]
}

/// The word of the rule for the cache of the switch where the packet entered; `None` if that is
/// this switch.
#[tactic(auto, unfolding(crate::specs::Deciding::switch_cache_rule_sent))]
pub fn switch_core_cache_word(
    switch: u32,
    header: &Header,
    ingress: u32,
    part: &Partition,
    place: u32,
) -> Option<Word>
    requires { IsSwitchFirstHit header.now part.now place }
    ensures { (number version : ℕ) (down : List ℕ) →
        switch_core_cache_rule (switch_decision_by_rule switch version part.now.number (switch_core_rule_in part.now place)) result
        ≡ switch_cache_rule_sent switch (switch_packet_to_look_up number header.now ingress down) version part.now place }
{
    if ingress == switch {
        return None;
    }
    Some(widen(header, &part.region, part.rules.items(), place))
}
