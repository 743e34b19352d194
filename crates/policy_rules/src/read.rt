ghost use Rattle.std.specs.Prelude.{◌≡◌, Some, IfSome};
ghost use Rattle.policy_rules.specs.declared.policy.Action.{Action};
ghost use Rattle.policy_rules.specs.Exports.{HasSmallPolicyActionPort, policy_action_of, policy_action_text};

use crate::policy::Action;
use five_tuple::{read_number, tuple_fields_read_back};

/// The action that the text names: `drop`, or `out:` and a port's number from 0 to 63; `None` for
/// any other text.
#[tactic(auto, unfolding(crate::specs::Read::policy_action_of))]
pub fn read_policy_rule_action(text: &[u8]) -> Option<Action>
    ensures value { result ≡ policy_action_of text.now }
    ensures small_port { IfSome result HasSmallPolicyActionPort }
{
    if text == b"drop".as_slice() {
        return Some(Action::Drop);
    }
    let port = text.strip_prefix(b"out:".as_slice())?;
    let port = read_number(port, 63)?;
    Some(Action::Out(port as u32))
}

/// Each printed action with a port below 64 is read back to the action: a law about the texts only.
pub fn printed_rule_actions_read_back()
    ensures { (action : Action) → HasSmallPolicyActionPort action
        → policy_action_of (policy_action_text action) ≡ Some action }
{
    tuple_fields_read_back();
}
