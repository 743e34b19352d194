ghost use Rattle.std.specs.Prelude.{Some};
ghost use Rattle.policy_rules.specs.Policy.{policy_action_text, policy_rule_text};

use crate::policy::Action;
use std::fmt;

/// Printed as `drop`, or as `out:` and the port.
impl fmt::Display for Action {
    ghost output = { λ action. Some (policy_action_text action) };

    fn fmt<W: fmt::Write>(&self, f: &mut fmt::Formatter<W>) -> fmt::Result {
        match self {
            Action::Drop => write!(f, "drop"),
            Action::Out(port) => write!(f, "out:{port}"),
        }
    }
}

/// A rule's name: the priority of its row, or `default` if it comes from no row.
#[derive(Clone, Copy, Debug, PartialEq, Eq)]
pub struct RuleName(pub Option<u32>);

impl fmt::Display for RuleName {
    ghost output = { λ name. Some (policy_rule_text name.0) };

    fn fmt<W: fmt::Write>(&self, f: &mut fmt::Formatter<W>) -> fmt::Result {
        match self.0 {
            Some(priority) => write!(f, "{priority}"),
            None => write!(f, "default"),
        }
    }
}
