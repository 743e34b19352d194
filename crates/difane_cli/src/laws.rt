//! The law about plans on the network of one switch.
ghost use Rattle.std.specs.Prelude.{◌≡◌, ◌≤◌, Ok, List, [], ◌∷◌};
ghost use Rattle.net_file.specs.Net.{net_of_one_switch};
ghost use Rattle.partition.specs.Plan.{partition_plan_of};
ghost use Rattle.policy_rules.specs.Policy.{IsPolicy};
ghost use Rattle.policy_rules.specs.RuleList.{policy_rules_of, policy_row_word_total};
ghost use Rattle.policy_rules.specs.declared.policy.Row.{Row};
ghost use Rattle.ternary.specs.Meets.{any_word};

use cut_tree::tree_laws;
use policy_rules::rule_list_laws;

/// On the network of one switch a policy that has few enough words has a plan: one partition with
/// all its rules, for all headers, hosted by this switch. So codes 14 and 15 don't occur there.
pub fn program_one_switch_laws()
    ensures { (rows : List Row) → IsPolicy rows → policy_row_word_total rows ≤ 4096
        → partition_plan_of rows net_of_one_switch
        ≡ Ok ((record { number = 0; region = any_word; rules = policy_rules_of rows }, 0 ∷ []) ∷ []) }
{
    rule_list_laws();
    tree_laws();
}
