ghost use Rattle.std.specs.Prelude.{◌≡◌, ◌↔◌, IsTrue, bytes_eq, decimal};
ghost use Rattle.policy_rules.specs.Policy.{policy_action_text, policy_rule_text};
ghost use Rattle.trace_audit.specs.Reading.{IsAuditDecisionPrinted};

use itoa::Buffer;
use policy_rules::{Action, Hit};

// Whether the text is the number in decimal digits.
fn is_trace_number(text: &[u8], n: u32) -> bool
    ensures { result ≡ bytes_eq text.now (decimal n) }
{
    let mut buffer = Buffer::new();
    text == buffer.format(u64::from(n)).as_bytes()
}

fn is_trace_rule(text: &[u8], rule: Option<u32>) -> bool
    ensures { result ≡ bytes_eq text.now (policy_rule_text rule) }
{
    match rule {
        Some(priority) => is_trace_number(text, priority),
        None => text == b"default".as_slice(),
    }
}

fn is_trace_action(text: &[u8], action: Action) -> bool
    ensures { result ≡ bytes_eq text.now (policy_action_text action) }
{
    match action {
        Action::Drop => text == b"drop".as_slice(),
        Action::Out(port) => match text.strip_prefix(b"out:".as_slice()) {
            Some(number) => is_trace_number(number, port),
            None => false,
        },
    }
}

/// Whether the decision is printed in these texts.
pub(crate) fn is_printed_in_trace(rule: &[u8], action: &[u8], hit: Hit) -> bool
    ensures { IsTrue result ↔ IsAuditDecisionPrinted rule.now action.now hit }
{
    is_trace_rule(rule, hit.rule) && is_trace_action(action, hit.action)
}
