ghost use Rattle.std.specs.Prelude.{◌≡◌};
ghost use Rattle.policy_rules.specs.Policy.{policy_action_text, policy_rule_text};
ghost use Rattle.ternary.specs.Word.{word_hex_digits, ternary_word_text};
ghost use Rattle.lines.specs.Sizes.{IsPrintedLineAction, IsPrintedLineRule};
ghost use Rattle.lines.specs.Pushes.{line_with};

use crate::line::Line;
use policy_rules::Action;
use ternary::Word;

// The two hexadecimal digits of each number below 256, one after another.
static HEX_PAIRS: [u8; 512] = *b"\
000102030405060708090a0b0c0d0e0f101112131415161718191a1b1c1d1e1f\
202122232425262728292a2b2c2d2e2f303132333435363738393a3b3c3d3e3f\
404142434445464748494a4b4c4d4e4f505152535455565758595a5b5c5d5e5f\
606162636465666768696a6b6c6d6e6f707172737475767778797a7b7c7d7e7f\
808182838485868788898a8b8c8d8e8f909192939495969798999a9b9c9d9e9f\
a0a1a2a3a4a5a6a7a8a9aaabacadaeafb0b1b2b3b4b5b6b7b8b9babbbcbdbebf\
c0c1c2c3c4c5c6c7c8c9cacbcccdcecfd0d1d2d3d4d5d6d7d8d9dadbdcdddedf\
e0e1e2e3e4e5e6e7e8e9eaebecedeeeff0f1f2f3f4f5f6f7f8f9fafbfcfdfeff";

// The number in 26 hexadecimal digits.
fn hex_digits_of(number: u128) -> [u8; 26]
    ensures { result ≡ word_hex_digits 26 number }
{
    let mut digits = [0; 26];
    let mut left = number;
    let mut at = 26;
    while at > 0 {
        at -= 2;
        let from = (left % 256) as usize * 2;
        digits[at] = HEX_PAIRS[from];
        digits[at + 1] = HEX_PAIRS[from + 1];
        left /= 256;
    }
    digits
}

/// Adds a word as its value and its mask with a slash between them.
#[tactic(auto, using(crate::proofs::LinesCallerLemmas::pushed_append), unfolding(ternary::specs::Word::ternary_word_text))]
pub fn push_line_word(line: &mut Line, word: &Word)
    ensures { line.new ≡ line_with line.old (ternary_word_text word.now) }
{
    line.push_bytes(&hex_digits_of(word.value()));
    line.push("/");
    line.push_bytes(&hex_digits_of(word.mask()));
}

/// Adds a rule's name: the priority of its row, or `default`.
pub fn push_rule(line: &mut Line, rule: Option<u32>)
    ensures text { line.new ≡ line_with line.old (policy_rule_text rule) }
    ensures of_type { IsPrintedLineRule rule }
{
    match rule {
        Some(priority) => line.push_number(u64::from(priority)),
        None => line.push("default"),
    }
}

/// Adds an action: `drop`, or `out:` and the port.
#[tactic(auto, using(crate::proofs::LinesCallerLemmas::pushed_append))]
pub fn push_line_action(line: &mut Line, action: Action)
    ensures text { line.new ≡ line_with line.old (policy_action_text action) }
    ensures of_type { IsPrintedLineAction action }
{
    match action {
        Action::Drop => line.push("drop"),
        Action::Out(port) => {
            line.push("out:");
            line.push_number(u64::from(port));
        }
    }
}
