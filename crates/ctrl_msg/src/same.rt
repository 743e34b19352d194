//! Whether two tables, or the words that two changes touch, are the same, value by value.
ghost use Rattle.std.specs.Prelude.{◌≡◌, ◌↔◌, IsTrue};

use policy_rules::{Partition, Rule};
use switch_table::{PartRow, Tables, Touched};
use ternary::Word;

/// Whether they are the same tables.
pub fn are_same_control_message_tables(one: &Tables, other: &Tables) -> bool
    ensures { IsTrue result ↔ (one.now ≡ other.now) }
{
    one.version == other.version && have_same_message_table_rows(one, other)
}

/// Whether they are the same tables, whatever their versions are.
pub fn have_same_message_table_rows(one: &Tables, other: &Tables) -> bool
    ensures { IsTrue result ↔ (one.now ≡ record other.now { version = one.now.version }) }
{
    are_same_control_message_values(one.auth.items(), other.auth.items())
        && are_same_control_message_values(one.parts.items(), other.parts.items())
}

/// Whether they are the same words, in the same order.
pub fn are_same_control_message_words(one: &Touched, other: &Touched) -> bool
    ensures { IsTrue result ↔ (one.now ≡ other.now) }
{
    are_same_control_message_values(one.words(), other.words())
}

// A part of tables, or a touched word.
trait Same {
    // Whether they are the same value.
    fn is_same(&self, other: &Self) -> bool
        ensures { IsTrue result ↔ (self.now ≡ other.now) };
}

impl Same for Partition {
    fn is_same(&self, other: &Partition) -> bool {
        self.number == other.number
            && self.region == other.region
            && are_same_control_message_values(self.rules.items(), other.rules.items())
    }
}

impl Same for Rule {
    fn is_same(&self, other: &Rule) -> bool {
        self == other
    }
}

impl Same for Word {
    fn is_same(&self, other: &Word) -> bool {
        self == other
    }
}

impl Same for PartRow {
    fn is_same(&self, other: &PartRow) -> bool {
        self.region == other.region && self.targets.items() == other.targets.items()
    }
}

// Whether they are the same values, in the same order.
fn are_same_control_message_values<T: Same>(one: &[T], other: &[T]) -> bool
    ensures { IsTrue result ↔ (one.now ≡ other.now) }
{
    if one.len() != other.len() {
        return false;
    }
    for place in 0..one.len() {
        if !one[place].is_same(&other[place]) {
            return false;
        }
    }
    true
}
