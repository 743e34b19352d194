ghost use Rattle.std.specs.Prelude.{◌≡◌, ◌++◌, decimal};
ghost use Rattle.journal_text.specs.Lines.{journal_text_with_name, journal_text_with_number, journal_pair_text, journal_step_text};
ghost use Rattle.journal_text.specs.Sizes.{IsJournalTextStep};
ghost use Rattle.steps.specs.declared.step.Step.TheVariants.{Packet};
ghost use Rattle.lines.specs.Pushes.{line_with};

use five_tuple::Header;
use lines::{Line, push_line_fields, push_name};
use net_file::Net;
use steps::Step;

/// Adds a number after a text.
#[tactic(auto, using(lines::proofs::LinesCallerLemmas::pushed_append))]
pub(crate) fn push_journal_numbered_text(line: &mut Line, text: &str, n: u32)
    ensures { line.new ≡ line_with line.old (journal_text_with_number text.now n) }
{
    line.push(text);
    line.push(" ");
    line.push_number(u64::from(n));
}

/// Adds a switch's name after a text.
#[tactic(auto, using(lines::proofs::LinesCallerLemmas::pushed_append))]
pub(crate) fn push_named_switch(line: &mut Line, net: &Net, text: &str, s: u32)
    ensures { line.new ≡ line_with line.old (journal_text_with_name net.now text.now s) }
{
    line.push(text);
    line.push(" ");
    push_name(line, net, s);
}

/// Adds a switch's name and a number, each after a text.
#[tactic(auto, using(lines::proofs::LinesCallerLemmas::pushed_append))]
pub(crate) fn push_item_named_number(
    line: &mut Line,
    net: &Net,
    text: &str,
    s: u32,
    next: &str,
    n: u32,
)
    ensures { line.new ≡ line_with line.old (journal_text_with_name net.now text.now s ++ next.now
        ++ decimal n) }
{
    push_named_switch(line, net, text, s);
    line.push(next);
    line.push_number(u64::from(n));
}

/// Adds the names of two switches after a text.
#[tactic(auto, using(lines::proofs::LinesCallerLemmas::pushed_append))]
pub(crate) fn push_journal_switch_pair(line: &mut Line, net: &Net, text: &str, one: u32, two: u32)
    ensures { line.new ≡ line_with line.old (journal_pair_text net.now text.now one two) }
{
    push_named_switch(line, net, text, one);
    line.push(" ");
    push_name(line, net, two);
}

#[tactic(auto, using(lines::proofs::LinesCallerLemmas::pushed_append))]
fn push_journal_packet_row(line: &mut Line, net: &Net, switch: u32, header: &Header)
    ensures text { line.new ≡ line_with line.old (journal_step_text net.now (Packet switch header.now)) }
    ensures of_type { IsJournalTextStep (Packet switch header.now) }
{
    let _number = header.number();
    push_named_switch(line, net, "packet", switch);
    line.push(" ");
    push_line_fields(line, &header.fields());
}

/// Adds the fields of a step's row, separated by blanks.
pub(crate) fn push_journal_step_row(line: &mut Line, net: &Net, step: &Step)
    ensures text { line.new ≡ line_with line.old (journal_step_text net.now step.now) }
    ensures of_type { IsJournalTextStep step.now }
{
    match step {
        Step::Packet { switch, header } => push_journal_packet_row(line, net, *switch, header),
        Step::Hop { packet } => push_journal_numbered_text(line, "hop", *packet),
        Step::Lose { packet } => push_journal_numbered_text(line, "lose", *packet),
        Step::Deliver { message } => push_journal_numbered_text(line, "deliver", *message),
        Step::Forget { message } => push_journal_numbered_text(line, "forget", *message),
        Step::Expire { switch, place } => {
            push_item_named_number(line, net, "expire", *switch, " ", *place)
        }
        Step::Update { file } => push_journal_numbered_text(line, "update", *file),
        Step::LinkDown { one, two } => {
            push_journal_switch_pair(line, net, "linkdown", (*one).min(*two), (*one).max(*two))
        }
        Step::LinkUp { one, two } => {
            push_journal_switch_pair(line, net, "linkup", (*one).min(*two), (*one).max(*two))
        }
        Step::Crash { switch } => push_named_switch(line, net, "crash", *switch),
        Step::Restart { switch } => push_named_switch(line, net, "restart", *switch),
        Step::Confirm { switch } => push_named_switch(line, net, "confirm", *switch),
        Step::Resend { switch } => push_named_switch(line, net, "resend", *switch),
    }
}
