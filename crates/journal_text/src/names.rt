ghost use Rattle.std.specs.Prelude.{◌≡◌, ◌++◌, filter, codes};
ghost use Rattle.base.specs.Masks.{has, switches};
ghost use Rattle.net_file.specs.Net.{net_switch_name_of, net_switch_names_text};
ghost use Rattle.journal_text.specs.Lines.{journal_mask_text};
ghost use Rattle.lines.specs.Pushes.{line_with};

use base::only_if;
use lines::{Line, push_name};
use net_file::Net;

/// Adds the names of a mask's switches, ascending, each after a blank, or a dash for none.
pub(crate) fn push_journal_mask_text(line: &mut Line, net: &Net, mask: u64)
    ensures { line.new ≡ line_with line.old (journal_mask_text net.now mask) }
{
    if mask == 0 {
        line.push(" -");
    } else {
        push_mask_switches(line, net, mask);
    }
}

// Adds the names of a mask's switches, each after a blank, from the least number up.
#[tactic(auto, using(crate::proofs::JournalLineMasks::none_left, lines::proofs::LinesCallerLemmas::pushed_nothing))]
fn push_mask_switches(line: &mut Line, net: &Net, mask: u64)
    ensures { line.new ≡ line_with line.old (net_switch_names_text net.now (filter (has mask) switches)) }
{
    let mut rest = mask;
    while rest != 0 {
        let s = rest.trailing_zeros();
        push_journal_name_behind_blank(line, net, s);
        rest ^= only_if(true, s);
    }
    let _within = line.bytes();
}

// Adds the name of the switch, after a blank.
#[tactic(auto, using(lines::proofs::LinesCallerLemmas::pushed_append))]
fn push_journal_name_behind_blank(line: &mut Line, net: &Net, s: u32)
    ensures { line.new ≡ line_with line.old (codes " " ++ net_switch_name_of net.now s) }
{
    line.push(" ");
    push_name(line, net, s);
}
