ghost use Rattle.std.specs.Prelude.{◌≡◌};
ghost use Rattle.ctrl_msg.specs.declared.message.Body.TheVariants.{CacheRule};
ghost use Rattle.journal_text.specs.Lines.{journal_advert_text, journal_body_text, journal_boot_text, journal_cache_text, journal_text_with_name, journal_receiver_text, journal_cached_rule_text, journal_version_text};
ghost use Rattle.journal_text.specs.Sizes.{IsJournalTextBody};
ghost use Rattle.journal_text.specs.AdvertTexts.{AreJournalAdvertTexts};
ghost use Rattle.lines.specs.Sizes.{IsPrintedLineAction, IsNumberInPrintedLine, IsPrintedLineRule};
ghost use Rattle.lines.specs.Pushes.{line_with};

use crate::advert_texts::AdvertTexts;
use crate::names::push_journal_mask_text;
use crate::rows::{push_item_named_number, push_journal_numbered_text};
use ctrl_msg::{Body, Place};
use failover::Advert;
use lines::{Line, push_line_action, push_line_word, push_name, push_rule};
use net_file::Net;
use policy_rules::Action;
use ternary::Word;

/// Adds the receiver of a message.
pub(crate) fn push_message_receiver(line: &mut Line, net: &Net, to: Place)
    ensures { line.new ≡ line_with line.old (journal_receiver_text net.now to) }
{
    match to {
        Place::Switch(s) => push_name(line, net, s),
        Place::Controller => line.push("controller"),
    }
}

// Adds a boot after a text.
#[tactic(auto, using(lines::proofs::LinesCallerLemmas::pushed_append))]
fn push_boot_number(line: &mut Line, text: &str, boot: u32)
    ensures { line.new ≡ line_with line.old (journal_boot_text text.now boot) }
{
    line.push(text);
    line.push(" boot ");
    line.push_number(u64::from(boot));
}

#[tactic(auto, using(lines::proofs::LinesCallerLemmas::pushed_append))]
fn push_version_number(line: &mut Line, text: &str, boot: u32, version: u32)
    ensures { line.new ≡ line_with line.old (journal_version_text text.now boot version) }
{
    push_boot_number(line, text, boot);
    line.push(" version ");
    line.push_number(u64::from(version));
}

#[tactic(auto, using(lines::proofs::LinesCallerLemmas::pushed_append))]
fn push_booted_body(line: &mut Line, net: &Net, text: &str, switch: u32, boot: u32)
    ensures { line.new ≡ line_with line.old (journal_boot_text (journal_text_with_name net.now text.now switch) boot) }
{
    push_item_named_number(line, net, text, switch, " boot ", boot);
}

#[tactic(auto, using(lines::proofs::LinesCallerLemmas::pushed_append))]
fn push_answer_body(line: &mut Line, net: &Net, text: &str, switch: u32, boot: u32, version: u32)
    ensures { line.new
        ≡ line_with line.old (journal_version_text (journal_text_with_name net.now text.now switch) boot version) }
{
    push_booted_body(line, net, text, switch, boot);
    line.push(" version ");
    line.push_number(u64::from(version));
}

/// Adds a rule and its action.
#[tactic(auto, using(lines::proofs::LinesCallerLemmas::pushed_append), unfolding(crate::specs::Lines::journal_cached_rule_text))]
pub(crate) fn push_journal_cached_rule(line: &mut Line, rule: Option<u32>, action: Action)
    ensures text { line.new ≡ line_with line.old (journal_cached_rule_text rule action) }
    ensures of_type { IsPrintedLineRule rule × IsPrintedLineAction action }
{
    line.push(" rule ");
    push_rule(line, rule);
    line.push(" ");
    push_line_action(line, action);
}

fn push_journal_cache_rule(
    line: &mut Line,
    version: u32,
    word: &Word,
    rule: Option<u32>,
    action: Action,
)
    ensures text { line.new ≡ line_with line.old (journal_cache_text version word.now rule action) }
    ensures of_type { IsJournalTextBody (CacheRule version word.now rule action) }
{
    push_journal_numbered_text(line, "cache version", version);
    line.push(" word ");
    push_line_word(line, word);
    push_journal_cached_rule(line, rule, action);
}

/// Adds an advert: its origin, boot and number, and the neighbours that it names.
#[tactic(auto, using(lines::proofs::LinesCallerLemmas::pushed_append))]
pub(crate) fn push_journal_advert_text(line: &mut Line, net: &Net, advert: &Advert)
    ensures text { line.new ≡ line_with line.old (journal_advert_text net.now advert.now) }
    ensures of_type { IsNumberInPrintedLine advert.now.boot × IsNumberInPrintedLine advert.now.seq }
{
    let Advert {
        origin,
        boot,
        seq,
        up,
    } = *advert;
    push_booted_body(line, net, "advert", origin, boot);
    line.push(" seq ");
    line.push_number(u64::from(seq));
    line.push(" up");
    push_journal_mask_text(line, net, up);
}

/// Adds a message's body.
pub(crate) fn push_journal_body_text(
    line: &mut Line,
    net: &Net,
    texts: &mut AdvertTexts,
    body: &Body,
)
    requires { AreJournalAdvertTexts net.now texts.old }
    ensures text { line.new ≡ line_with line.old (journal_body_text net.now body.now) }
    ensures of_type { IsJournalTextBody body.now }
    ensures texts { AreJournalAdvertTexts net.now texts.new }
{
    match body {
        Body::Install { boot, tables } => {
            push_version_number(line, "install", *boot, tables.tables().version)
        }
        Body::OpenAt { boot, version } => push_version_number(line, "open", *boot, *version),
        Body::Stamp { boot, version, .. } => push_version_number(line, "stamp", *boot, *version),
        Body::Collect { boot, version } => push_version_number(line, "collect", *boot, *version),
        Body::CacheRule {
            version,
            word,
            rule,
            action,
        } => push_journal_cache_rule(line, *version, word, *rule, *action),
        Body::Advertise { advert } => texts.push(line, net, advert),
        Body::Hello { switch, boot } => push_booted_body(line, net, "hello", *switch, *boot),
        Body::Installed {
            switch,
            boot,
            version,
        } => push_answer_body(line, net, "installed", *switch, *boot, *version),
        Body::Stamped {
            switch,
            boot,
            version,
        } => push_answer_body(line, net, "stamped", *switch, *boot, *version),
    }
}
