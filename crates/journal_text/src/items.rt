ghost use Rattle.std.specs.Prelude.{◌≡◌, ◌≤◌, ◌++◌, ◌∷◌, [], IfOk, codes, length};
ghost use Rattle.net_file.specs.Net.{IsNet};
ghost use Rattle.journal.specs.declared.item.Item.TheVariants as item;
ghost use Rattle.journal_text.specs.Lines.{journal_cause_text, journal_how_text, journal_item_line, journal_text, journal_text_with_number, journal_packet_at_text, journal_two_numbers_text, journal_text_via};
ghost use Rattle.journal_text.specs.Sizes.{IsJournalTextBody, IsJournalTextItem, IsJournalTextRoute};
ghost use Rattle.journal_text.specs.AdvertTexts.{AreJournalAdvertTexts};
ghost use Rattle.lines.specs.Pushes.{line_with};

use crate::advert_texts::AdvertTexts;
use crate::messages::{push_journal_body_text, push_journal_cached_rule, push_message_receiver};
use crate::rows::{
    push_item_named_number, push_journal_numbered_text, push_journal_step_row,
    push_journal_switch_pair, push_named_switch,
};
use journal::{Action, Cause, How, Item, Journal, SharedMessage, SharedRoute};
use lines::{Line, push_name, push_names};
use net_file::{Net, switch_name_laws};
use std::alloc::{AllocError, Global};
use steps::Step;

/// The text of a journal: one line for each item.
///
/// # Errors
/// Only out of memory.
pub fn text(alloc: Global, journal: &Journal, net: &Net) -> Result<Vec<u8>, AllocError>
    requires { IsNet net.now }
    ensures { IfOk result (λ bytes. bytes.items ≡ journal_text net.now journal.now) }
{
    let items = journal.items();
    let mut text = Vec::new(alloc);
    let mut line = Line::new();
    let mut texts = AdvertTexts::new();
    for item in items {
        line.clear();
        push_journal_line(&mut line, net, &mut texts, item);
        text.extend_from_slice(line.bytes())?;
    }
    Ok(text)
}

/// Adds the line of the item, with its line feed. After 800 bytes there is room for any line.
#[inline(always)]
pub(crate) fn push_journal_line(line: &mut Line, net: &Net, texts: &mut AdvertTexts, item: &Item)
    requires net { IsNet net.now }
    requires room { length line.old ≤ 800 }
    requires texts { AreJournalAdvertTexts net.now texts.old }
    ensures text { line.new ≡ line.old ++ (journal_item_line net.now item.now ++ 10 ∷ []) }
    ensures texts { AreJournalAdvertTexts net.now texts.new }
{
    switch_name_laws();
    push_journal_item_text(line, net, texts, item);
    line.push("\n");
}

#[tactic(auto, using(lines::proofs::LinesCallerLemmas::pushed_append))]
fn push_journal_row_text(line: &mut Line, net: &Net, row: u32, step: &Step)
    ensures text { line.new ≡ line_with line.old (journal_item_line net.now (item.Row row step.now)) }
    ensures of_type { IsJournalTextItem (item.Row row step.now) }
{
    push_journal_numbered_text(line, "row", row);
    line.push(": ");
    push_journal_step_row(line, net, step);
}

// Adds a packet and a switch after a text.
#[tactic(auto, using(lines::proofs::LinesCallerLemmas::pushed_append))]
fn push_packet_at(line: &mut Line, net: &Net, text: &str, packet: u32, s: u32)
    ensures { line.new ≡ line_with line.old (journal_packet_at_text net.now text.now packet s) }
{
    push_journal_numbered_text(line, text, packet);
    line.push(" ");
    push_name(line, net, s);
}

// Adds the switches of a route.
#[tactic(auto, using(lines::proofs::LinesCallerLemmas::pushed_append), unfolding(crate::specs::Lines::journal_text_via))]
fn push_journal_via_route(line: &mut Line, net: &Net, route: &SharedRoute)
    ensures text { line.new ≡ line_with line.old (journal_text_via net.now route.now) }
    ensures of_type { IsJournalTextRoute route.now }
{
    line.push(" via");
    push_names(line, net, route.get().items());
}

fn push_seeking_journal_text(
    line: &mut Line,
    net: &Net,
    packet: u32,
    version: u32,
    partition: u32,
    route: &SharedRoute,
)
    ensures text { line.new ≡ line_with line.old
        (journal_item_line net.now (item.Seeking packet version partition route.now)) }
    ensures of_type { IsJournalTextItem (item.Seeking packet version partition route.now) }
{
    push_journal_two_numbers(line, "  tunnelled", packet, " v", version);
    push_journal_numbered_text(line, " part", partition);
    push_journal_via_route(line, net, route);
}

// Adds a packet and its route after a text.
#[tactic(auto, using(lines::proofs::LinesCallerLemmas::pushed_append))]
fn push_route_item(line: &mut Line, net: &Net, text: &str, packet: u32, route: &SharedRoute)
    ensures text { line.new ≡ line_with line.old
        (journal_text_with_number text.now packet ++ journal_text_via net.now route.now) }
    ensures of_type { IsJournalTextRoute route.now }
{
    push_journal_numbered_text(line, text, packet);
    push_journal_via_route(line, net, route);
}

#[tactic(auto, using(lines::proofs::LinesCallerLemmas::pushed_append))]
fn push_found_item(line: &mut Line, net: &Net, packet: u32, one: u32, two: u32)
    ensures { line.new ≡ line_with line.old (journal_item_line net.now (item.FoundDown packet one two)) }
{
    push_packet_at(line, net, "  found", packet, one);
    line.push(" ");
    push_name(line, net, two);
}

#[tactic(auto, using(lines::proofs::LinesCallerLemmas::pushed_append))]
fn push_decided_how(line: &mut Line, net: &Net, how: How)
    ensures { line.new ≡ line_with line.old (journal_how_text net.now how) }
{
    match how {
        How::Cached { message } => push_journal_numbered_text(line, "cache", message),
        How::Authority { switch, partition } => {
            push_item_named_number(line, net, "authority", switch, " part ", partition)
        }
    }
}

#[tactic(auto, using(lines::proofs::LinesCallerLemmas::pushed_append))]
fn push_decided_journal_text(
    line: &mut Line,
    net: &Net,
    packet: u32,
    version: u32,
    rule: Option<u32>,
    action: Action,
    how: How,
)
    ensures text { line.new ≡ line_with line.old
        (journal_item_line net.now (item.Decided packet version rule action how)) }
    ensures of_type { IsJournalTextItem (item.Decided packet version rule action how) }
{
    push_journal_two_numbers(line, "  decided", packet, " v", version);
    push_journal_cached_rule(line, rule, action);
    line.push(" ");
    push_decided_how(line, net, how);
}

// Adds two numbers, each after a text.
#[tactic(auto, using(lines::proofs::LinesCallerLemmas::pushed_append), unfolding(crate::specs::Lines::journal_two_numbers_text))]
fn push_journal_two_numbers(line: &mut Line, text: &str, n: u32, next: &str, m: u32)
    ensures { line.new ≡ line_with line.old (journal_two_numbers_text text.now n next.now m) }
{
    push_journal_numbered_text(line, text, n);
    line.push(next);
    line.push_number(u64::from(m));
}

fn journal_cause_text(cause: Cause) -> &'static str
    ensures { result.now ≡ journal_cause_text cause }
{
    match cause {
        Cause::NoAuthority => "no-authority",
        Cause::NoRoute => "no-route",
    }
}

#[tactic(auto, using(lines::proofs::LinesCallerLemmas::pushed_append))]
fn push_stuck_item(line: &mut Line, net: &Net, packet: u32, switch: u32, cause: Cause)
    ensures { line.new ≡ line_with line.old
        (journal_packet_at_text net.now (codes "  stuck") packet switch ++ codes " " ++ journal_cause_text cause) }
{
    push_packet_at(line, net, "  stuck", packet, switch);
    line.push(" ");
    line.push(journal_cause_text(cause));
}

#[tactic(auto, using(lines::proofs::LinesCallerLemmas::pushed_append))]
fn push_sent_journal_text(
    line: &mut Line,
    net: &Net,
    texts: &mut AdvertTexts,
    number: u32,
    message: &SharedMessage,
)
    requires { AreJournalAdvertTexts net.now texts.old }
    ensures text { line.new ≡ line_with line.old
        (journal_item_line net.now (item.Sent number message.now)) }
    ensures of_type { IsJournalTextBody message.now.body }
    ensures texts { AreJournalAdvertTexts net.now texts.new }
{
    let message = message.get();
    line.push("  sent ");
    line.push_number(u64::from(number));
    line.push(" ");
    push_message_receiver(line, net, message.to);
    line.push(" ");
    push_journal_body_text(line, net, texts, &message.body);
}

#[tactic(auto, using(lines::proofs::LinesCallerLemmas::pushed_append))]
fn push_expired_item(line: &mut Line, net: &Net, switch: u32, place: u32, message: u32)
    ensures { line.new
        ≡ line_with line.old (journal_item_line net.now (item.Expired switch place message)) }
{
    push_item_named_number(line, net, "  expired", switch, " ", place);
    line.push(" message ");
    line.push_number(u64::from(message));
}

#[tactic(auto, using(lines::proofs::LinesCallerLemmas::pushed_append))]
fn push_link_item(line: &mut Line, net: &Net, one: u32, two: u32, up: bool)
    ensures { line.new ≡ line_with line.old (journal_item_line net.now (item.LinkIs one two up)) }
{
    push_journal_switch_pair(line, net, "  link", one, two);
    line.push(" ");
    if up {
        line.push("up");
    } else {
        line.push("down");
    }
}

// Adds an item's line, without its line feed.
fn push_journal_item_text(line: &mut Line, net: &Net, texts: &mut AdvertTexts, item: &Item)
    requires { AreJournalAdvertTexts net.now texts.old }
    ensures text { line.new ≡ line_with line.old (journal_item_line net.now item.now) }
    ensures of_type { IsJournalTextItem item.now }
    ensures texts { AreJournalAdvertTexts net.now texts.new }
{
    match item {
        Item::Row { row, step } => push_journal_row_text(line, net, *row, step),
        Item::Entered { packet, switch, .. } => {
            push_packet_at(line, net, "  entered", *packet, *switch)
        }
        Item::Closed { packet, switch } => push_packet_at(line, net, "  closed", *packet, *switch),
        Item::Hopped { packet, switch } => push_packet_at(line, net, "  hopped", *packet, *switch),
        Item::Seeking {
            packet,
            version,
            partition,
            route,
        } => push_seeking_journal_text(line, net, *packet, *version, *partition, route),
        Item::Exiting { packet, route } => push_route_item(line, net, "  exit", *packet, route),
        Item::Rerouted { packet, route } => push_route_item(
            line,
            net,
            "  rerouted",
            *packet,
            route,
        ),
        Item::FoundDown { packet, one, two } => push_found_item(line, net, *packet, *one, *two),
        Item::Decided {
            packet,
            version,
            rule,
            action,
            how,
        } => push_decided_journal_text(line, net, *packet, *version, *rule, *action, *how),
        Item::Left { packet, port, .. } => push_journal_two_numbers(
            line, "  out", *packet, " port ", *port,
        ),
        Item::Dropped { packet } => push_journal_numbered_text(line, "  dropped", *packet),
        Item::Lost { packet } => push_journal_numbered_text(line, "  lost", *packet),
        Item::Stuck {
            packet,
            switch,
            cause,
            ..
        } => push_stuck_item(line, net, *packet, *switch, *cause),
        Item::Sent { number, message } => push_sent_journal_text(
            line, net, texts, *number, message,
        ),
        Item::Delivered { number } => push_journal_numbered_text(line, "  delivered", *number),
        Item::Forgotten { number } => push_journal_numbered_text(line, "  forgotten", *number),
        Item::Expired {
            switch,
            place,
            message,
        } => push_expired_item(line, net, *switch, *place, *message),
        Item::Submitted { file, version } => {
            push_journal_two_numbers(line, "  submitted file", *file, " version ", *version)
        }
        Item::Refused { file, code } => push_journal_two_numbers(
            line,
            "  refused file",
            *file,
            " code ",
            *code,
        ),
        Item::Current { version } => push_journal_numbered_text(line, "  current", *version),
        Item::Retired { version } => push_journal_numbered_text(line, "  retired", *version),
        Item::Booted { switch, boot } => {
            push_item_named_number(line, net, "  booted", *switch, " ", *boot)
        }
        Item::Opened { switch, version } => {
            push_item_named_number(line, net, "  opened", *switch, " version ", *version)
        }
        Item::Down { switch } => push_named_switch(line, net, "  down", *switch),
        Item::OverNow { switch } => push_named_switch(line, net, "  over", *switch),
        Item::LinkIs { one, two, up } => push_link_item(line, net, *one, *two, *up),
        Item::Nothing => line.push("  nothing"),
    }
}
