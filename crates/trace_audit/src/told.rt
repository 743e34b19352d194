ghost use Rattle.std.specs.Prelude.{◌≡◌, ◌∷◌, ◌==◌, ◌<◌, ◌^◌, [], IfSome, bytes_eq, codes, false, option_map};
ghost use Rattle.std.specs.List.{list_any};
ghost use Rattle.five_tuple.specs.Texts.{tuple_number_up_to, tuple_text_parts_round_byte};
ghost use Rattle.update_machine.specs.Machine as machine;
ghost use Rattle.trace_audit.specs.Seen.{trace_end_seen, trace_told_seen};
ghost use Rattle.trace_audit.specs.Told.{audit_line_begins_with, audit_decided_told, audit_ended_told, audit_entered_told, audit_indented_told, is_trace_row_number, audit_left_told, trace_number_of_word, audit_packet_row_told, audit_retired_told, audit_row_told, audit_silent_told, audit_stuck_told, audit_submitted_told, audit_told_of, trace_version_of_word};

use crate::words::{Words, cut_audit_text_near};
use five_tuple::{Header, read_number, read_tuple_fields};
use net_file::is_name;
use steps::{MAX_EVENTS, MAX_NUMBER};

/// How a packet ends.
#[derive(Clone, Copy)]
pub(crate) enum End {
    Dropped,
    LeftBy(u32),
    Lost,
    Stuck,
}

/// What a line says.
#[derive(Clone, Copy)]
pub(crate) enum LineMeaning<'a> {
    /// A row of the schedule, with its header if it is a packet's.
    Row(Option<Header>),
    Entered(u32),
    Submitted {
        file: u32,
        version: u32,
    },
    Retired(u32),
    /// A decision, with the texts of its rule and its action.
    Decided {
        packet: u32,
        version: u32,
        rule: &'a [u8],
        action: &'a [u8],
    },
    Ended {
        packet: u32,
        end: End,
    },
    /// An item that is no move, a meter's line, or the verdict of `--quiet`.
    Nothing,
}

// ---- words

// The number of a packet, a file or a version.
fn number(word: &[u8]) -> Option<u32>
    ensures { result ≡ trace_number_of_word word.now }
{
    let number = read_number(word, u64::from(MAX_NUMBER))?;
    Some(number as u32)
}

// The version of a word `vV`.
fn version(word: &[u8]) -> Option<u32>
    ensures { result ≡ trace_version_of_word word.now }
{
    number(word.strip_prefix(b"v".as_slice())?)
}

// Whether the word is the number of a row, from 1, and a colon.
#[tactic(auto, using(crate::proofs::AuditTraceLines::row_number_rest))]
fn is_trace_row_number(word: &[u8]) -> bool
    ensures { result ≡ is_trace_row_number (tuple_text_parts_round_byte 58 word.now) }
{
    let Some((digits, rest)) = cut_audit_text_near(word, b':') else {
        return false;
    };
    if !rest.is_empty() {
        return false;
    }
    match read_number(digits, MAX_EVENTS as u64) {
        Some(row) => row >= 1,
        None => false,
    }
}

// ---- rows

fn read_trace_packet_row<'a>(row: &[u8], mut words: Words<'a>) -> Option<LineMeaning<'a>>
    ensures { option_map trace_told_seen result ≡ audit_packet_row_told row.now words.entry }
{
    let switch = words.next()?;
    let src = words.next()?;
    let dst = words.next()?;
    let sport = words.next()?;
    let dport = words.next()?;
    let proto = words.last()?;
    if !is_trace_row_number(row) || !is_name(switch) {
        return None;
    }
    let fields = read_tuple_fields(src, dst, sport, dport, proto)?;
    Some(LineMeaning::Row(Some(Header::pack(&fields))))
}

// If this and others below were inlined, the loop over the lines would be slower.
#[inline(never)]
fn read_trace_row<'a>(mut words: Words<'a>) -> Option<LineMeaning<'a>>
    ensures { option_map trace_told_seen result ≡ audit_row_told words.entry }
{
    let row = words.next()?;
    match words.next_is(b"packet".as_slice()) {
        Some(true) => read_trace_packet_row(row, words),
        Some(false) | None => Some(LineMeaning::Row(None)),
    }
}

// ---- moves

#[inline(never)]
fn read_entered<'a>(mut words: Words<'a>) -> Option<LineMeaning<'a>>
    ensures { option_map trace_told_seen result ≡ audit_entered_told words.entry }
{
    let packet = words.next()?;
    let switch = words.last()?;
    if !is_name(switch) {
        return None;
    }
    Some(LineMeaning::Entered(number(packet)?))
}

fn read_submitted<'a>(mut words: Words<'a>) -> Option<LineMeaning<'a>>
    ensures { option_map trace_told_seen result ≡ audit_submitted_told words.entry }
{
    let first = words.next()?;
    let file = words.next()?;
    let second = words.next()?;
    let version = words.last()?;
    if first != b"file".as_slice() || second != b"version".as_slice() {
        return None;
    }
    Some(LineMeaning::Submitted {
        file: number(file)?,
        version: number(version)?,
    })
}

fn read_retired<'a>(words: Words<'a>) -> Option<LineMeaning<'a>>
    ensures { option_map trace_told_seen result ≡ audit_retired_told words.entry }
{
    let version = number(words.last()?)?;
    Some(LineMeaning::Retired(version))
}

#[tactic(auto, using(crate::proofs::AuditTraceLines::no_how, crate::proofs::AuditTraceLines::no_rule))]
#[inline(never)]
fn read_decided<'a>(mut words: Words<'a>) -> Option<LineMeaning<'a>>
    ensures { option_map trace_told_seen result ≡ audit_decided_told words.entry }
{
    let packet = words.next()?;
    let version = words.next()?;
    if !words.take(b"rule".as_slice()) {
        return None;
    }
    let rule = words.next()?;
    let action = words.next()?;
    if !words.take(b"authority".as_slice()) && !words.take(b"cache".as_slice()) {
        return None;
    }
    Some(LineMeaning::Decided {
        packet: number(packet)?,
        version: self::version(version)?,
        rule,
        action,
    })
}

fn read_ended<'a>(end: End, words: Words<'a>) -> Option<LineMeaning<'a>>
    ensures { option_map trace_told_seen result ≡ audit_ended_told (trace_end_seen end) words.entry }
{
    let packet = number(words.last()?)?;
    Some(LineMeaning::Ended { packet, end })
}

fn read_left<'a>(mut words: Words<'a>) -> Option<LineMeaning<'a>>
    ensures { option_map trace_told_seen result ≡ audit_left_told words.entry }
{
    let packet = words.next()?;
    let word = words.next()?;
    let port = words.last()?;
    if word != b"port".as_slice() {
        return None;
    }
    let packet = number(packet)?;
    let port = read_number(port, 4_294_967_295)?;
    Some(LineMeaning::Ended {
        packet,
        end: End::LeftBy(port as u32),
    })
}

fn read_stuck<'a>(mut words: Words<'a>) -> Option<LineMeaning<'a>>
    ensures { option_map trace_told_seen result ≡ audit_stuck_told words.entry }
{
    let packet = words.next()?;
    let _more = words.next()?;
    let packet = number(packet)?;
    Some(LineMeaning::Ended {
        packet,
        end: End::Stuck,
    })
}

// ---- lines

// The first words of items that are no moves, except `nothing`.
const SILENT: [&[u8]; 17] = [
    b"closed",
    b"tunnelled",
    b"exit",
    b"hopped",
    b"found",
    b"rerouted",
    b"sent",
    b"delivered",
    b"forgotten",
    b"expired",
    b"refused",
    b"current",
    b"booted",
    b"opened",
    b"down",
    b"over",
    b"link",
];

// Whether the word is one of these.
fn is_trace_word_among(words: &[&[u8]], word: &[u8]) -> bool
    ensures { result ≡ list_any (λ w. bytes_eq word.now w.now) words.now }
{
    words.iter().any(|w| word == *w)
}

// An item that is no move: only `nothing`, or another such word, a blank and any bytes.
fn read_silent<'a>(mut words: Words<'a>) -> Option<LineMeaning<'a>>
    ensures { option_map trace_told_seen result ≡ audit_silent_told words.entry }
{
    let word = words.next()?;
    let is_good = if word == b"nothing".as_slice() {
        !words.has_more()
    } else {
        words.has_more() && is_trace_word_among(&SILENT, word)
    };
    is_good.then_some(LineMeaning::Nothing)
}

// An item whose word isn't `decided`, `entered` or `dropped`.
#[tactic(auto, using(crate::proofs::AuditTraceLines::other_item), unfolding(crate::specs::Told::audit_item_told))]
#[inline(never)]
fn read_rare_item<'a>(mut words: Words<'a>) -> Option<LineMeaning<'a>>
    requires decided { audit_line_begins_with (codes "decided") words ≡ false }
    requires entered { audit_line_begins_with (codes "entered") words ≡ false }
    requires dropped { audit_line_begins_with (codes "dropped") words ≡ false }
    ensures { option_map trace_told_seen result ≡ audit_indented_told ([] ∷ words.entry) }
{
    if words.take(b"out".as_slice()) {
        read_left(words)
    } else if words.take(b"submitted".as_slice()) {
        read_submitted(words)
    } else if words.take(b"retired".as_slice()) {
        read_retired(words)
    } else if words.take(b"lost".as_slice()) {
        read_ended(End::Lost, words)
    } else if words.take(b"stuck".as_slice()) {
        read_stuck(words)
    } else {
        read_silent(words)
    }
}

// An item, after the first of its two blanks, each of which ends an empty word. The first words
// of the items that each packet has are tried first.
#[tactic(auto, unfolding(crate::specs::Told::audit_item_told))]
fn read_item<'a>(mut words: Words<'a>) -> Option<LineMeaning<'a>>
    ensures { option_map trace_told_seen result ≡ audit_indented_told words.entry }
{
    if !words.take(b"".as_slice()) {
        return None;
    }
    if words.take(b"decided".as_slice()) {
        return read_decided(words);
    }
    if words.take(b"entered".as_slice()) {
        return read_entered(words);
    }
    if words.take(b"dropped".as_slice()) {
        return read_ended(End::Dropped, words);
    }
    read_rare_item(words)
}

/// What a line says; `None` if it is bad whatever precedes it.
#[tactic(auto, using(crate::proofs::AuditTraceLines::other_line), unfolding(crate::specs::Told::audit_told_of))]
pub(crate) fn read_audit_line<'a>(line: &'a [u8]) -> Option<LineMeaning<'a>>
    ensures { option_map trace_told_seen result ≡ audit_told_of line.now }
{
    let mut words = Words::of(line);
    if words.take(b"".as_slice()) {
        return read_item(words);
    }
    if words.take(b"row".as_slice()) {
        return read_trace_row(words);
    }
    if words.take(b"meter".as_slice()) || words.take(b"quiet".as_slice()) {
        return Some(LineMeaning::Nothing);
    }
    None
}
