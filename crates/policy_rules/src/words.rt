ghost use Rattle.std.specs.Prelude.{◌≡◌, ◌++◌, map, OnOk};
ghost use Rattle.five_tuple.specs.Cover.{IsTuplePortBlock, port_range_cover_of};
ghost use Rattle.five_tuple.specs.HeaderNumbers.{packed_header_number};
ghost use Rattle.policy_rules.specs.Exports.{IsSoundPolicyRow, policy_rule_prefix_mask, policy_rule_proto_mask, policy_rule_proto_value, word_of_policy_row};
ghost use Rattle.policy_rules.specs.Words.{words_of_policy_row};

use crate::policy::Row;
use five_tuple::{Fields, Header, PortBlock, Prefix, Proto};
use std::alloc::AllocError;
use ternary::Word;

/// Adds the words of a row at the end: one for each pair of a block of its source ports and one of
/// its destination ports, the source block outermost, as in the list of rules.
///
/// # Errors
/// Only out of memory; then some of the words may have been added.
pub fn push_policy_row_words(words: &mut Vec<Word>, row: &Row) -> Result<(), AllocError>
    requires { IsSoundPolicyRow row.now }
    ensures { OnOk result (words.new.items ≡ words.old.items ++ words_of_policy_row row.now) }
{
    for source in row.sport.blocks() {
        push_policy_source_words(words, row, source)?;
    }
    Ok(())
}

// Adds the words for one block of the row's source ports.
fn push_policy_source_words(
    words: &mut Vec<Word>,
    row: &Row,
    source: PortBlock,
) -> Result<(), AllocError>
    requires row { IsSoundPolicyRow row.now }
    requires source { IsTuplePortBlock source }
    ensures { OnOk result (words.new.items
        ≡ words.old.items ++ map (word_of_policy_row row.now source) (port_range_cover_of row.now.dport)) }
{
    for destination in row.dport.blocks() {
        words.push(word_of_row(row, source, destination))?;
    }
    Ok(())
}

/// The word of the headers that this row matches by its addresses and protocol, and whose ports are
/// in the two blocks.
pub fn word_of_row(row: &Row, source: PortBlock, destination: PortBlock) -> Word
    requires row { IsSoundPolicyRow row.now }
    requires source { IsTuplePortBlock source }
    requires destination { IsTuplePortBlock destination }
    ensures { result ≡ word_of_policy_row row.now source destination }
{
    let value = match_value_of_row(row, source.0, destination.0);
    let mask = match_mask_of_row(row, source.1, destination.1);
    Word::new(value, mask).unwrap()
}

// The value of the row's word, with these bits for the ports.
fn match_value_of_row(row: &Row, sport: u16, dport: u16) -> u128
    ensures { result ≡
        packed_header_number row.now.src.address row.now.dst.address sport dport
        (policy_rule_proto_value row.now.proto) }
{
    let fields = Fields {
        src: row.src.address,
        dst: row.dst.address,
        sport,
        dport,
        proto: rule_proto_value(row.proto),
    };
    Header::pack(&fields).number()
}

// The mask of the row's word, with these bits for the ports.
fn match_mask_of_row(row: &Row, sport: u16, dport: u16) -> u128
    ensures { result ≡
        packed_header_number (policy_rule_prefix_mask row.now.src) (policy_rule_prefix_mask row.now.dst) sport dport
        (policy_rule_proto_mask row.now.proto) }
{
    let fields = Fields {
        src: rule_prefix_mask(&row.src),
        dst: rule_prefix_mask(&row.dst),
        sport,
        dport,
        proto: rule_proto_mask(row.proto),
    };
    Header::pack(&fields).number()
}

// The bits of an address that the block fixes: the first `len`.
fn rule_prefix_mask(prefix: &Prefix) -> u32
    ensures { result ≡ policy_rule_prefix_mask prefix.now }
{
    if prefix.len == 0 {
        0
    } else {
        u32::MAX << (32 - prefix.len)
    }
}

fn rule_proto_value(proto: Proto) -> u8
    ensures { result ≡ policy_rule_proto_value proto }
{
    match proto {
        Proto::Any => 0,
        Proto::Is(number) => number,
    }
}

fn rule_proto_mask(proto: Proto) -> u8
    ensures { result ≡ policy_rule_proto_mask proto }
{
    match proto {
        Proto::Any => 0,
        Proto::Is(_) => u8::MAX,
    }
}
