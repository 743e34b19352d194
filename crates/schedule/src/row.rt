ghost use Rattle.std.specs.Prelude.{◌≡◌, [], ◌∷◌, drop, length};
ghost use Rattle.csv.specs.Records.{fields_of};
ghost use Rattle.csv_records.specs.Texts.{is_csv_heading};
ghost use Rattle.net_file.specs.Net.{IsNet};
ghost use Rattle.net_file.specs.Joins.{are_linked_in_net};
ghost use Rattle.schedule.specs.Rows.{schedule_event_of, schedule_row_event_with, schedule_row_file_in, schedule_header_read, schedule_link_in, schedule_row_number_read, schedule_heading, schedule_switch_in};

use crate::error::ScheduleRefusal;
use crate::kind::{Kind, read_schedule_kind};
use csv_records::{ByteRecord, csv_field_has_text, field};
use five_tuple::{Header, read_tuple_fields};
use net_file::{LinkRow, Net};
use steps::{Event, MAX_NUMBER, Step};

/// Whether the record is the heading.
#[tactic(auto, using(crate::proofs::ScheduleEventFields::heading))]
pub fn is_schedule_heading(fields: &ByteRecord) -> bool
    ensures { result ≡ is_csv_heading schedule_heading (fields_of fields.now) }
{
    if fields.len() != 2 {
        return false;
    }
    csv_field_has_text(fields, 0, "event") && csv_field_has_text(fields, 1, "arguments")
}

// The switch that the text names.
fn read_schedule_switch(net: &Net, text: &[u8]) -> Result<u32, ScheduleRefusal>
    requires { IsNet net.now }
    ensures { result ≡ schedule_switch_in net.now text.now }
{
    net.number(text).ok_or(ScheduleRefusal::Switch)
}

// The packet, message or place that the text names.
fn read_number(text: &[u8]) -> Result<u32, ScheduleRefusal>
    ensures { result ≡ schedule_row_number_read text.now }
{
    match five_tuple::read_number(text, u64::from(MAX_NUMBER)) {
        Some(number) => Ok(number as u32),
        None => Err(ScheduleRefusal::Number),
    }
}

// The policy file that the text names.
fn read_file(files: u32, text: &[u8]) -> Result<u32, ScheduleRefusal>
    ensures { result ≡ schedule_row_file_in files text.now }
{
    let file = five_tuple::read_number(text, u64::from(files)).ok_or(ScheduleRefusal::File)?;
    if file == 0 {
        return Err(ScheduleRefusal::File);
    }
    Ok(file as u32)
}

// Whether a link joins the two switches.
fn are_schedule_switches_linked(net: &Net, one: u32, two: u32) -> bool
    ensures { result ≡ are_linked_in_net net.now.links one two }
{
    net.links.items().iter().any(|link| link.joins(one, two))
}

// The link between the switches that the texts name.
fn read_schedule_link(net: &Net, one: &[u8], two: &[u8]) -> Result<LinkRow, ScheduleRefusal>
    requires { IsNet net.now }
    ensures { result ≡ schedule_link_in net.now one.now two.now }
{
    let one = read_schedule_switch(net, one)?;
    let two = read_schedule_switch(net, two)?;
    if !are_schedule_switches_linked(net, one, two) {
        return Err(ScheduleRefusal::NoLink);
    }
    Ok(LinkRow { one, two })
}

// The header that the texts state.
fn read_schedule_header(
    src: &[u8],
    dst: &[u8],
    sport: &[u8],
    dport: &[u8],
    proto: &[u8],
) -> Result<Header, ScheduleRefusal>
    ensures { result ≡ schedule_header_read src.now dst.now sport.now dport.now proto.now }
{
    match read_tuple_fields(src, dst, sport, dport, proto) {
        Some(fields) => Ok(Header::pack(&fields)),
        None => Err(ScheduleRefusal::Address),
    }
}

// The event of a kind, if no fields follow it.
fn read_keyword_event(net: &Net, files: u32, kind: Kind) -> Result<Event, ScheduleRefusal>
    ensures { result ≡ schedule_row_event_with net.now files kind [] }
{
    match kind {
        Kind::Flush => Ok(Event::Flush),
        Kind::Drain => Ok(Event::Drain),
        _ => Err(ScheduleRefusal::Width),
    }
}

// The step of a kind and one field after it.
fn read_schedule_one_field_step(
    net: &Net,
    files: u32,
    kind: Kind,
    text: &[u8],
) -> Result<Event, ScheduleRefusal>
    requires { IsNet net.now }
    ensures { result ≡ schedule_row_event_with net.now files kind (text.now ∷ []) }
{
    let step = match kind {
        Kind::Hop => Step::Hop {
            packet: read_number(text)?,
        },
        Kind::Lose => Step::Lose {
            packet: read_number(text)?,
        },
        Kind::Deliver => Step::Deliver {
            message: read_number(text)?,
        },
        Kind::Forget => Step::Forget {
            message: read_number(text)?,
        },
        Kind::Update => Step::Update {
            file: read_file(files, text)?,
        },
        Kind::Crash => Step::Crash {
            switch: read_schedule_switch(net, text)?,
        },
        Kind::Restart => Step::Restart {
            switch: read_schedule_switch(net, text)?,
        },
        Kind::Confirm => Step::Confirm {
            switch: read_schedule_switch(net, text)?,
        },
        Kind::Resend => Step::Resend {
            switch: read_schedule_switch(net, text)?,
        },
        _ => return Err(ScheduleRefusal::Width),
    };
    Ok(Event::One(step))
}

// The step of a kind and two fields after it.
fn read_two_field_step(
    net: &Net,
    files: u32,
    kind: Kind,
    one: &[u8],
    two: &[u8],
) -> Result<Event, ScheduleRefusal>
    requires { IsNet net.now }
    ensures { result ≡ schedule_row_event_with net.now files kind (one.now ∷ two.now ∷ []) }
{
    let step = match kind {
        Kind::Expire => {
            let switch = read_schedule_switch(net, one)?;
            let place = read_number(two)?;
            Step::Expire { switch, place }
        }
        Kind::LinkDown => {
            let LinkRow { one, two } = read_schedule_link(net, one, two)?;
            Step::LinkDown { one, two }
        }
        Kind::LinkUp => {
            let LinkRow { one, two } = read_schedule_link(net, one, two)?;
            Step::LinkUp { one, two }
        }
        _ => return Err(ScheduleRefusal::Width),
    };
    Ok(Event::One(step))
}

// The step of a kind and the six fields after it.
#[tactic(auto, using(crate::proofs::ScheduleEventFields::six_behind))]
fn read_six_field_step(
    net: &Net,
    files: u32,
    kind: Kind,
    fields: &ByteRecord,
) -> Result<Event, ScheduleRefusal>
    requires net { IsNet net.now }
    requires seven { length (fields_of fields.now) ≡ 7 }
    ensures { result ≡ schedule_row_event_with net.now files kind (drop 1 (fields_of fields.now)) }
{
    if kind != Kind::Packet {
        return Err(ScheduleRefusal::Width);
    }
    let switch = read_schedule_switch(net, field(fields, 1))?;
    let header = read_schedule_header(
        field(fields, 2),
        field(fields, 3),
        field(fields, 4),
        field(fields, 5),
        field(fields, 6),
    )?;
    Ok(Event::One(Step::Packet { switch, header }))
}

/// The event that the record states for the network and this many policy files.
///
/// # Errors
/// The first refusal: the kind, then the number of fields, then the fields from left to right.
#[tactic(auto, using(crate::proofs::ScheduleEventFields::counted))]
pub fn read_event(fields: &ByteRecord, net: &Net, files: u32) -> Result<Event, ScheduleRefusal>
    requires { IsNet net.now }
    ensures { result ≡ schedule_event_of net.now files (fields_of fields.now) }
{
    let kind = read_schedule_kind(field(fields, 0)).ok_or(ScheduleRefusal::Kind)?;
    match fields.len() {
        1 => read_keyword_event(net, files, kind),
        2 => read_schedule_one_field_step(net, files, kind, field(fields, 1)),
        3 => read_two_field_step(net, files, kind, field(fields, 1), field(fields, 2)),
        7 => read_six_field_step(net, files, kind, fields),
        _ => Err(ScheduleRefusal::Width),
    }
}
