//! Which messages replace others, and which matter.
ghost use Rattle.std.specs.Prelude.{◌≡◌, ◌↔◌, ◌||◌, false, IsTrue};
ghost use Rattle.std.specs.Option.{option_map_or};
ghost use Rattle.update_machine.specs.Quiet.{are_machine_tables_old, machine_body_carries_boot, is_machine_advert_body, is_of_switch_boot, is_machine_ack_below_version, machine_speaking_in_body};
ghost use Rattle.journal_reports.specs.Judging.{HaveSameListsInReport, ReportedMessageSaysAsMuch, report_holds_for_earlier, are_reported_bodies_same_kind, is_version_enough_in_report, matters_in_report_status, journal_report_replaces_body, journal_report_replaces_message, report_speaking_switch};

use crate::status::SwitchStatus;
use ctrl_msg::{are_same_control_message_tables, are_same_control_message_words};
use journal::{Body, Message, Place};

/// Whether the message, to the switch or from it, matters; one to it matters only if the switch's
/// boot at the end didn't begin after the message.
pub fn matters(message: &Message, status: &SwitchStatus, is_in_boot: bool) -> bool
    ensures { result ≡ matters_in_report_status status.now is_in_boot message.now }
{
    if !status.is_up {
        return false;
    }
    match message.to {
        Place::Switch(to) => {
            to == status.switch
                && is_in_boot
                && is_for_boot_in_report(&message.body, status.boot)
                && !are_old_tables_in_report(&message.body, status.current)
        }
        Place::Controller => {
            is_of_boot_in_report(&message.body, status)
                && !is_old_ack_in_report(&message.body, status.current)
        }
    }
}

// Whether the body is an advert, or carries this boot.
fn is_for_boot_in_report(body: &Body, boot: u32) -> bool
    ensures { result ≡ (is_machine_advert_body body.now || machine_body_carries_boot boot body.now) }
{
    match body {
        Body::Advertise { .. } => true,
        other => other.boot() == Some(boot),
    }
}

// Whether the switch says this, in its boot.
fn is_of_boot_in_report(body: &Body, status: &SwitchStatus) -> bool
    ensures { result
        ≡ option_map_or (is_of_switch_boot status.now.switch status.now.boot) (machine_speaking_in_body body.now) false }
{
    match body {
        Body::Hello { switch, boot }
        | Body::Installed { switch, boot, .. }
        | Body::Stamped { switch, boot, .. } => *switch == status.switch && *boot == status.boot,
        _ => false,
    }
}

// Whether the body has tables of a version below the current one.
fn are_old_tables_in_report(body: &Body, current: u32) -> bool
    ensures { result ≡ are_machine_tables_old current body.now }
{
    match body {
        Body::Install { tables, .. } => tables.tables().version < current,
        _ => false,
    }
}

// Whether the body acknowledges tables of a version below the current one.
fn is_old_ack_in_report(body: &Body, current: u32) -> bool
    ensures { result ≡ is_machine_ack_below_version current body.now }
{
    match body {
        Body::Installed { version, .. } => *version < current,
        _ => false,
    }
}

/// Whether the later message says as much as the earlier one, and so replaces it if that matters.
pub fn says_as_much_in_report(later: &Message, earlier: &Message) -> bool
    ensures { IsTrue result ↔ ReportedMessageSaysAsMuch later.now earlier.now }
{
    journal_report_replaces_message(later, earlier)
        && have_same_lists_in_report(&later.body, &earlier.body)
}

// Whether two installs have the same tables; and of two stamps, whether the later one is of a
// greater version, or both have the same touched words.
fn have_same_lists_in_report(later: &Body, earlier: &Body) -> bool
    ensures { IsTrue result ↔ HaveSameListsInReport later.now earlier.now }
{
    match (later, earlier) {
        (Body::Install { tables, .. }, Body::Install { tables: old, .. }) => {
            are_same_control_message_tables(tables.tables(), old.tables())
        }
        (
            Body::Stamp {
                version,
                touched,
                ..
            },
            Body::Stamp {
                version: old,
                touched: others,
                ..
            },
        ) => old < version || are_same_control_message_words(touched.get(), others.get()),
        _ => true,
    }
}

// Whether the later message has the same receiver and says the same or more, apart from the rows
// and partitions of tables and from touched words.
fn journal_report_replaces_message(later: &Message, earlier: &Message) -> bool
    ensures { result ≡ journal_report_replaces_message later.now earlier.now }
{
    later.to == earlier.to && journal_report_replaces_body(&later.body, &earlier.body)
}

// Whether the later body says what the earlier one does, of the same or a greater version, or of
// the same or a newer advert, apart from the rows and partitions of tables and from touched words.
fn journal_report_replaces_body(later: &Body, earlier: &Body) -> bool
    ensures { result ≡ journal_report_replaces_body later.now earlier.now }
{
    match (later, earlier) {
        (Body::Advertise { advert }, Body::Advertise { advert: old }) => {
            advert == old || (advert.origin == old.origin && advert.is_newer(old))
        }
        _ => {
            are_reported_bodies_same_kind(later, earlier)
                && speaks(later) == speaks(earlier)
                && later.boot() == earlier.boot()
                && is_version_enough_in_report(later, earlier)
        }
    }
}

// Whether both are of the same kind, which is neither cache rule nor advert.
fn are_reported_bodies_same_kind(later: &Body, earlier: &Body) -> bool
    ensures { result ≡ are_reported_bodies_same_kind later.now earlier.now }
{
    match (later, earlier) {
        (Body::Install { .. }, Body::Install { .. })
        | (Body::OpenAt { .. }, Body::OpenAt { .. })
        | (Body::Stamp { .. }, Body::Stamp { .. })
        | (Body::Collect { .. }, Body::Collect { .. })
        | (Body::Hello { .. }, Body::Hello { .. })
        | (Body::Installed { .. }, Body::Installed { .. })
        | (Body::Stamped { .. }, Body::Stamped { .. }) => true,
        _ => false,
    }
}

/// The switch that says this to the controller; `None` for other bodies.
pub fn speaks(body: &Body) -> Option<u32>
    ensures { result ≡ report_speaking_switch body.now }
{
    match body {
        Body::Hello { switch, .. }
        | Body::Installed { switch, .. }
        | Body::Stamped { switch, .. } => Some(*switch),
        _ => None,
    }
}

// Whether, if both messages name a version, the later one names the same, or a greater one if what
// it says is true for earlier versions too.
fn is_version_enough_in_report(later: &Body, earlier: &Body) -> bool
    ensures { result ≡ is_version_enough_in_report later.now earlier.now }
{
    match (later.version(), earlier.version()) {
        (Some(version), Some(old)) => {
            version == old || (report_holds_for_earlier(later) && old < version)
        }
        _ => true,
    }
}

fn report_holds_for_earlier(body: &Body) -> bool
    ensures { result ≡ report_holds_for_earlier body.now }
{
    match body {
        Body::Stamp { .. } | Body::Collect { .. } | Body::Stamped { .. } => true,
        _ => false,
    }
}
