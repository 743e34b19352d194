ghost use Rattle.trace_texts.specs.Texts.{TraceTextsAreGood};

use control_laws::versions_are_planned;
use five_tuple::tuple_fields_read_back;
use net_file::{net_port_laws, switch_name_laws};
use packet_laws::{
    answered_rows_are_entered, answers_are_runs, ends_have_causes, packet_rows_are_entered,
};

/// Each line of the text of a journal that answers a schedule is good. So are whole lines of meters
/// after it, and the one that says whether the network is quiet: `audit` returns Yes for them.
pub fn texts_are_good()
    ensures { TraceTextsAreGood }
{
    tuple_fields_read_back();
    switch_name_laws();
    net_port_laws();
    versions_are_planned();
    packet_rows_are_entered();
    answered_rows_are_entered();
    answers_are_runs();
    ends_have_causes();
}
