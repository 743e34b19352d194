//! Laws about adverts, and about how many messages, boots and sequence numbers there are.
ghost use Rattle.std.specs.Prelude.{List, []};
ghost use Rattle.net_file.specs.Net.{IsNet};
ghost use Rattle.update_machine.specs.Exports.{MachineJournalHasRoom, MachineJournalsHaveRoom, Setting, MachineStepOfRow, journal_after_steps};
ghost use Rattle.control_laws.specs.Always.{ControlLawHoldsBehindItems, ControlLawHoldsAlways, ControlLawHoldsAtEnds};
ghost use Rattle.control_laws.specs.Adverts.{ControlAdvertsAreOfSwitches, ControlAdvertisedLinksAreThere, ControlOwnAdvertsAreNewest};
ghost use Rattle.control_laws.specs.Sends.{ControlNumbersAreFew, ControlNumbersFit, ControlStepsSendFew};

/// Each advert that is sent, heard or kept names only links of the network; the links that a
/// switch knows, and its routes, are of the network too.
pub fn adverts_name_links()
    ensures { ControlLawHoldsBehindItems ControlAdvertisedLinksAreThere }
{}

/// No advert that is sent, heard or kept is newer than its origin's own.
pub fn own_adverts_are_newest()
    ensures { ControlLawHoldsBehindItems ControlOwnAdvertsAreNewest }
{}

/// In a network each advert that is sent, heard, or kept by one of its switches has one of them as
/// its origin.
pub fn adverts_are_of_switches()
    ensures { ControlLawHoldsBehindItems (λ setting journal.
        IsNet setting.net → ControlAdvertsAreOfSwitches setting journal) }
{}

/// On a network of at most 64 switches and 256 links, each step sends at most 10,000 messages.
pub fn steps_send_few_control_messages()
    ensures { ControlLawHoldsAlways (λ setting journal. IsNet setting.net
        → ControlStepsSendFew setting journal) }
{}

/// After each step the number of messages sent bounds the boots and the numbers of own adverts.
pub fn control_numbers_are_few()
    ensures { ControlLawHoldsAtEnds (λ setting journal. IsNet setting.net
        → ControlNumbersAreFew setting journal) }
{}

/// If the journal has room for a step, or each of its steps began with room, the numbers of
/// messages, boots and own adverts fit in 32 bits, and the next ones do too.
pub fn control_numbers_fit()
    ensures before { (setting : Setting) (steps : List MachineStepOfRow) → IsNet setting.net
        → MachineJournalHasRoom (journal_after_steps setting [] steps)
        → ControlNumbersFit setting (journal_after_steps setting [] steps) }
    ensures behind { (setting : Setting) (steps : List MachineStepOfRow) → IsNet setting.net
        → MachineJournalsHaveRoom setting [] steps → ControlNumbersFit setting (journal_after_steps setting [] steps) }
{}
