ghost use Rattle.switch_core.specs.Exports.{SwitchArriveLaws, SwitchDecisionLaws, SwitchEnterLaws, SwitchExitLaws, SwitchHopLaws, SwitchLookupLaws, SwitchLaws};

/// What messages change, what they never lower, and when a packet is stuck: a law about the
/// definitions only.
pub fn switch_laws()
    ensures { SwitchLaws }
{}

/// What a switch returns for a packet by a lookup, by what the cache and the tables of the stamp
/// say about the header: a relation that allows one result. A law about the definition only.
pub fn switch_core_lookup_laws()
    ensures { SwitchLookupLaws }
{}

/// What `Switch::enter` returns, by a lookup: a relation that allows one result. A law about the
/// definition only.
pub fn switch_core_enter_laws()
    ensures { SwitchEnterLaws }
{}

/// Where a decided packet moves, by the owner of its action's port: a relation that allows one
/// result. A law about the definition only.
pub fn switch_exit_laws()
    ensures { SwitchExitLaws }
{}

/// What `Switch::arrive` returns, by the tables of the leg's version or by a lookup: a relation
/// that allows one result. A law about the definition only.
pub fn switch_core_arrive_laws()
    ensures { SwitchArriveLaws }
{}

/// By which rules a switch decides packets that enter or arrive, when and which rule it sends to a
/// cache, and that by the tables of a plan its own rules decide as the plan's policy does. A law
/// about the definitions only.
pub fn switch_decision_laws()
    ensures { SwitchDecisionLaws }
{}

/// What `Switch::hop` does to a packet, by the next link of its route: a relation that allows one
/// outcome. A law about the definition only.
pub fn switch_core_hop_laws()
    ensures { SwitchHopLaws }
{}
