//! Laws about switches: what steps, messages and links do to them.
ghost use Rattle.refinement.specs.Exports.{RefinementRequirementsHold, CallsRefine, HearingRefines, KnowledgeRefines, LivesRefine, LinksRefine};

/// Items that don't concern a switch don't change its record. In a step that does nothing to the
/// switch itself, whatever happens to links and to other switches, its record changes by its next
/// advert if its usable links changed, and not at all otherwise.
pub fn links_change_switches()
    ensures { LinksRefine }
{}

/// A switch hears each message that is delivered to it: for any boot, up or down, closed or open.
/// The journal then has the switch's replies, or that it opens with its stamp.
pub fn refined_messages_are_heard()
    ensures { HearingRefines }
{}

/// A switch that goes down and one that boots have forgotten what they learnt; an expiry removes
/// one entry from the cache.
pub fn switch_lives_refine()
    ensures { LivesRefine }
{}

/// The calls of a switch are counted: one for a packet that enters or is closed, one for a packet
/// that moves on or is stuck at a down link, and two for one that arrives.
pub fn refined_calls_are_counted()
    ensures { CallsRefine }
{}

/// A switch has the tables of the plans of its versions, and looks headers up, and finds routes, as
/// the journal says.
pub fn switch_knowledge_refines()
    ensures { KnowledgeRefines }
{}

/// What a call requires of its switch follows from the laws of versions, tables, boots and adverts.
pub fn refined_calls_may_be_made()
    ensures { RefinementRequirementsHold }
{}
