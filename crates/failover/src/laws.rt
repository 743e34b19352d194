ghost use Rattle.failover.specs.Laws.{AdvertDatabaseLaws, AdvertKnownLinkLaws, FailoverLinkSetLaws, RouteLaws};

/// What a database has at first, and what it has after a list of adverts: of each origin the
/// newest, of equally new ones the first.
pub fn advert_laws()
    ensures { AdvertDatabaseLaws }
{}

/// A set of links has exactly those that were added, in either order; equal sets are equal values.
pub fn link_set_laws()
    ensures { FailoverLinkSetLaws }
{}

/// A link is known exactly if both ends name each other and it isn't down; a target is isolated
/// exactly if it is another switch and no known link ends at it.
pub fn link_laws()
    ensures { AdvertKnownLinkLaws }
{}

/// The function that computes a route returns the defined one, and there is no other; a path has
/// at most 64 switches.
pub fn route_laws()
    ensures { RouteLaws }
{}
