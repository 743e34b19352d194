use base::Shared;
use ctrl_msg::Message;
use failover::{DownSet, Route};

/// A route that its clones share.
pub type SharedRoute = Shared<Route>;

/// A set of links that its clones share.
pub type SharedLinks = Shared<DownSet>;

/// A message that its clones share.
pub type SharedMessage = Shared<Message>;
