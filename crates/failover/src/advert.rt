ghost use Rattle.std.specs.Prelude.{◌≡◌};
ghost use Rattle.failover.specs.Adverts.{is_newer_advert};

/// What a switch says about its links, sent to all other switches.
#[derive(Clone, Copy, Debug, PartialEq, Eq)]
pub struct Advert {
    /// The switch that says it.
    pub origin: u32,
    /// The origin's boot, from 1.
    pub boot: u32,
    /// The number of this advert among those of the boot, from 1.
    pub seq: u32,
    /// The switches to which the origin has a usable link: bit k is for switch k.
    pub up: u64,
}

impl Advert {
    /// Whether (boot, seq) is greater than the other's, the boot compared first.
    pub fn is_newer(&self, other: &Advert) -> bool
        ensures { result ≡ is_newer_advert self.now other.now }
    {
        self.boot > other.boot || (self.boot == other.boot && self.seq > other.seq)
    }
}
