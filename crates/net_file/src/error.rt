ghost use Rattle.std.specs.Prelude.{◌≡◌};
ghost use Rattle.base.specs.declared.error.Failure.TheVariants.{Refused};
ghost use Rattle.net_file.specs.Refusals.{net_code};

use base::{Failure, InRow};
use thiserror::Error;

/// What is wrong with a network's text.
#[derive(Clone, Copy, Debug, PartialEq, Eq, Error)]
pub enum NetRefusal {
    /// The bytes are no TOML document.
    #[error("the bytes are no TOML document")]
    Toml = 1,
    /// A required key is absent: `switch`, `name` or `ends`.
    #[error("a key is missing")]
    MissingKey = 2,
    /// A value doesn't have the type that its key needs.
    #[error("a value has the wrong type")]
    WrongType = 3,
    /// A number or a name is outside what its key allows, or there is no switch.
    #[error("a value is out of range")]
    Range = 4,
    /// An end of a link isn't the name of a switch.
    #[error("no switch has the name")]
    UnknownName = 5,
    /// An earlier switch has the name.
    #[error("an earlier switch has the name")]
    DuplicateName = 6,
    /// The port occurs before, in this switch or in an earlier one.
    #[error("the port occurs twice")]
    DuplicatePort = 7,
    /// Both ends of a link are one switch.
    #[error("both ends are one switch")]
    SelfLink = 8,
    /// An earlier link has these ends, in either order.
    #[error("an earlier link has these ends")]
    DuplicateLink = 9,
    /// There are more than 64 switches, or more than 256 links.
    #[error("there are too many switches or links")]
    TooMany = 10,
}

impl NetRefusal {
    /// The refusal's number, from 1 to 10 in the order of the variants.
    pub fn code(self) -> u32
        ensures { result ≡ net_code self }
    {
        self as u32
    }
}

/// Why a text isn't read as a network: a refusal in a row, or out of memory.
///
/// The row of a refusal is 0 for the keys of the document, k for the k-th switch and 100 + k for
/// the k-th link, both counted from 1.
pub type NetError = Failure<InRow<NetRefusal>>;

/// A refusal of the document, or of one of its own keys, is in row 0.
impl From<NetRefusal> for NetError {
    ghost from_gives = { λ refusal e. e ≡ Refused (record { refusal = refusal; row = 0 }) };

    fn from(refusal: NetRefusal) -> Self {
        NetError::Refused(InRow { refusal, row: 0 })
    }
}
