ghost use Rattle.std.specs.Prelude.{◌≡◌, find, bytes_eq, IfSome, IsTrue};
ghost use Rattle.schedule.specs.Kinds.{schedule_kind_of, schedule_keyword_of};

/// The kinds of a schedule's rows, each named as its step or event.
#[derive(Clone, Copy, Debug, PartialEq, Eq)]
pub enum Kind {
    Packet,
    Hop,
    Lose,
    Deliver,
    Forget,
    Expire,
    Update,
    LinkDown,
    LinkUp,
    Crash,
    Restart,
    Confirm,
    Resend,
    Flush,
    Drain,
}

/// All kinds.
pub const KINDS: [Kind; 15] = [
    Kind::Packet,
    Kind::Hop,
    Kind::Lose,
    Kind::Deliver,
    Kind::Forget,
    Kind::Expire,
    Kind::Update,
    Kind::LinkDown,
    Kind::LinkUp,
    Kind::Crash,
    Kind::Restart,
    Kind::Confirm,
    Kind::Resend,
    Kind::Flush,
    Kind::Drain,
];

impl Kind {
    /// The keyword that names the kind: the first field of its rows.
    pub fn keyword(self) -> &'static str
        ensures { result.now ≡ schedule_keyword_of self }
    {
        match self {
            Kind::Packet => "packet",
            Kind::Hop => "hop",
            Kind::Lose => "lose",
            Kind::Deliver => "deliver",
            Kind::Forget => "forget",
            Kind::Expire => "expire",
            Kind::Update => "update",
            Kind::LinkDown => "linkdown",
            Kind::LinkUp => "linkup",
            Kind::Crash => "crash",
            Kind::Restart => "restart",
            Kind::Confirm => "confirm",
            Kind::Resend => "resend",
            Kind::Flush => "flush",
            Kind::Drain => "drain",
        }
    }
}

// The first of these kinds whose keyword the text is.
fn first_named_schedule_kind(kinds: &[Kind], text: &[u8]) -> Option<Kind>
    ensures { result ≡ find (λ kind. bytes_eq (schedule_keyword_of kind) text.now) kinds.now }
{
    kinds
        .iter()
        .copied()
        .find(|kind| kind.keyword().as_bytes() == text)
}

/// The kind that the keyword names; `None` for any other text.
#[tactic(auto, unfolding(crate::specs::Kinds::schedule_kind_of))]
pub fn read_schedule_kind(text: &[u8]) -> Option<Kind>
    ensures { result ≡ schedule_kind_of text.now }
{
    match named(text) {
        Some(kind) => Some(kind),
        None => first_named_schedule_kind(&KINDS, text),
    }
}

// The kind that the keyword names, matched letter by letter, so that no other is tried.
fn named(text: &[u8]) -> Option<Kind>
    ensures { IfSome result (λ kind. IsTrue (bytes_eq (schedule_keyword_of kind) text.now)) }
{
    match text {
        [b'p', b'a', b'c', b'k', b'e', b't'] => Some(Kind::Packet),
        [b'h', b'o', b'p'] => Some(Kind::Hop),
        [b'l', b'o', b's', b'e'] => Some(Kind::Lose),
        [b'd', b'e', b'l', b'i', b'v', b'e', b'r'] => Some(Kind::Deliver),
        [b'f', b'o', b'r', b'g', b'e', b't'] => Some(Kind::Forget),
        [b'e', b'x', b'p', b'i', b'r', b'e'] => Some(Kind::Expire),
        [b'u', b'p', b'd', b'a', b't', b'e'] => Some(Kind::Update),
        [b'l', b'i', b'n', b'k', b'd', b'o', b'w', b'n'] => Some(Kind::LinkDown),
        [b'l', b'i', b'n', b'k', b'u', b'p'] => Some(Kind::LinkUp),
        [b'c', b'r', b'a', b's', b'h'] => Some(Kind::Crash),
        [b'r', b'e', b's', b't', b'a', b'r', b't'] => Some(Kind::Restart),
        [b'c', b'o', b'n', b'f', b'i', b'r', b'm'] => Some(Kind::Confirm),
        [b'r', b'e', b's', b'e', b'n', b'd'] => Some(Kind::Resend),
        [b'f', b'l', b'u', b's', b'h'] => Some(Kind::Flush),
        [b'd', b'r', b'a', b'i', b'n'] => Some(Kind::Drain),
        _ => None,
    }
}
