ghost use Rattle.std.specs.Prelude.{◌≡◌, ◌<◌, ◌+◌, ◌*◌, ◌^◌};
ghost use Rattle.schedule.specs.Case.{load_case_address_of_bytes, load_case_draw_below, load_case_next_drawn};

/// A linear congruential generator, with its state.
#[derive(Clone, Copy)]
pub struct CaseDraws {
    pub state: u32,
}

impl CaseDraws {
    /// The next number below `limit`.
    #[tactic(auto, unfolding(crate::specs::Case::load_case_next_drawn))]
    pub fn below(&mut self, limit: u32) -> u32
        requires { 0 < limit }
        ensures state { self.new.state ≡ load_case_next_drawn self.old.state }
        ensures drawn { result ≡ load_case_draw_below limit self.new.state }
        ensures below { result < limit }
    {
        self.state = ((u64::from(self.state) * 1_103_515_245 + 12_345) % 2_147_483_648) as u32;
        self.state / 65_536 % limit
    }
}

/// The address of four bytes, the first one highest.
pub fn address(a: u32, b: u32, c: u32, d: u32) -> u32
    requires { (a < 256) × (b < 256) × (c < 256) × (d < 256) }
    ensures address { result ≡ load_case_address_of_bytes a b c d }
    ensures fits { result < 2 ^ 32 }
{
    a * 16_777_216 + b * 65_536 + c * 256 + d
}
