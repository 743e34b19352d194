ghost use Rattle.std.specs.Prelude.{ℕ, ◌≡◌, ◌≢◌, ◌+◌, ◌*◌, ◌<◌, ◌^◌, ◌↔◌};
ghost use Rattle.std.specs.Int.{bit_at};
ghost use Rattle.cut_tree.specs.Counts.{IsCutPlaneHeight, IsCutBitOfLeastCount, cut_count_at, cut_count_by};

/// How many bits a counter has.
const PLANES: usize = 32;

/// A counter for each of 128 bits, all of them kept as binary numbers side by side: plane k has
/// the bit of weight 2^k of each counter. So a set of bits is counted in a few operations on
/// numbers of 128 bits.
#[derive(Clone, Copy)]
pub struct CutCounters {
    pub planes: [u128; PLANES],
}

// The sum of three sets, bit by bit: its digits of weight 1, and those of weight 2.
fn added(a: u128, b: u128, c: u128) -> (u128, u128)
    ensures { (bit : ℕ) → bit_at result.0 bit + 2 * bit_at result.1 bit
        ≡ bit_at a bit + bit_at b bit + bit_at c bit }
{
    let odd = a ^ b;
    (odd ^ c, (a & b) | (odd & c))
}

impl CutCounters {
    pub fn new() -> CutCounters
        ensures { (bit : ℕ) → cut_count_at result.planes bit ≡ 0 }
    {
        CutCounters {
            planes: [0; PLANES],
        }
    }

    /// Counts each bit of the set once.
    pub fn add(&mut self, bits: u128)
        requires { (bit : ℕ) → cut_count_at self.old.planes bit + 1 < 2 ^ 32 }
        ensures { (bit : ℕ) →
            cut_count_at self.new.planes bit ≡ cut_count_at self.old.planes bit + bit_at bits bit }
    {
        self.add_four(bits, 0, 0, 0);
    }

    /// Counts each bit once for each of these sets that has it.
    pub fn add_four(&mut self, a: u128, b: u128, c: u128, d: u128)
        requires { (bit : ℕ) → cut_count_at self.old.planes bit
            + (bit_at a bit + bit_at b bit + bit_at c bit + bit_at d bit) < 2 ^ 32 }
        ensures { (bit : ℕ) → cut_count_at self.new.planes bit ≡ cut_count_at self.old.planes bit
            + (bit_at a bit + bit_at b bit + bit_at c bit + bit_at d bit) }
    {
        let (sum, one) = added(self.planes[0], a, b);
        let (ones, two) = added(sum, c, d);
        let (twos, fours) = added(self.planes[1], one, two);
        self.planes[0] = ones;
        self.planes[1] = twos;
        let mut carry = fours;
        for place in 2..PLANES {
            let plane = self.planes[place];
            self.planes[place] = plane ^ carry;
            carry = plane & carry;
            if carry == 0 {
                return;
            }
        }
    }

    /// How many planes, from the first, hold all counts of both: no counter has a bit beyond these.
    pub fn height(&self, other: &CutCounters) -> usize
        ensures here { IsCutPlaneHeight self.now.planes result }
        ensures there { IsCutPlaneHeight other.now.planes result }
    {
        let mut height = PLANES;
        while height > 0 {
            if self.planes[height - 1] != 0 || other.planes[height - 1] != 0 {
                return height;
            }
            height -= 1;
        }
        height
    }

    /// How often this bit was counted; the first `height` planes have all counts.
    pub fn count(&self, bit: u32, height: usize) -> u32
        requires bit { bit < 128 }
        requires here { IsCutPlaneHeight self.now.planes height }
        ensures { result ≡ cut_count_at self.now.planes bit }
    {
        let mut count = 0;
        let mut place = height;
        while place > 0 {
            place -= 1;
            count = 2 * count + ((self.planes[place] >> bit) & 1) as u32;
        }
        count
    }

    /// The bits that were counted more often here than in `other`; the first `height` planes have
    /// all counts.
    pub fn more_than(&self, other: &CutCounters, height: usize) -> u128
        requires here { IsCutPlaneHeight self.now.planes height }
        requires there { IsCutPlaneHeight other.now.planes height }
        ensures { (bit : ℕ) → (bit_at result bit ≡ 1)
            ↔ (cut_count_at other.now.planes bit < cut_count_at self.now.planes bit) }
    {
        let mut more = 0;
        let mut settled = 0;
        let mut place = height;
        while place > 0 {
            place -= 1;
            let own = self.planes[place];
            let differing = own ^ other.planes[place];
            let fresh = differing ^ (differing & settled);
            more |= fresh & own;
            settled |= differing;
        }
        more
    }

    /// The bits of a set that were counted least often. A bit of `which` has the count of `other`,
    /// any other bit the count of these counters.
    pub fn least(&self, other: &CutCounters, which: u128, bits: u128, height: usize) -> u128
        requires some { bits ≢ 0 }
        requires here { IsCutPlaneHeight self.now.planes height }
        requires there { IsCutPlaneHeight other.now.planes height }
        ensures least { (bit : ℕ) → (bit_at result bit ≡ 1)
            ↔ IsCutBitOfLeastCount bits (cut_count_by self.now.planes other.now.planes which) bit }
        ensures some { result ≢ 0 }
    {
        let mut least = bits;
        let mut place = height;
        while place > 0 {
            place -= 1;
            let own = self.planes[place];
            let plane = own ^ ((own ^ other.planes[place]) & which);
            let fewer = least ^ (least & plane);
            if fewer != 0 {
                least = fewer;
            }
        }
        least
    }
}
