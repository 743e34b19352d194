ghost use Rattle.std.specs.Prelude.{◌≡◌, ◌+◌, ◌-◌, ◌^◌, ◌<◌, IsFalse, slice_get, option_map};
ghost use Rattle.switch_core.specs.Life.{crashed_switch, switch_entry_expired, switch_without_memory, near_changed, switch_next_advert, restarted_switch};

use crate::switch::Switch;
use failover::Advert;

impl Switch {
    /// Its usable links are these now. Returns its new own advert of them, which it keeps and the
    /// caller sends.
    pub fn near_changed(&mut self, near: u64) -> Advert
        requires { self.old.seq < 2 ^ 32 - 1 }
        ensures advert { result ≡ switch_next_advert self.old near }
        ensures after { self.new ≡ near_changed self.old near }
    {
        self.seq += 1;
        let advert = Advert {
            origin: self.number,
            boot: self.boot,
            seq: self.seq,
            up: near,
        };
        self.database.hear(&advert);
        advert
    }

    /// Removes the cached rule at this place, from 0, and returns the number of its message;
    /// `None` if there is none.
    pub fn expire(&mut self, k: u32) -> Option<u32>
        ensures message { result
            ≡ option_map (λ entry. entry.message) (slice_get self.old.cache.entries k) }
        ensures after { self.new ≡ switch_entry_expired self.old k }
    {
        self.cache.expire(k)
    }

    /// It goes down, and loses all but its number, its boot, its cache's capacity and its count.
    pub fn crash(&mut self)
        ensures { self.new ≡ crashed_switch self.old }
    {
        self.forget();
        self.is_up = false;
    }

    /// It comes up again, closed, in its next boot. Returns the number of that boot.
    pub fn restart(&mut self) -> u32
        requires down { IsFalse self.old.is_up }
        requires boot { self.old.boot < 2 ^ 32 - 1 }
        ensures boot { result ≡ self.old.boot + 1 }
        ensures after { self.new ≡ restarted_switch self.old }
    {
        self.forget();
        self.is_up = true;
        self.boot += 1;
        self.boot
    }

    // Forgets all that it learnt.
    fn forget(&mut self)
        ensures { self.new ≡ switch_without_memory self.old }
    {
        self.is_open = false;
        self.stamp = 0;
        self.collected = 0;
        self.tables.clear();
        self.cache.clear();
        self.database.clear();
        self.seq = 0;
    }
}
