//! Packets that are lost where they are.
ghost use Rattle.std.specs.Prelude.{◌≡◌, ◌++◌, ◌∷◌, [], ℕ, map, None, OnOk, OnErr};
ghost use Rattle.journal.specs.declared.item.Item.TheVariants.{Lost as LostItem};
ghost use Rattle.travelling.specs.Travelling.{TravellingWithOne, TravellingWithoutAt, travelling_numbers_at};
ghost use Rattle.world_log.specs.Losing.{AreLoggedLossesBelow};
ghost use Rattle.world_log.specs.Writing.{IsLogPart};

use crate::log::Log;
use journal::Item;
use std::alloc::AllocError;

impl Log {
    /// Writes that the packet is lost, and then removes it from the table.
    ///
    /// # Errors
    /// Only out of memory; then nothing changes.
    pub fn lose(&mut self, packet: u32) -> Result<(), AllocError>
        ensures written { OnOk result (self.new.journal
            ≡ self.old.journal ++ LostItem packet ∷ []) }
        ensures lost { OnOk result (TravellingWithOne self.old.travelling packet None self.new.travelling) }
        ensures unsent { self.new.bag ≡ self.old.bag }
        ensures unchanged { OnErr result (self.new ≡ self.old) }
    {
        self.journal.push(Item::Lost { packet })?;
        let _ = self.travelling.remove(packet);
        Ok(())
    }

    /// Loses the packets at the switch, ascending by number; each leaves the table once its loss is
    /// written. After each the search for the next one continues, and reads no other packet.
    ///
    /// # Errors
    /// Only out of memory. Then a part of the items is written, and only the packets of
    /// these have left the table.
    pub fn lose_at(&mut self, switch: u32) -> Result<(), AllocError>
        ensures written { OnOk result (self.new.journal ≡ self.old.journal
            ++ map LostItem (travelling_numbers_at self.old.travelling switch)) }
        ensures lost { OnOk result (TravellingWithoutAt self.old.travelling switch self.new.travelling) }
        ensures part { OnErr result (IsLogPart self.old.journal
            (map LostItem (travelling_numbers_at self.old.travelling switch)) self.new.journal) }
        ensures left { OnErr result ((bound : ℕ) × AreLoggedLossesBelow self.old.travelling switch bound
            self.old.journal self.new.journal self.new.travelling) }
        ensures unsent { self.new.bag ≡ self.old.bag }
    {
        let mut from = 0;
        while let Some(packet) = self.travelling.next_at(from, switch) {
            self.lose(packet)?;
            from = packet as usize + 1;
        }
        Ok(())
    }
}
