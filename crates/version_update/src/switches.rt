//! Questions about all switches, each answered in one pass over their records.
ghost use Rattle.std.specs.Prelude.{◌≡◌, ◌-◌, ◌<◌, ◌≤◌, ◌&&◌, map, length};
ghost use Rattle.version_update.specs.Record.{is_member, update_joining_opens_at, opened_update_record};
ghost use Rattle.version_update.specs.Marks.{update_all_have_acked, update_acked_stamps, least_of_marks};
ghost use Rattle.version_update.specs.Settling.{MaskNamesUpdateSwitches};
ghost use Rattle.version_update.specs.declared.record.SwitchRecord.{SwitchRecord};

use crate::record::SwitchRecord;

/// The members as a mask if `rose` is true, otherwise the empty mask.
pub fn mask_of_members_where(rose: bool, switches: &[SwitchRecord]) -> u64
    requires { length switches.now ≤ 64 }
    ensures { MaskNamesUpdateSwitches result (λ (known : SwitchRecord). rose && is_member known.phase) switches.now }
{
    let mut mask = 0;
    for (s, known) in switches.iter().enumerate() {
        mask |= u64::from(rose && known.is_member()) << s;
    }
    mask
}

/// Opens each joining switch that acknowledged the current version, and returns these as a mask.
pub fn open_if_acked(switches: &mut [SwitchRecord], current: u32) -> u64
    requires few { length switches.old ≤ 64 }
    requires first { 1 ≤ current }
    requires last { current ≤ 64 }
    ensures opened { switches.new ≡ map (opened_update_record current) switches.old }
    ensures opens { MaskNamesUpdateSwitches result (update_joining_opens_at current) switches.old }
{
    let mut mask = 0;
    for (s, known) in switches.iter_mut().enumerate() {
        mask |= u64::from(known.open_if_acked(current)) << s;
    }
    mask
}

/// Whether each member acknowledged the version.
pub fn all_acked(switches: &[SwitchRecord], version: u32) -> bool
    requires first { 1 ≤ version }
    requires last { version ≤ 64 }
    ensures { result ≡ update_all_have_acked version switches.now }
{
    switches
        .iter()
        .filter(|known| known.is_member())
        .all(|known| known.has_acked(version))
}

/// The least stamp that a member acknowledged; `None` if there is no member.
pub fn least_acked_stamp(switches: &[SwitchRecord]) -> Option<u32>
    ensures { result ≡ least_of_marks (update_acked_stamps switches.now) }
{
    switches
        .iter()
        .filter(|known| known.is_member())
        .map(|known| known.acked_stamp)
        .min()
}
