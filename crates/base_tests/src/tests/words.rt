//! Words of known bits.
use std::alloc::{AllocError, Global};
use ternary::Word;

// The word of these numbers, or the word of all headers if there is none.
fn word(value: u128, mask: u128) -> Word {
    match Word::new(value, mask) {
        Some(word) => word,
        None => Word::any(),
    }
}

#[test]
fn stray_bits_are_refused(rt: HostRuntime) {
    assert!(rt; Word::new(1, 0).is_none() && Word::new(0, 1 << 104).is_none());
}

// 01** and **01 meet in 0101; 01** and 1*** in nothing.
fn are_met(high: &Word) -> bool {
    high.meet(&word(0b0001, 0b0011)) == Some(word(0b0101, 0b1111))
        && high.meet(&word(0b1000, 0b1000)).is_none()
}

fn are_covered(high: &Word) -> bool {
    let both = word(0b0101, 0b1111);
    high.covers(&both) && !both.covers(high) && high.holds(0b0111) && !high.holds(0b1111)
}

#[test]
fn words_meet_and_cover(rt: HostRuntime) {
    let high = word(0b0100, 0b1100);
    assert!(rt; are_met(&high) && are_covered(&high));
}

// Whether both numbers of a word are printed like this.
fn is_printed(alloc: Global, wanted: &str) -> Result<bool, AllocError> {
    let word = word(0x0a02_0000_0000_0000_06, 0xff02_0000_0000_0000_ff);
    Ok(word.to_string(alloc)?.as_str() == wanted)
}

#[test]
fn prints_both_numbers(rt: HostRuntime) {
    let printed = "000000000a0200000000000006/00000000ff02000000000000ff";
    assert!(rt; is_printed(rt.alloc(), printed) == Ok(true));
}

fn are_fixed_and_freed() -> bool {
    let any = Word::any();
    if any.is_fixed(71) {
        return false;
    }
    let low = any.fix(71, false);
    if low.is_fixed(103) {
        return false;
    }
    let corner = low.fix(103, true);
    corner.value() == 0x8000_0000_0000_0000_0000_0000_00
        && corner.mask() == 0x8000_0000_8000_0000_0000_0000_00
        && corner.free(103) == low
        && Word::exact(6).free(0).mask() == 0xff_ffff_ffff_ffff_ffff_ffff_fffe
}

#[test]
fn bits_are_fixed_and_freed(rt: HostRuntime) {
    assert!(rt; are_fixed_and_freed());
}
