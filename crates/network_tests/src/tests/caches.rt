//! A cache of many entries.
use policy_rules::Action;
use std::alloc::Global;
use std::test::Fail;
use switch_table::{Cache, CacheEntry};
use ternary::Word;

// Adds the entry; nothing more is known of the cache.
fn accept(cache: &mut Cache, stamp: u32, entry: CacheEntry) -> Result<(), Fail> {
    cache.accept(stamp, entry)?;
    Ok(())
}

// An entry for one address.
fn host(address: u32, message: u32) -> Result<CacheEntry, Fail> {
    let word = Word::new(u128::from(address) << 40, 0xffff_ffff << 40).ok_or("word")?;
    Ok(CacheEntry {
        version: 1,
        word,
        rule: Some(100),
        action: Action::Out(2),
        message,
    })
}

// A cache of this many entries for one address each, from 0 on.
fn of_hosts(alloc: Global, count: u32) -> Result<Cache, Fail> {
    let mut cache = Cache::new(alloc, count);
    for address in 0..count {
        accept(&mut cache, 1, host(address, address)?)?;
    }
    Ok(cache)
}

// The message of the first entry for this address, as the masks lead to it and as the list has it.
fn told_twice(cache: &Cache, address: u32) -> (Option<u32>, Option<u32>) {
    let number = u128::from(address) << 40;
    let listed = cache
        .entries()
        .find(|entry| entry.version == 1 && entry.word.holds(number));
    (
        cache.first_entry(1, number).map(|entry| entry.message),
        listed.map(|entry| entry.message),
    )
}

#[test]
fn masks_lead_to_the_first_entry_of_the_list(rt: HostRuntime) -> Result<(), Fail> {
    let mut cache = of_hosts(rt.alloc(), 1100)?;
    assert!(rt; cache.expire(0) == Some(0) && cache.expire(500) == Some(501));
    accept(&mut cache, 1, host(0, 2000)?)?;
    assert!(rt; told_twice(&cache, 0) == (Some(2000), Some(2000)));
    assert!(rt; told_twice(&cache, 501) == (None, None));
    assert!(rt; told_twice(&cache, 1099) == (Some(1099), Some(1099)));
    Ok(())
}
