// Tests of keyed_state: maps from texts, and counters by key.
use keyed_state::{Carry, Keyed, TextEntries, TextMap, clamp};
use std::alloc::Global;
use tuple_trace::{NoMemory, Txt};

// Whether these are the entries, in this order.
fn are(entries: TextEntries<'_, i64>, wanted: &[(&[u8], i64)]) -> bool {
    let mut found = 0usize;
    let mut well = true;
    for (key, value) in entries {
        well &= wanted.get(found) == Some(&(key, *value));
        found = found.wrapping_add(1);
    }
    well && found == wanted.len()
}

// Three texts. The later value of `b` stands in place of the first.
fn three(alloc: Global) -> Result<TextMap<i64>, NoMemory> {
    let mut map = TextMap::new(alloc);
    for (key, value) in [(b"b".as_slice(), 2i64), (b"ab", 1), (b"", 5), (b"b", 3)] {
        map.insert(key, value)?;
    }
    Ok(map)
}

const THREE: [(&[u8], i64); 3] = [(b"", 5), (b"ab", 1), (b"b", 3)];

// Whether a map of three texts is as it should be, and is cleared apart from its copy.
fn keeps_three(alloc: Global) -> Result<bool, NoMemory> {
    let mut map = three(alloc)?;
    let mut well = are(map.iter(), &THREE) && map.len() == 3;
    well &= map.get(b"ab").copied() == Some(1) && map.get(b"a").is_none();
    let copy = map.copy()?;
    map.clear();
    Ok(well && map.len() == 0 && are(copy.iter(), &THREE))
}

#[test]
fn texts_are_kept_in_the_order_of_their_bytes(rt: HostRuntime) {
    assert!(rt; matches!(keeps_three(rt.alloc()), Ok(true)));
}

// Two counters, by three bumps. None if a bump answers another sum.
fn two_counters(alloc: Global) -> Result<Option<Keyed>, NoMemory> {
    let mut counts = Keyed::new(alloc);
    let more = Txt::from_slice(alloc, b"more")?;
    let sums = (counts.bump(&more, -3)?, counts.bump(&more, 8)?);
    let less = counts.add(b"less", -5)?;
    Ok(if (sums, less) == ((-3, 5), -5) {
        Some(counts)
    } else {
        None
    })
}

// Whether the counters are halved, dropped below 0, and, in a copy from between, reset.
fn is_carried(mut counts: Keyed) -> Result<bool, NoMemory> {
    counts.carry(Carry::Keep);
    counts.carry(Carry::Scale(1, 2));
    let mut well = are(counts.iter(), &[(b"less", -3), (b"more", 2)]);
    let mut copy = counts.copy()?;
    counts.carry(Carry::DropBelow(0));
    well &= are(counts.iter(), &[(b"more", 2)]);
    well &= are(copy.iter(), &[(b"less", -3), (b"more", 2)]);
    copy.carry(Carry::Reset);
    Ok(well & are(copy.iter(), &[]))
}

fn carries_well(alloc: Global) -> Result<bool, NoMemory> {
    match two_counters(alloc)? {
        Some(counts) => is_carried(counts),
        None => Ok(false),
    }
}

#[test]
fn carries(rt: HostRuntime) {
    assert!(rt; matches!(carries_well(rt.alloc()), Ok(true)));
}

// What a counter comes to at the low end, below it, and scaled from there.
fn bumped_to_both_ends(alloc: Global) -> Result<(i64, i64, Option<i64>), NoMemory> {
    let key = Txt::new(alloc);
    let mut counts = Keyed::new(alloc);
    let low = counts.bump(&key, i64::MIN)?;
    let lower = counts.bump(&key, -1)?;
    counts.carry(Carry::Scale(-2, 1));
    Ok((low, lower, counts.get(&key)))
}

#[test]
fn numbers_are_cut_at_both_ends(rt: HostRuntime) {
    let cases: [(i128, i64); 4] = [
        (9_223_372_036_854_775_807, i64::MAX),
        (9_223_372_036_854_775_808, i64::MAX),
        (-9_223_372_036_854_775_808, i64::MIN),
        (-9_223_372_036_854_775_809, i64::MIN),
    ];
    for (number, want) in cases {
        assert_eq!(rt; clamp(number), want);
    }
    let ends = (i64::MIN, i64::MIN, Some(i64::MAX));
    assert_eq!(rt; bumped_to_both_ends(rt.alloc()), Ok(ends));
}
