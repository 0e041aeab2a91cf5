// A set of pages, and its room.

use hv_pages::PageSet;
use std::alloc::{AllocError, Global};
use std::test::Fail;

// Inserts pages, and returns whether there was room for each and none was in the set.
fn put_all(set: &mut PageSet<Global>, pages: &[u32]) -> bool {
    for page in pages {
        if set.room() < 1 || set.holds(*page) {
            return false;
        }
        set.put(*page);
    }
    true
}

// Whether the set yields exactly these pages, lowest first.
fn gives(set: &mut PageSet<Global>, pages: &[u32]) -> bool {
    for page in pages {
        if set.take_lowest() != Some(*page) {
            return false;
        }
    }
    set.take_lowest() == None && set.count() == 0
}

// Ten pages become one run, which loses a page in its middle.
fn join_and_part(set: &mut PageSet<Global>) -> Result<bool, AllocError> {
    let before = set.room();
    set.reserve(11)?;
    let put = put_all(set, &[0, 2, 4, 6, 8, 1, 3, 5, 7, 9]);
    if set.room() < 1 || set.count() != 10 || set.runs() != 1 || set.lowest() != Some(0) {
        return Ok(false);
    }
    let taken = set.take(4);
    let is_right = before == 0 && put && taken && set.holds(5) && !set.holds(4) && set.runs() == 2;
    Ok(is_right && gives(set, &[0, 1, 2, 3, 5, 6, 7, 8, 9]))
}

#[test]
fn pages_join_and_part(rt: HostRuntime) -> Result<(), Fail> {
    let mut set = PageSet::new(rt.alloc());
    let is_right = join_and_part(&mut set)?;
    assert!(rt; is_right);
    Ok(())
}

// The lower of two pages is taken and put back.
fn take_and_put(set: &mut PageSet<Global>) -> Result<bool, AllocError> {
    set.reserve(2)?;
    let put = put_all(set, &[5, 3]);
    set.reserve(2)?;
    let taken = set.take(9);
    let lowest = set.take_lowest();
    let left = set.count();
    let again = put_all(set, &[3]);
    Ok(put && !taken && lowest == Some(3) && left == 1 && again && set.holds(3))
}

#[test]
fn a_page_goes_and_comes_again(rt: HostRuntime) -> Result<(), Fail> {
    let mut set = PageSet::new(rt.alloc());
    let is_right = take_and_put(&mut set)?;
    assert!(rt; is_right);
    Ok(())
}

// Runs of pages: the first page, and the number of pages.
const RUNS: [(u32, u64); 4] = [
    (0, 65_536),
    (7, 1),
    (0xFFFF_0000, 65_536),
    (0, 0x1_0000_0000),
];

// Inserts a run into an empty set, with room for one change. Another set takes it over and yields its lowest
// page.
fn put_run(alloc: Global, start: u32, length: u64) -> Result<bool, AllocError> {
    if length < 1 || length > 0x1_0000_0000 - u64::from(start) {
        return Ok(false);
    }
    let mut set = PageSet::new(alloc);
    set.reserve(1)?;
    set.put_run(start, length);
    let last = start + (length - 1) as u32;
    let above = last < u32::MAX && set.holds(last + 1);
    let runs = set.runs();
    let is_run = runs == 1
        && set.count() == length
        && set.holds(start)
        && set.holds(last)
        && !above;
    let mut other = PageSet::new(alloc);
    other.reserve(runs as usize)?;
    other.absorb(set);
    let lowest = other.take_lowest();
    Ok(is_run && lowest == Some(start) && other.count() == length - 1 && !other.holds(start))
}

#[test]
fn a_run_needs_room_for_one_change(rt: HostRuntime) -> Result<(), Fail> {
    for (start, length) in RUNS {
        let is_right = put_run(rt.alloc(), start, length)?;
        assert!(rt; is_right);
    }
    Ok(())
}

const PAGES: u32 = 1201;

#[derive(Clone, Copy, Drop)]
enum Change {
    Put,
    Take,
}

// 601 isolated pages are inserted, in several blocks. Then most are removed, and others are inserted and join
// the rest. Each row has the change; `from` and `every`, which select the pages that are `from` more than a
// multiple of `every`; and `step`: the pages come in the order of its multiples.
const PASSES: [(Change, u32, u32, u32); 6] = [
    (Change::Put, 0, 2, 7),
    (Change::Take, 0, 4, 5),
    (Change::Put, 1, 6, 11),
    (Change::Take, 2, 12, 600),
    (Change::Put, 0, 4, 13),
    (Change::Put, 3, 6, 1200),
];

// Inserts or removes a page. The plain set says whether it was there.
fn make_change(
    set: &mut PageSet<Global>,
    held: &mut [bool],
    page: u32,
    how: Change,
) -> Result<bool, AllocError> {
    set.reserve(1)?;
    let Some(was) = held.get_mut(page as usize) else {
        return Ok(false);
    };
    let is_right = set.holds(page) == *was;
    match how {
        Change::Put => {
            if !set.holds(page) {
                set.put(page);
            }
            *was = true;
            Ok(is_right)
        }
        Change::Take => {
            let taken = set.take(page);
            let is_told = taken == *was;
            *was = false;
            Ok(is_right && is_told)
        }
    }
}

fn run_pass(
    set: &mut PageSet<Global>,
    held: &mut [bool],
    pass: (Change, u32, u32, u32),
) -> Result<bool, AllocError> {
    let (how, from, every, step) = pass;
    for turn in 0..PAGES {
        let page = (u64::from(turn) * u64::from(step) % u64::from(PAGES)) as u32;
        if every > 0 && page % every == from && !make_change(set, held, page, how)? {
            return Ok(false);
        }
    }
    Ok(true)
}

// Whether the set has exactly the pages of the plain set.
fn agrees(set: &PageSet<Global>, held: &[bool]) -> bool {
    let mut count = 0_u64;
    for page in 0..PAGES {
        let is_held = held.get(page as usize) == Some(&true);
        if set.holds(page) != is_held {
            return false;
        }
        if is_held {
            count = count.wrapping_add(1);
        }
    }
    set.count() == count
}

// Whether the set yields the pages of the plain set, lowest first.
fn empties(set: &mut PageSet<Global>, held: &[bool]) -> bool {
    for page in 0..PAGES {
        let is_held = held.get(page as usize) == Some(&true);
        if is_held && set.take_lowest() != Some(page) {
            return false;
        }
    }
    set.take_lowest() == None && set.count() == 0
}

#[test]
fn pages_that_lie_apart_come_and_go_in_any_order(rt: HostRuntime) -> Result<(), Fail> {
    let mut set = PageSet::new(rt.alloc());
    let mut held = [false; 1201];
    for pass in PASSES {
        let is_told = run_pass(&mut set, &mut held, pass)?;
        let agrees = agrees(&set, &held);
        assert!(rt; is_told && agrees);
    }
    let is_emptied = empties(&mut set, &held);
    assert!(rt; is_emptied);
    Ok(())
}
