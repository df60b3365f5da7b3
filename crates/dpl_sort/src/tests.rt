//! Lists that are dealt are in order.

use crate::deal::{deal, is_sorted};
use crate::{sort, sort_slice_by_key};
use std::alloc::{AllocError, Global};
use std::test::Fail;

/// A list of this length of numbers from 0 to `most`, and of their opposites, scattered.
fn scattered(alloc: Global, len: usize, most: u32) -> Result<Vec<(u32, i32)>, AllocError> {
    let mut items = Vec::with_capacity(alloc, len)?;
    let mut state: u32 = 1;
    for _ in 0..len {
        state = state.wrapping_mul(1_664_525).wrapping_add(1_013_904_223);
        let high = (state >> 16) & most;
        items.push((high, -(((state >> 4) & 0xff) as i32)))?;
    }
    Ok(items)
}

/// std's sort behind it has but one pass to go.
#[test]
fn dealt_lists_are_in_order(rt: HostRuntime) -> Result<(), Fail> {
    for (len, most) in [
        (512, 0xff),
        (3_000, 0xff),
        (8_192, 0),
        (8_192, 1),
        (20_000, 0xff),
        (40_000, 0xffff),
    ] {
        let mut items = scattered(rt.alloc(), len, most)?;
        deal(
            Some(rt.alloc()),
            items.as_mut_slice(),
            &|item: &(u32, i32)| *item,
        );
        assert!(rt;
            is_sorted(items.as_slice(), &|item: &(u32, i32)| *item),
            "{len} up to {most}"
        );
    }
    Ok(())
}

/// Long lists are dealt in place where there is no allocator.
#[test]
fn lists_are_in_order_without_memory(rt: HostRuntime) -> Result<(), Fail> {
    for (len, most) in [(8_192, 0), (20_000, 0xff), (40_000, 0xffff)] {
        let mut items = scattered(rt.alloc(), len, most)?;
        deal(None, items.as_mut_slice(), &|item: &(u32, i32)| *item);
        assert!(rt;
            is_sorted(items.as_slice(), &|item: &(u32, i32)| *item),
            "{len} up to {most}"
        );
    }
    Ok(())
}

/// Keys of up to 52 bits fit into words with their places, which take 12 bits here. Wider ones are left to std's sort.
#[test]
fn wide_keys_are_in_order(rt: HostRuntime) -> Result<(), Fail> {
    for bits in [35, 36, 37] {
        let mut items = Vec::new(rt.alloc());
        for (number, _) in scattered(rt.alloc(), 3_000, 0xffff)? {
            items.push((number as u64).wrapping_shl(bits))?;
        }
        let mut in_place = items.clone()?;
        deal(
            Some(rt.alloc()),
            items.as_mut_slice(),
            &|number: &u64| { *number },
        );
        assert_eq!(rt;
            is_sorted(items.as_slice(), &|number: &u64| *number),
            bits < 37
        );
        sort(&mut items);
        sort_slice_by_key(in_place.as_mut_slice(), |number| *number);
        assert!(rt; items == in_place);
    }
    Ok(())
}
