//! The block due by free places, worked by hand.
use crate::tests::libraries::digits::{block, block_if};
use crate::tests::libraries::expecting::{expect, expect_true};
use reg_blocks::block::Block;
use reg_blocks::pool::is_pool_prefix;
use reg_blocks::size::Size;
use reg_vacancies::pool_places::Places;
use std::alloc::AllocError;
use std::process::Abort;
use std::test::Fail;

// The block due of each size.
fn dues(places: &Places) -> [Option<Block>; 3] {
    [
        places.due(Size::MaL),
        places.due(Size::MaM),
        places.due(Size::MaS),
    ]
}

fn expect_due(rt: &impl Abort, places: &Places, want: [Option<&str>; 3]) {
    let [large, medium, small] = want;
    let want = [
        block_if(rt, large),
        block_if(rt, medium),
        block_if(rt, small),
    ];
    expect(rt, dues(places), want, "due");
}

#[test]
fn due_of_two_prefixes(rt: HostRuntime) -> Result<(), Fail> {
    let mut places = Places::new(rt.alloc());
    expect_due(&rt, &places, [None; 3]);
    places.add_prefix(0x00_1A2C)?;
    places.add_prefix(0x00_1A2B)?;
    let due = [Some("001A2B"), Some("001A2B0"), Some("001A2B000")];
    expect_due(&rt, &places, due);
    places.give(block(&rt, "001A2B100"))?;
    places.give(block(&rt, "001A2B0"))?;
    let due = [Some("001A2C"), Some("001A2B2"), Some("001A2B101")];
    expect_due(&rt, &places, due);
    places.add_prefix(0x00_1A2B)?;
    let due = [Some("001A2C"), Some("001A2B2"), Some("001A2B101")];
    expect_due(&rt, &places, due);
    Ok(())
}

#[test]
fn due_of_full_prefixes(rt: HostRuntime) -> Result<(), Fail> {
    let mut places = Places::new(rt.alloc());
    places.add_prefix(0x00_1A2B)?;
    places.add_prefix(0x00_1A2C)?;
    for prefix in 0x001_A2B0..=0x001_A2BF {
        if prefix != 0x001_A2B7 {
            places.give(Block::make(Size::MaM, prefix).expect(&rt, "28 bits"))?;
        }
    }
    places.give(block(&rt, "001A2C"))?;
    expect_due(&rt, &places, [None, Some("001A2B7"), Some("001A2B700")]);
    places.give(block(&rt, "001A2B7"))?;
    expect_due(&rt, &places, [None; 3]);
    Ok(())
}

// All small blocks of the prefixes from 002000 to 002063 are given, and none of 002064.
#[test]
fn due_past_a_hundred_full_prefixes(rt: HostRuntime) -> Result<(), Fail> {
    let mut places = Places::new(rt.alloc());
    for number in 0x0_0200_0000..0x0_0206_4000 {
        if number % 0x1000 == 0 {
            let prefix = number / 0x1000;
            expect_true(&rt, is_pool_prefix(prefix), "a prefix");
            places.add_prefix(prefix)?;
        }
        let small = Block::make(Size::MaS, u64::from(number));
        places.give(small.expect(&rt, "36 bits"))?;
    }
    expect_due(&rt, &places, [None; 3]);
    places.add_prefix(0x00_2064)?;
    let due = [Some("002064"), Some("0020640"), Some("002064000")];
    expect_due(&rt, &places, due);
    Ok(())
}

// Adds a prefix, or gives a block. Where there is no memory for it, nothing else is due than before, and the next
// try finds memory.
fn change_or_again(
    rt: &impl Abort,
    places: &mut Places,
    prefix: Option<u32>,
    given: Option<Block>,
) -> Result<(), AllocError> {
    if let Some(prefix) = prefix {
        expect_true(rt, is_pool_prefix(prefix), "a prefix");
        let before = dues(places);
        if places.add_prefix(prefix).is_err() {
            expect(rt, dues(places), before, "as before");
            places.add_prefix(prefix)?;
        }
    }
    if let Some(given) = given {
        let before = dues(places);
        if places.give(given).is_err() {
            expect(rt, dues(places), before, "as before");
            places.give(given)?;
        }
    }
    Ok(())
}

// Sixteen prefixes, and then every other small block of the first one's front.
#[test]
fn due_where_memory_is_refused_once(rt: HostRuntime) -> Result<(), Fail> {
    let mut places = Places::new(rt.alloc());
    for number in 0..80 {
        if number < 16 {
            change_or_again(&rt, &mut places, Some(0x00_1A2B + number), None)?;
        } else {
            let prefix = 0x0_01A2_B000 + 2 * (u64::from(number) - 16);
            let small = Block::make(Size::MaS, prefix).expect(&rt, "36 bits");
            change_or_again(&rt, &mut places, None, Some(small))?;
        }
    }
    let due = [Some("001A2C"), Some("001A2B1"), Some("001A2B001")];
    expect_due(&rt, &places, due);
    Ok(())
}
