//! Blocks, prefixes and the pool, and the block that is due.
use crate::tests::libraries::digits::{block, block_if};
use crate::tests::libraries::expecting::{expect, expect_at, expect_text, expect_true};
use reg_blocks::block::Block;
use reg_blocks::due::{ascends, least_free};
use reg_blocks::pool::{Add, Pool, is_pool_prefix};
use reg_blocks::size::Size;
use reg_blocks::{laws, prefix};
use std::cmp::Ordering;
use std::process::Abort;
use std::test::Fail;

#[test]
fn words_of_sizes(rt: HostRuntime) {
    for size in [Size::MaL, Size::MaM, Size::MaS] {
        expect(&rt, Size::read(size.word().as_bytes()), Some(size), "word");
    }
    expect_text(&rt, Size::MaL.word(), "MA-L", "large");
    expect_text(&rt, Size::MaM.word(), "MA-M", "medium");
    expect_text(&rt, Size::MaS.word(), "MA-S", "small");
    expect(&rt, Size::read(b"ma-l"), None, "small letters");
    expect(&rt, Size::read(b"MA-LL"), None, "a letter too many");
}

#[test]
fn ends_and_order_of_blocks(rt: HostRuntime) {
    let medium = block(&rt, "001A2B0");
    expect(&rt, medium.size(), Size::MaM, "size");
    expect(&rt, medium.prefix(), 0x001_A2B0, "prefix");
    expect(&rt, medium.first(), 0x001A_2B00_0000, "first address");
    expect(&rt, medium.last(), 0x001A_2B0F_FFFF, "last address");
    let made = Block::make(Size::MaM, 0x001_A2B0);
    expect(&rt, made, Some(medium), "a block by its bits");
    expect(&rt, Block::make(Size::MaL, 0x100_0000), None, "25 bits");
    let (around, within) = (block(&rt, "001A2B"), block(&rt, "001A2B0FF"));
    let after = block(&rt, "001A2B100");
    expect_true(&rt, medium.overlaps(&around), "around");
    expect_true(&rt, medium.overlaps(&within), "within");
    expect_true(&rt, !medium.overlaps(&after), "after");
    let (first, next) = (block(&rt, "001A2B000"), block(&rt, "001A2C"));
    expect(&rt, around.cmp(&medium), Ordering::Less, "larger first");
    expect(&rt, medium.cmp(&first), Ordering::Less, "smaller after");
    expect(&rt, next.cmp(&medium), Ordering::Greater, "by address");
    expect(&rt, medium.cmp(&medium), Ordering::Equal, "the same");
    let partial = medium.partial_cmp(&block(&rt, "001A2B1"));
    expect(&rt, partial, Some(Ordering::Less), "partial order");
}

// Digits, and whether a block, or a prefix, has these.
const DIGITS: &[(&str, bool, Option<u32>)] = &[
    ("001A2B0", true, None),
    ("001a2b0", true, None),
    ("001A2B", true, Some(0x00_1A2B)),
    ("001a2b", true, Some(0x00_1A2B)),
    ("021A2B", false, Some(0x02_1A2B)),
    ("011A2B", false, Some(0x01_1A2B)),
    ("FFFFFF", false, Some(0xFF_FFFF)),
    ("000000", true, Some(0)),
    ("01A2B", false, None),
    ("001A2", false, None),
    ("001A2B00", false, None),
    ("001A2G", false, None),
    ("+01A2B", false, None),
    ("", false, None),
];

#[test]
fn digits_of_blocks_and_prefixes(rt: HostRuntime) -> Result<(), Fail> {
    for (digits, is_block, number) in DIGITS {
        let read = Block::read(digits.as_bytes());
        expect(&rt, read.is_some(), *is_block, digits);
        expect(&rt, prefix::read(digits.as_bytes()), *number, digits);
    }
    let alloc = rt.alloc();
    let text = block(&rt, "001a2b0").text(alloc)?;
    expect_text(&rt, text.as_str(), "001A2B0", "digits of a block");
    let text = prefix::text(alloc, 0x00_1A2B)?;
    expect_text(&rt, text.as_str(), "001A2B", "digits of a prefix");
    let text = prefix::text(alloc, 0)?;
    expect_text(&rt, text.as_str(), "000000", "digits of the first one");
    let text = prefix::text(alloc, 0x300_1A2B)?;
    expect_text(&rt, text.as_str(), "001A2B", "those of 24 bits");
    Ok(())
}

#[test]
fn what_a_pool_takes(rt: HostRuntime) -> Result<(), Fail> {
    let mut pool = Pool::new(rt.alloc());
    expect_true(&rt, pool.prefixes().is_empty(), "a new pool");
    for (prefix, want) in [
        (0x00_1A2C, Add::Added),
        (0x01_1A2B, Add::Bits),
        (0x02_1A2B, Add::Bits),
        (0x100_0000, Add::Bits),
        (0x00_1A2B, Add::Added),
        (0x00_1A2C, Add::There),
        (0xFC_0000, Add::Added),
    ] {
        let number = u64::from(prefix);
        expect_at(&rt, is_pool_prefix(prefix), want != Add::Bits, number);
        expect_at(&rt, pool.add(prefix), want, number);
    }
    let wanted = [0x00_1A2B, 0x00_1A2C, 0xFC_0000];
    expect_true(&rt, pool.prefixes() == wanted.as_slice(), "the prefixes");
    let copy = pool.copy()?;
    expect_true(&rt, copy.prefixes() == pool.prefixes(), "a copy");
    Ok(())
}

// The block due of each size, by these that were given.
fn expect_due(rt: &impl Abort, pool: &Pool, given: &[Block], want: [Option<&str>; 3]) {
    let [large, medium, small] = want;
    expect_true(rt, ascends(given), "in order");
    let due = [
        least_free(pool, given, Size::MaL),
        least_free(pool, given, Size::MaM),
        least_free(pool, given, Size::MaS),
    ];
    let want = [
        block_if(rt, large),
        block_if(rt, medium),
        block_if(rt, small),
    ];
    expect(rt, due, want, "the blocks due");
}

// All blocks of medium size in one prefix, and a large one.
fn full_prefixes(rt: &(impl Abort + AllocGlobal)) -> Result<Vec<Block>, Fail> {
    let mut full = Vec::with_capacity(rt.alloc(), 17)?;
    for prefix in 0x001_A2B0..=0x001_A2BF {
        full.push(Block::make(Size::MaM, prefix).expect(rt, "a prefix of 28 bits"))?;
    }
    full.push(block(rt, "001A2C"))?;
    Ok(full)
}

#[test]
fn block_due(rt: HostRuntime) -> Result<(), Fail> {
    let mut pool = Pool::new(rt.alloc());
    expect_due(&rt, &pool, &[], [None; 3]);
    expect(&rt, pool.add(0x00_1A2B), Add::Added, "a prefix");
    expect(&rt, pool.add(0x00_1A2C), Add::Added, "another");
    let due = [Some("001A2B"), Some("001A2B0"), Some("001A2B000")];
    expect_due(&rt, &pool, &[], due);
    let two = [block(&rt, "001A2B0"), block(&rt, "001A2B100")];
    let due = [Some("001A2C"), Some("001A2B2"), Some("001A2B101")];
    expect_due(&rt, &pool, &two, due);
    let mut full = full_prefixes(&rt)?;
    expect_due(&rt, &pool, full.as_slice(), [None; 3]);
    expect_true(&rt, full.len() == 17, "all blocks");
    expect(&rt, full.remove(7), block(&rt, "001A2B7"), "the eighth");
    let due = [None, Some("001A2B7"), Some("001A2B700")];
    expect_due(&rt, &pool, full.as_slice(), due);
    full.reverse();
    expect_true(&rt, !ascends(full.as_slice()), "in reverse");
    Ok(())
}

// All small blocks of the prefixes from 002000 to 002063 are given, and none of 002064.
#[test]
fn block_due_past_a_hundred_full_prefixes(rt: HostRuntime) -> Result<(), Fail> {
    let mut pool = Pool::new(rt.alloc());
    let mut given = Vec::with_capacity(rt.alloc(), 409_600)?;
    for number in 0x0_0200_0000..0x0_0206_4000 {
        if number % 0x1000 == 0 {
            let added = pool.add(number / 0x1000);
            expect_at(&rt, added, Add::Added, u64::from(number));
        }
        let small = Block::make(Size::MaS, u64::from(number));
        given.push(small.expect(&rt, "a prefix of 36 bits"))?;
    }
    expect(&rt, pool.add(0x00_2064), Add::Added, "the last prefix");
    expect(&rt, given.len(), 409_600, "small blocks");
    let due = [Some("002064"), Some("0020640"), Some("002064000")];
    expect_due(&rt, &pool, given.as_slice(), due);
    Ok(())
}

#[test]
fn laws_return() {
    laws::prefix_bits_decide();
    laws::reading_is_exact();
    laws::addresses_run_from_first_to_last();
    laws::addresses_have_48_bits();
    laws::ends_decide_clash();
    laws::order_tells_blocks_apart();
    laws::sorted_blocks_ascend();
    laws::text_reads_back();
    laws::one_block_is_due();
    laws::trial_finds_the_block_due();
    reg_early::laws::days_and_dates_are_one_to_one();
    reg_early::laws::calendar_is_jiffs();
    reg_early::laws::year_after_is_the_same_date();
    reg_early::laws::moments_have_days();
    reg_early::laws::terms_have_days();
    reg_decisions::laws::published_rows_ascend();
}
