//! The laws of blocks and of the block due. Each function is its contract.
ghost use Rattle.reg_blocks.specs.Laws.{PrefixBitsDecide, ReadingIsExact, AddressesRunFromFirstToLast, AddressesHave48Bits, EndsDecideClash, OrderTellsBlocksApart, SortedBlocksAscend, TextReadsBack, OneBlockIsDue, TrialFindsTheBlockDue};

/// A size is the number of bits that a prefix fixes: 24, 28 or 36 of 48.
pub fn prefix_bits_decide()
    ensures { PrefixBitsDecide }
{}

/// The addresses of a block are those from its first to its last.
pub fn addresses_run_from_first_to_last()
    ensures { AddressesRunFromFirstToLast }
{}

/// The addresses of a block are numbers of 48 bits.
pub fn addresses_have_48_bits()
    ensures { AddressesHave48Bits }
{}

/// The test on the ends of two blocks decides whether they share an address.
pub fn ends_decide_clash()
    ensures { EndsDecideClash }
{}

/// The order of blocks tells any two apart.
pub fn order_tells_blocks_apart()
    ensures { OrderTellsBlocksApart }
{}

/// Sorted blocks ascend by first address, as the search for the block due asks.
pub fn sorted_blocks_ascend()
    ensures { SortedBlocksAscend }
{}

/// Digits read as a block exactly where they write its prefix: 6, 7 or 9 of them, with both bits
/// zero.
pub fn reading_is_exact()
    ensures { ReadingIsExact }
{}

/// The text of a block reads as that block.
pub fn text_reads_back()
    ensures { TextReadsBack }
{}

/// No two blocks are due.
pub fn one_block_is_due()
    ensures { OneBlockIsDue }
{}

/// Trial of each block in order finds the block due, and none only where none is free.
pub fn trial_finds_the_block_due()
    ensures { TrialFindsTheBlockDue }
{}
