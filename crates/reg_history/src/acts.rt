//! The acts of an office as CSV (RFC 4180), each tied to all before it by a digest.
ghost use Rattle.std.specs.Prelude.{◌≡◌, ◌++◌, ◌∷◌, [], ℕ, codes, option_map, string_bytes, IfOk, OnOk};
ghost use Rattle.std.specs.Fmt.{decimal};
ghost use Rattle.reg_blocks.specs.Digits.{block_text};
ghost use Rattle.reg_history.specs.Acts.{IsTextOfActs, act_fields, acts_header, next_act_digest, next_act_line, text_or_none};
ghost use Rattle.reg_history.specs.Acts.{other_text as text_of_other};
ghost use Rattle.reg_history.specs.Chain.{digest_of, line_of};
ghost use Rattle.reg_history.specs.Moment.{moment_text as text_of_moment};

use crate::chain::{Chain, RecordLine};
use crate::moment::moment_text;
use reg_blocks::block::Block;
use reg_blocks::prefix;
use reg_core::journal::{Act, ActKind, Deed};
use reg_core::text::{Form, Word};
use std::alloc::{AllocError, Global};

const HEADER: &str =
    "Number,Moment,By,Token,Kind,Account,Reference,Registry,Value,Block,Other,Digest\n";

/// Acts as a text, with the record of the columns first, and the digest of each.
#[derive(Drop)]
pub struct ActsText {
    pub text: Vec<u8>,
    pub chain: Chain,
}

impl ActsText {
    /// The text of no act. Only want of memory is an error.
    pub fn new(alloc: Global) -> Result<Self, AllocError>
        ensures text { IfOk result (λ acts. acts.text.items ≡ acts_header) }
        ensures digests { IfOk result (λ acts. acts.chain.digests.items ≡ []) }
    {
        let mut text = Vec::new(alloc);
        text.extend_from_slice(HEADER.as_bytes())?;
        Ok(ActsText {
            text,
            chain: Chain::new(alloc),
        })
    }

    /// The text of these acts, of which the oldest is the first. An error comes only where there is no
    /// memory, or more acts than can be counted.
    pub fn of(alloc: Global, acts: &[Act]) -> Result<Self, AllocError>
        ensures { IfOk result (λ whole. IsTextOfActs acts.now whole.text.items whole.chain.digests.items) }
    {
        let mut whole = ActsText::new(alloc)?;
        for act in acts {
            whole.add(alloc, act)?;
        }
        Ok(whole)
    }

    /// Adds the act that comes next. An error comes only where there is no memory, or more acts than can
    /// be counted.
    pub fn add(&mut self, alloc: Global, act: &Act) -> Result<(), AllocError>
        ensures text { OnOk result (self.new.text.items
            ≡ self.old.text.items ++ next_act_line self.old.chain.digests.items act.now) }
        ensures digests { OnOk result (self.new.chain.digests.items
            ≡ self.old.chain.digests.items
            ++ next_act_digest self.old.chain.digests.items act.now ∷ []) }
    {
        let Some(number) = self.chain.count().checked_add(1) else {
            return Err(AllocError);
        };
        let line = line_of_act(alloc, number, self.chain.last_digest(), act)?;
        self.text.extend_from_slice(line.bytes.as_slice())?;
        self.chain.push(line.digest)
    }
}

// The record of the act of this number, by the digits of the digest before it.
fn line_of_act(
    alloc: Global,
    number: u64,
    before: &[u8],
    act: &Act,
) -> Result<RecordLine, AllocError>
    ensures bytes { IfOk result (λ l. l.bytes.items
        ≡ line_of before.now (act_fields number act.now)) }
    ensures digest { IfOk result (λ l. l.digest
        ≡ digest_of before.now (act_fields number act.now)) }
{
    let number = format!(in alloc; "{number}")?;
    let moment = moment_or_none(alloc, act.stamp.moment)?;
    let by = act.stamp.account();
    let token = act.stamp.token();
    let account = act.deed.account();
    let reference = act.deed.reference();
    let registry = act.deed.registry();
    let value = value_or_none(alloc, act.deed.value())?;
    let block = block_or_none(alloc, act.deed.block())?;
    let other = other_text(alloc, &act.deed)?;
    RecordLine::of_fields(
        alloc,
        before,
        &[
            number.as_bytes(),
            moment.as_bytes(),
            word_or_none(&by),
            word_or_none(&token),
            ActKind::of(&act.deed).word().as_bytes(),
            word_or_none(&account),
            word_or_none(&reference),
            word_or_none(&registry),
            value.as_bytes(),
            block.as_bytes(),
            other.as_bytes(),
        ],
    )
}

fn word_or_none<F: Form<N>, const N: usize>(word: &Option<Word<F, N>>) -> &[u8]
    ensures { result.now ≡ text_or_none word.now }
{
    match word {
        Some(word) => word.as_str().as_bytes(),
        None => &[],
    }
}

fn moment_or_none(alloc: Global, moment: Option<u64>) -> Result<String, AllocError>
    ensures { IfOk result (λ text. string_bytes text
        ≡ text_or_none (option_map text_of_moment moment)) }
{
    match moment {
        Some(moment) => moment_text(alloc, moment),
        None => Ok(String::new(alloc)),
    }
}

fn value_or_none(alloc: Global, value: Option<u32>) -> Result<String, AllocError>
    ensures { IfOk result (λ text. string_bytes text ≡ text_or_none (option_map decimal value)) }
{
    match value {
        Some(value) => format!(in alloc; "{value}"),
        None => Ok(String::new(alloc)),
    }
}

fn block_or_none(alloc: Global, block: Option<Block>) -> Result<String, AllocError>
    ensures { IfOk result (λ text. string_bytes text ≡ text_or_none (option_map block_text block)) }
{
    match block {
        Some(block) => block.text(alloc),
        None => Ok(String::new(alloc)),
    }
}

// What the column `Other` says.
fn other_text(alloc: Global, deed: &Deed) -> Result<String, AllocError>
    ensures { IfOk result (λ text. string_bytes text ≡ text_of_other deed.now) }
{
    match deed {
        Deed::Grant(_, token) | Deed::Revoke(_, token) => String::from_str(alloc, token.as_str()),
        Deed::AddPool(prefix) => prefix::text(alloc, *prefix),
        Deed::Assign(_, _, expert) => String::from_str(alloc, expert.as_str()),
        Deed::Advise(_, _, expert, verdict) => {
            let expert = expert.as_str();
            let verdict = verdict.word();
            format!(in alloc; "{expert} {verdict}")
        }
        Deed::Appoint(_, agent, _) => String::from_str(alloc, agent.as_str()),
        _ => Ok(String::new(alloc)),
    }
}
