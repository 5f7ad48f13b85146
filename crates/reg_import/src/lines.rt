//! The lines of a script that make an entry.
ghost use Rattle.std.specs.Prelude.{◌≡◌, ◌+◌, ◌<◌, ◌^◌, ◌++◌, OnOk, IfOk};
ghost use Rattle.std.specs.String.{string_bytes};
ghost use Rattle.reg_import.specs.Lines.{advice_line, approval_line, asking_text, assignment_line, entry_ask, entry_filing, entry_lines, filing_lines, filing_view, grant_line, hold_line, hold_lines, later_lines, line_text, lines_text, renewal_filing, renewal_lines, review_if, review_lines, submission_line, token_for};

use crate::entry::{EarlyStanding, ListedEntry, ListedStanding};
use crate::errands::{
    advice_text, approval_text, assignment_text, grant_text, hold_text, submission_text,
};
use crate::import::Import;
use crate::marks::{Pass, pass_token, reference_of};
use reg_core::ask::{Ask, CodeAsk, EarlyAsk, RenewalAsk, Want};
use reg_core::capability::Kind;
use reg_core::text::Account;
use reg_early::day::Day;
use reg_early::day_reading::midnight;
use reg_ranges::requirements::needs_expert;
use std::alloc::{AllocError, Global};

/// A request that is filed and approved at a moment.
#[derive(Drop)]
struct Filing {
    moment: u64,
    /// Whose it is.
    account: Account,
    /// The value that it is about.
    value: u32,
    /// The reference under which it is filed.
    reference: String,
    ask: Ask,
    /// Whether an expert looks at it.
    reviewed: bool,
}

/// Appends the lines that make an entry, by the ordinary procedure. Only want of memory is an error.
pub fn push_entry(out: &mut Vec<u8>, import: &Import, entry: &ListedEntry) -> Result<(), AllocError>
    ensures { OnOk result
        (out.new.items ≡ out.old.items ++ lines_text (entry_lines import.now entry.now)) }
{
    let filing = entry_filing(*out.allocator(), import, entry)?;
    push_filing(out, import, &filing)?;
    push_later(out, import, entry)?;
    Ok(())
}

// The lines for an entry that is there.
fn push_later(out: &mut Vec<u8>, import: &Import, entry: &ListedEntry) -> Result<(), AllocError>
    ensures { OnOk result (out.new.items
        ≡ out.old.items ++ lines_text (later_lines import.now entry.now entry.now.standing)) }
{
    match &entry.standing {
        ListedStanding::ForGood(_) => Ok(()),
        ListedStanding::Early(standing) => {
            push_hold_if(out, import, entry, standing.held)?;
            push_renewal_if(out, import, entry, standing)?;
            Ok(())
        }
    }
}

fn push_hold_if(
    out: &mut Vec<u8>,
    import: &Import,
    entry: &ListedEntry,
    held: bool,
) -> Result<(), AllocError>
    ensures { OnOk result
        (out.new.items ≡ out.old.items ++ lines_text (hold_lines import.now entry.now held)) }
{
    if held {
        push_hold(out, import, entry)
    } else {
        Ok(())
    }
}

// The line by which a clerk holds an entry, on its first day.
#[tactic(auto, unfolding(crate::specs::Lines::line_text))]
fn push_hold(out: &mut Vec<u8>, import: &Import, entry: &ListedEntry) -> Result<(), AllocError>
    ensures { OnOk result
        (out.new.items ≡ out.old.items ++ line_text (hold_line import.now entry.now)) }
{
    let value = entry.value;
    let text = hold_text(*out.allocator(), &import.registry, value)?;
    let moment = midnight(entry.first);
    push_line(out, moment, import.clerk.as_str(), text.as_bytes())
}

fn push_renewal_if(
    out: &mut Vec<u8>,
    import: &Import,
    entry: &ListedEntry,
    standing: &EarlyStanding,
) -> Result<(), AllocError>
    ensures { OnOk result (out.new.items ≡ out.old.items
        ++ lines_text (renewal_lines import.now entry.now standing.now standing.now.renewal)) }
{
    let Some(day) = standing.renewal else {
        return Ok(());
    };
    let filing = renewal_filing(*out.allocator(), import, entry, standing, day)?;
    push_filing(out, import, &filing)
}

// The request for a new entry, on its first day.
fn entry_filing(alloc: Global, import: &Import, entry: &ListedEntry) -> Result<Filing, AllocError>
    ensures { IfOk result (λ f. filing_view f ≡ entry_filing import.now entry.now) }
{
    let value = entry.value;
    let policy = entry.policy;
    Ok(Filing {
        moment: midnight(entry.first),
        account: entry.assignee,
        value,
        reference: reference_of(alloc, "import", &import.registry, value)?,
        ask: entry_ask(import, entry)?,
        reviewed: needs_expert(policy),
    })
}

fn entry_ask(import: &Import, entry: &ListedEntry) -> Result<Ask, AllocError>
    ensures { IfOk result (λ ask. ask ≡ entry_ask import.now entry.now) }
{
    let registry = import.registry;
    let want = Want::Value(entry.value);
    let label = entry.label.copy()?;
    match &entry.standing {
        ListedStanding::ForGood(evidence) => Ok(Ask::Code(CodeAsk {
            registry,
            want,
            label,
            evidence: evidence.copy()?,
        })),
        ListedStanding::Early(standing) => Ok(Ask::Early(EarlyAsk {
            registry,
            want,
            label,
            evidence: standing.evidence.copy()?,
        })),
    }
}

// The request for the renewal of an entry on a day, which no expert looks at.
fn renewal_filing(
    alloc: Global,
    import: &Import,
    entry: &ListedEntry,
    standing: &EarlyStanding,
    day: Day,
) -> Result<Filing, AllocError>
    ensures { IfOk result
        (λ f. filing_view f ≡ renewal_filing import.now entry.now standing.now day) }
{
    let value = entry.value;
    let registry = import.registry;
    Ok(Filing {
        moment: midnight(day),
        account: entry.assignee,
        value,
        reference: reference_of(alloc, "renewal", &registry, value)?,
        ask: Ask::Renew(RenewalAsk {
            registry,
            value,
            evidence: standing.evidence.copy()?,
            iesg: None,
        }),
        reviewed: false,
    })
}

// The lines of a request: a token for its applicant, the request, its review, and its approval.
fn push_filing(out: &mut Vec<u8>, import: &Import, filing: &Filing) -> Result<(), AllocError>
    requires { filing.now.moment + 1 < 2 ^ 64 }
    ensures { OnOk result (out.new.items
        ≡ out.old.items ++ lines_text (filing_lines import.now (filing_view filing.now))) }
{
    let account = filing.account;
    let token = pass_of(*out.allocator(), import, filing, Kind::Applicant, account)?;
    push_grant(
        out,
        import,
        filing,
        token.as_str(),
        &account,
        Kind::Applicant,
    )?;
    push_submission(out, filing, token.as_str())?;
    push_review_if(out, import, filing)?;
    push_approval(out, import, filing)?;
    Ok(())
}

fn push_review_if(out: &mut Vec<u8>, import: &Import, filing: &Filing) -> Result<(), AllocError>
    requires { filing.now.moment + 1 < 2 ^ 64 }
    ensures { OnOk result (out.new.items
        ≡ out.old.items ++ lines_text (review_if import.now (filing_view filing.now))) }
{
    if filing.reviewed {
        push_review(out, import, filing)
    } else {
        Ok(())
    }
}

// The lines by which an expert looks at a request, and is for it.
fn push_review(out: &mut Vec<u8>, import: &Import, filing: &Filing) -> Result<(), AllocError>
    requires { filing.now.moment + 1 < 2 ^ 64 }
    ensures { OnOk result (out.new.items
        ≡ out.old.items ++ lines_text (review_lines import.now (filing_view filing.now))) }
{
    let expert = import.expert;
    push_assignment(out, import, filing)?;
    let token = pass_of(*out.allocator(), import, filing, Kind::Expert, expert)?;
    push_grant(out, import, filing, token.as_str(), &expert, Kind::Expert)?;
    push_advice(out, filing, token.as_str())?;
    Ok(())
}

// A token for an account and the value of a request, that is valid for one second.
fn pass_of(
    alloc: Global,
    import: &Import,
    filing: &Filing,
    kind: Kind,
    account: Account,
) -> Result<String, AllocError>
    requires { filing.now.moment + 1 < 2 ^ 64 }
    ensures { IfOk result (λ token. string_bytes token
        ≡ token_for import.now (filing_view filing.now) kind account) }
{
    let pass = Pass {
        kind,
        account,
        value: filing.value,
        until: filing.moment + 1,
    };
    pass_token(alloc, import, &pass)
}

// The line by which a token gets a capability for one second.
#[tactic(auto, unfolding(crate::specs::Lines::line_text))]
fn push_grant(
    out: &mut Vec<u8>,
    import: &Import,
    filing: &Filing,
    token: &str,
    account: &Account,
    kind: Kind,
) -> Result<(), AllocError>
    requires { filing.now.moment + 1 < 2 ^ 64 }
    ensures { OnOk result (out.new.items ≡ out.old.items
        ++ line_text (grant_line import.now (filing_view filing.now) token.now account.now kind)) }
{
    let until = filing.moment + 1;
    let text = grant_text(*out.allocator(), token, account, kind, until)?;
    push_line(out, filing.moment, import.clerk.as_str(), text.as_bytes())
}

// The line by which a request is filed.
#[tactic(auto, unfolding(crate::specs::Lines::line_text))]
fn push_submission(out: &mut Vec<u8>, filing: &Filing, token: &str) -> Result<(), AllocError>
    ensures { OnOk result (out.new.items
        ≡ out.old.items ++ line_text (submission_line (filing_view filing.now) token.now)) }
{
    let reference = filing.reference.as_str();
    let text = submission_text(*out.allocator(), reference, &filing.ask)?;
    push_line(out, filing.moment, token, text.as_slice())
}

// The line by which it is assigned to the expert.
#[tactic(auto, unfolding(crate::specs::Lines::line_text))]
fn push_assignment(out: &mut Vec<u8>, import: &Import, filing: &Filing) -> Result<(), AllocError>
    ensures { OnOk result (out.new.items
        ≡ out.old.items ++ line_text (assignment_line import.now (filing_view filing.now))) }
{
    let reference = filing.reference.as_str();
    let alloc = *out.allocator();
    let text = assignment_text(alloc, &filing.account, reference, &import.expert)?;
    push_line(out, filing.moment, import.clerk.as_str(), text.as_bytes())
}

// The line by which it is given advice.
#[tactic(auto, unfolding(crate::specs::Lines::line_text))]
fn push_advice(out: &mut Vec<u8>, filing: &Filing, token: &str) -> Result<(), AllocError>
    ensures { OnOk result (out.new.items
        ≡ out.old.items ++ line_text (advice_line (filing_view filing.now) token.now)) }
{
    let reference = filing.reference.as_str();
    let text = advice_text(*out.allocator(), &filing.account, reference)?;
    push_line(out, filing.moment, token, text.as_bytes())
}

// The line by which it is approved.
#[tactic(auto, unfolding(crate::specs::Lines::line_text))]
fn push_approval(out: &mut Vec<u8>, import: &Import, filing: &Filing) -> Result<(), AllocError>
    ensures { OnOk result (out.new.items
        ≡ out.old.items ++ line_text (approval_line import.now (filing_view filing.now))) }
{
    let reference = filing.reference.as_str();
    let text = approval_text(*out.allocator(), &filing.account, reference)?;
    push_line(out, filing.moment, import.clerk.as_str(), text.as_bytes())
}

// A line: the moment, the token, and what is asked.
fn push_line(out: &mut Vec<u8>, moment: u64, token: &str, asked: &[u8]) -> Result<(), AllocError>
    ensures { OnOk result
        (out.new.items ≡ out.old.items ++ asking_text moment token.now asked.now) }
{
    let head = format!(in *out.allocator(); "{moment} {token} PUT ")?;
    out.extend_from_slice(head.as_bytes())?;
    out.extend_from_slice(asked)?;
    out.push(b'\n')?;
    Ok(())
}
