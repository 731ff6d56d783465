// The lines of a report as bytes, each with its newline.
ghost use Rattle.std.specs.Prelude.{◌≡◌, ◌++◌, codes, decimal, IfOk, OnOk};
ghost use Rattle.ps_audit_laws.specs.History.{line_text};
ghost use Rattle.ps_audit_laws.specs.Verdicts.{four_text, rule_text, verdict_text};
ghost use Rattle.ps_audit_run.specs.Report.{ended, known_text, others_text};

use itoa::Buffer;
use ps_audit::{ExplainLine, Four, condition_number};
use ps_base::{Bytes, Memory};
use ps_types::{Jid, Rule, Verdict};
use std::alloc::Global;

fn rule_word(rule: Rule) -> &'static str
    ensures { result.now ≡ rule_text rule }
{
    match rule {
        Rule::ByAffiliation => "affiliation",
        Rule::ByOpen => "open",
        Rule::ByPresence => "presence",
        Rule::ByGroup => "group",
        Rule::BySubscription => "subscription",
        Rule::ByPublishModel => "publish-model",
    }
}

fn add_text(line: &mut Vec<u8>, text: &str) -> Result<(), Memory>
    ensures { OnOk result (line.new.items ≡ line.old.items ++ text.now) }
{
    line.extend_from_slice(text.as_bytes())?;
    Ok(())
}

fn add_number(line: &mut Vec<u8>, number: u64) -> Result<(), Memory>
    ensures { OnOk result (line.new.items ≡ line.old.items ++ decimal number) }
{
    let mut digits = Buffer::new();
    add_text(line, digits.format(number))
}

fn add_verdict(line: &mut Vec<u8>, verdict: Verdict) -> Result<(), Memory>
    ensures { OnOk result (line.new.items ≡ line.old.items ++ verdict_text verdict) }
{
    match verdict {
        Verdict::Granted(rule) => {
            add_text(line, "granted ")?;
            add_text(line, rule_word(rule))
        }
        Verdict::Pending => add_text(line, "pending"),
        Verdict::Denied(why) => {
            add_text(line, "denied ")?;
            add_number(line, u64::from(condition_number(why)))
        }
    }
}

fn add_four(line: &mut Vec<u8>, four: &Option<Four>) -> Result<(), Memory>
    ensures { OnOk result (line.new.items ≡ line.old.items ++ four_text four.now) }
{
    match four {
        None => add_text(line, "no node"),
        Some(four) => {
            add_text(line, "read ")?;
            add_verdict(line, four.read)?;
            add_text(line, ", subscribe ")?;
            add_verdict(line, four.subscribe)?;
            add_text(line, ", publish ")?;
            add_verdict(line, four.publish)?;
            add_text(line, ", own ")?;
            add_verdict(line, four.own)
        }
    }
}

// The line with its newline.
fn ended_line(mut line: Vec<u8>) -> Result<Bytes, Memory>
    ensures { IfOk result (λ b. b ≡ ended line.items) }
{
    line.push(b'\n')?;
    Ok(Bytes::from_vec(line))
}

/// A line of a history.
pub(crate) fn explain_line(alloc: Global, told: &ExplainLine) -> Result<Bytes, Memory>
    ensures { IfOk result (λ b. b ≡ ended (line_text told.now)) }
{
    let mut line = Vec::new(alloc);
    add_number(&mut line, told.after)?;
    add_text(&mut line, " ")?;
    add_four(&mut line, &told.four)?;
    ended_line(line)
}

/// The line of a node that doesn't stand.
pub(crate) fn no_node_line(alloc: Global) -> Result<Bytes, Memory>
    ensures { IfOk result (λ b. b ≡ ended (codes "no node")) }
{
    let mut line = Vec::new(alloc);
    add_text(&mut line, "no node")?;
    ended_line(line)
}

/// The line of an address.
pub(crate) fn known_line(alloc: Global, who: &Jid, verdict: Verdict) -> Result<Bytes, Memory>
    ensures { IfOk result (λ b. b ≡ ended (known_text (who.now, verdict))) }
{
    let mut line = Vec::new(alloc);
    add_text(&mut line, who.text(alloc)?.as_str())?;
    add_text(&mut line, " ")?;
    add_verdict(&mut line, verdict)?;
    ended_line(line)
}

/// The line of all others.
pub(crate) fn others_line(alloc: Global, verdict: Verdict) -> Result<Bytes, Memory>
    ensures { IfOk result (λ b. b ≡ ended (others_text verdict)) }
{
    let mut line = Vec::new(alloc);
    add_text(&mut line, "others ")?;
    add_verdict(&mut line, verdict)?;
    ended_line(line)
}
