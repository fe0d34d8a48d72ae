ghost use Rattle.std.specs.Prelude.{◌≡◌, ◌++◌, OnOk, IfOk};
ghost use Rattle.slnf_journal.specs.Journal.{request_text, reply_text, entry_text, journal_text};

use crate::lines::Lines;
use slnf_access::{Entry, Reply, Request};
use slnf_base::NoMemory;
use std::alloc::Global;

/// The journal's text: its first line, and one line for each entry.
pub fn write_journal(alloc: Global, entries: &[Entry]) -> Result<Vec<u8>, NoMemory>
    ensures { IfOk result (λ bytes. bytes.items ≡ journal_text entries.now) }
{
    let mut lines = Lines::new(alloc);
    lines.push_word(b"slnf journal 1\n")?;
    for entry in entries {
        push_entry(&mut lines, entry)?;
    }
    Ok(lines.into_bytes())
}

#[tactic(auto, unfolding(crate::specs::Journal::entry_text))]
fn push_entry(lines: &mut Lines, entry: &Entry) -> Result<(), NoMemory>
    ensures { OnOk result (lines.new ≡ lines.old ++ entry_text entry.now) }
{
    lines.push_decimal(entry.stamp)?;
    lines.push_word(b" ")?;
    lines.push_decimal(entry.shard)?;
    lines.push_word(b" ")?;
    lines.push_decimal(entry.incarnation)?;
    lines.push_word(b" ")?;
    lines.push_decimal(entry.item)?;
    lines.push_word(b" ")?;
    push_request(lines, &entry.request)?;
    lines.push_word(b" ")?;
    push_reply(lines, &entry.reply)?;
    lines.push_word(b"\n")
}

#[tactic(auto, unfolding(crate::specs::Journal::request_text))]
fn push_request(lines: &mut Lines, request: &Request) -> Result<(), NoMemory>
    ensures { OnOk result (lines.new ≡ lines.old ++ request_text request.now) }
{
    match request {
        Request::Read { key } => {
            lines.push_word(b"read ")?;
            lines.push_hex(key.0)
        }
        Request::PutIfAbsent { key, value } => {
            lines.push_word(b"put ")?;
            lines.push_hex(key.0)?;
            lines.push_word(b" ")?;
            lines.push_hex(value.0)
        }
        Request::ReplaceIf {
            key,
            version,
            value,
        } => {
            lines.push_word(b"replace ")?;
            lines.push_hex(key.0)?;
            lines.push_word(b" ")?;
            lines.push_decimal(*version)?;
            lines.push_word(b" ")?;
            lines.push_hex(value.0)
        }
        Request::DeleteIf { key, version } => {
            lines.push_word(b"delete ")?;
            lines.push_hex(key.0)?;
            lines.push_word(b" ")?;
            lines.push_decimal(*version)
        }
    }
}

#[tactic(auto, unfolding(crate::specs::Journal::reply_text))]
fn push_reply(lines: &mut Lines, reply: &Reply) -> Result<(), NoMemory>
    ensures { OnOk result (lines.new ≡ lines.old ++ reply_text reply.now) }
{
    match reply {
        Reply::Done(version) => {
            lines.push_word(b"done ")?;
            lines.push_decimal(*version)
        }
        Reply::Found(value, version) => {
            lines.push_word(b"found ")?;
            lines.push_hex(value.0)?;
            lines.push_word(b" ")?;
            lines.push_decimal(*version)
        }
        Reply::Absent => lines.push_word(b"absent"),
    }
}
