ghost use Rattle.std.specs.Prelude.{◌≡◌, ◌≢◌, List, IfOk, IfErr, Ok, Err};
ghost use Rattle.slnf_access.specs.declared.requests.Entry.{Entry};
ghost use Rattle.slnf_journal.specs.declared.errors.JournalError.{JournalError};
ghost use Rattle.slnf_journal.specs.Journal.{journal_text};
ghost use Rattle.slnf_journal.specs.Versions.{One, text_in, line_entry};
ghost use Rattle.slnf_journal.specs.Fields.{parts_at};
ghost use Rattle.slnf_journal.specs.Reading.{at_line, entries_in, journal_in, Answers};
ghost use Rattle.slnf_journal.specs.Ranges.{AllFit, IsRefused};

use crate::errors::JournalError;
use crate::fields::{find, read_entry};
use slnf_access::Entry;
use slnf_base::Row;
use std::alloc::Global;

/// The entries of a journal's text, in one pass over the bytes. Where they are no journal, the first place
/// tells why.
pub fn read_journal(alloc: Global, bytes: &[u8]) -> Result<Row<Entry>, JournalError>
    ensures value { Answers result (journal_in One bytes.now) }

    // What is read is the text of entries in its ranges, and each such text is read.
    ensures text { IfOk result (λ entries. AllFit entries × (bytes.now ≡ text_in One entries)) }
    ensures entries { (entries : List Entry) → AllFit entries → bytes.now ≡ text_in One entries
        → Answers result (Ok entries) }

    // Each refusal has its place, and each such place is told.
    ensures place { IfErr result (λ error. error ≢ JournalError.NoMemory → IsRefused One bytes.now error) }
    ensures refusal { (error : JournalError) → IsRefused One bytes.now error → Answers result (Err error) }
{
    read_all(alloc, bytes)
}

/// What is written of entries whose numbers are in the text's ranges says these entries.
pub fn written_journals_are_read()
    ensures { (entries : List Entry) → AllFit entries → journal_in One (journal_text entries) ≡ Ok entries }
{}

#[tactic(auto, unfolding(crate::specs::Reading::journal_in))]
fn read_all(alloc: Global, bytes: &[u8]) -> Result<Row<Entry>, JournalError>
    ensures ok { IfOk result (λ entries. journal_in One bytes.now ≡ Ok entries) }
    ensures err { IfErr result (λ error. error ≢ JournalError.NoMemory → journal_in One bytes.now ≡ Err error) }
{
    let body = bytes
        .strip_prefix(b"slnf journal 1\n".as_slice())
        .ok_or(JournalError::BadHeader)?;
    Ok(Row::from_vec(read_lines(alloc, body)?))
}

/// The entries of the lines behind the first, each of which ends with a line feed.
fn read_lines(alloc: Global, body: &[u8]) -> Result<Vec<Entry>, JournalError>
    ensures ok { IfOk result (λ entries. entries_in One 2 (parts_at 10 body.now) ≡ Ok entries.items) }
    ensures err { IfErr result (λ error. error ≢ JournalError.NoMemory
        → entries_in One 2 (parts_at 10 body.now) ≡ Err error) }
{
    let mut entries = Vec::new(alloc);
    let mut at = 0;
    let mut line = 2;
    while at < body.len() {
        let rest = &body[at..];
        let len = match find(rest, b'\n') {
            Some(len) => len,
            None => return Err(JournalError::NoNewline(line)),
        };
        let entry = read_line(line, &rest[..len])?;
        entries.push(entry)?;
        at += len + 1;
        line += 1;
    }
    Ok(entries)
}

/// The entry of the line of this number.
fn read_line(line: u64, text: &[u8]) -> Result<Entry, JournalError>
    ensures { result ≡ at_line line (line_entry One text.now) }
{
    match read_entry(text) {
        Ok(entry) => Ok(entry),
        Err(field) => Err(JournalError::BadField(line, field)),
    }
}
