ghost use Rattle.std.specs.Prelude.{◌≡◌, IfOk, string_bytes};
ghost use Rattle.slnf_top.specs.Names.{capture_name, verdicts_name, journal_name};

use std::alloc::{AllocError, Global};

/// The name of a lane's output capture.
pub fn capture_name(alloc: Global, out: &str, lane: u32) -> Result<String, AllocError>
    ensures { IfOk result (λ name. string_bytes name ≡ capture_name out.now lane) }
{
    format!(in alloc; "{out}.{lane}.pcap")
}

/// The name of the verdicts' file.
pub fn verdicts_name(alloc: Global, out: &str) -> Result<String, AllocError>
    ensures { IfOk result (λ name. string_bytes name ≡ verdicts_name out.now) }
{
    format!(in alloc; "{out}.verdicts")
}

/// The name of the journal's file.
pub fn journal_name(alloc: Global, out: &str) -> Result<String, AllocError>
    ensures { IfOk result (λ name. string_bytes name ≡ journal_name out.now) }
{
    format!(in alloc; "{out}.journal")
}
