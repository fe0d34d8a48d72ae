//! One round of a caller.
ghost use Rattle.std.specs.Prelude.{◌≡◌, IfOk};
ghost use Rattle.slnf_store.specs.Passes.{own_entries};
ghost use Rattle.slnf_store_threads.specs.Callers.{IsCaller};
ghost use Rattle.slnf_store_threads.specs.Sums.{with_replies};

use crate::draws::Draw;
use crate::sums::with_reply;
use slnf_access::{Reply, Request};
use slnf_bucket::BucketError;
use slnf_store::{NoGate, Store, StorePass};
use std::sync::Wait;

/// Makes one access, and answers what it was told, and the checksum with it.
fn told<R: Wait>(
    rt: &R,
    store: &Store,
    pass: &mut StorePass,
    item: u64,
    request: Request,
    sum: u64,
) -> Result<(Reply, u64), BucketError>
    requires pass { IsCaller store.now pass.old }
    requires sum { sum ≡ with_replies 0 (own_entries pass.old) }
    ensures pass { IsCaller store.now pass.new }
    ensures sum { IfOk result (λ told. told.1 ≡ with_replies 0 (own_entries pass.new)) }
{
    let reply = store.access(rt, &NoGate, pass, item, request)?;
    Ok((reply, with_reply(sum, reply)))
}

/// Looks a key up and writes it where its draw says so. It answers the checksum with what it was told.
pub fn round<R: Wait>(
    rt: &R,
    store: &Store,
    pass: &mut StorePass,
    item: u64,
    draw: Draw,
    sum: u64,
) -> Result<u64, BucketError>
    requires pass { IsCaller store.now pass.old }
    requires sum { sum ≡ with_replies 0 (own_entries pass.old) }
    ensures pass { IsCaller store.now pass.new }
    ensures sum { IfOk result (λ next. next ≡ with_replies 0 (own_entries pass.new)) }
{
    let (reply, sum) = told(rt, store, pass, item, draw.look(), sum)?;
    match draw.write(reply) {
        Some(request) => {
            let (_, sum) = told(rt, store, pass, item, request, sum)?;
            Ok(sum)
        }
        None => Ok(sum),
    }
}
