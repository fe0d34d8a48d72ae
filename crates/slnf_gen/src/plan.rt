//! The plan of a load.
ghost use Rattle.std.specs.Prelude.{◌≡◌, ◌≤◌, ◌++◌, IfOk, OnOk};
ghost use Rattle.slnf_gen.specs.Plan.{instance_text, plan_text};

use itoa::Buffer;
use slnf_base::NoMemory;
use std::alloc::Global;

/// The text before the instances.
const HEAD: &[u8] =
    b"function = \"nat\"\nshards = 8\n[nat]\ninside = \"10.0.0.0/8\"\noutside = \"203.0.113.1\"\nports = [1024, 65535]\n[[epoch]]\ninstances = [";

/// The plan's text: a NAT's, with one epoch, in which each lane has an instance.
#[tactic(auto, unfolding(crate::specs::Plan::plan_head, crate::specs::Plan::plan_text))]
pub(crate) fn plan_text(alloc: Global, lanes: u32) -> Result<Vec<u8>, NoMemory>
    requires { 1 ≤ lanes }
    ensures { IfOk result (λ text. text.items ≡ plan_text lanes) }
{
    let mut text = Vec::from_slice(alloc, HEAD)?;
    push_instance(&mut text, 0)?;
    for lane in 1..lanes {
        text.extend_from_slice(b", ")?;
        push_instance(&mut text, lane)?;
    }
    text.extend_from_slice(b"]\n")?;
    Ok(text)
}

fn push_instance(text: &mut Vec<u8>, lane: u32) -> Result<(), NoMemory>
    ensures { OnOk result (text.new.items ≡ text.old.items ++ instance_text lane) }
{
    let mut buffer = Buffer::new();
    text.extend_from_slice(b"{ lane = ")?;
    text.extend_from_slice(buffer.format(lane).as_bytes())?;
    text.extend_from_slice(b" }")?;
    Ok(())
}
