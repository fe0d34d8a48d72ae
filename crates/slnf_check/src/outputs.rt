ghost use Rattle.std.specs.Prelude.{◌≡◌, ◌≤◌, None, length, option_map, OnOk, IfErr};
ghost use Rattle.slnf_flight.specs.Output.{output_of};
ghost use Rattle.slnf_check.specs.Compare.{first_other_byte};
ghost use Rattle.slnf_check.specs.Given.{AreGiven, AreSized, IsGiven};
ghost use Rattle.slnf_check.specs.Outputs.{outputs_of, outputs_refusal, refused_at, verdicts_refusal};
ghost use Rattle.slnf_check.specs.Answers.{IsRefusedBy};

use crate::compare::{first_other_byte, first_other_line};
use crate::given::Given;
use crate::refusals::CheckError;
use slnf_base::{Row, Verdict};
use slnf_flight::write_output;
use slnf_follow::{At, Refusal};
use slnf_journal::write_verdicts;
use std::alloc::Global;

/// Whether the text is that of these verdicts.
pub(crate) fn check_verdicts(
    alloc: Global,
    text: &[u8],
    verdicts: &[Row<Verdict>],
) -> Result<(), CheckError>
    ensures passed { OnOk result (verdicts_refusal text.now verdicts.now ≡ None) }
    ensures refused { IfErr result (IsRefusedBy (verdicts_refusal text.now verdicts.now)) }
{
    let own = write_verdicts(alloc, verdicts)?;
    match first_other_line(text, own.as_slice()) {
        None => Ok(()),
        Some(line) => Err(CheckError::Refused(Refusal {
            rule: 6,
            at: At::Line(line as u64),
        })),
    }
}

/// Whether each output is that of its lane's verdicts.
pub(crate) fn check_outputs(
    alloc: Global,
    outputs: &[Row<u8>],
    given: &[Given],
    verdicts: &[Row<Verdict>],
) -> Result<(), CheckError>
    requires few { length given.now ≤ 32 }
    requires each { length outputs.now ≡ length given.now }
    requires given { AreGiven given.now }
    requires sized { AreSized given.now verdicts.now }
    ensures passed { OnOk result (outputs_refusal 0 outputs.now (outputs_of given.now verdicts.now) ≡ None) }
    ensures refused { IfErr result (IsRefusedBy (outputs_refusal 0 outputs.now (outputs_of given.now verdicts.now))) }
{
    for (lane, one) in given.iter().enumerate() {
        let output = outputs[lane].as_slice();
        check_output(alloc, lane as u32, output, one, verdicts[lane].as_slice())?;
    }
    Ok(())
}

/// Whether the output of a lane is that of these verdicts.
fn check_output(
    alloc: Global,
    lane: u32,
    output: &[u8],
    given: &Given,
    verdicts: &[Verdict],
) -> Result<(), CheckError>
    requires given { IsGiven given.now }
    requires sized { length verdicts.now ≡ length given.now.capture.packets }
    ensures passed { OnOk result
        (first_other_byte output.now (output_of given.now.bytes given.now.capture verdicts.now) ≡ None) }
    ensures refused { IfErr result (IsRefusedBy (option_map (refused_at lane)
        (first_other_byte output.now (output_of given.now.bytes given.now.capture verdicts.now)))) }
{
    let own = write_output(alloc, given.bytes.as_slice(), &given.capture, verdicts)?;
    match first_other_byte(output, own.as_slice()) {
        None => Ok(()),
        Some(place) => Err(CheckError::Refused(Refusal {
            rule: 7,
            at: At::OutputByte(lane, place as u64),
        })),
    }
}
