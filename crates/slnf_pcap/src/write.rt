ghost use Rattle.std.specs.Prelude.{◌≡◌, ◌≤◌, ◌+◌, ◌++◌, length, take, drop, OnOk, OnErr};

use crate::capture::Captured;
use crate::read::{FILE_HEADER, RECORD_HEADER};
use slnf_base::NoMemory;

/// Appends the file header of a capture, its first 24 bytes.
pub fn write_header(out: &mut Vec<u8>, capture: &[u8]) -> Result<(), NoMemory>
    requires { 24 ≤ length capture.now }
    ensures ok { OnOk result (out.new.items ≡ out.old.items ++ take 24 capture.now) }
    ensures err { OnErr result (out.new.items ≡ out.old.items) }
{
    out.extend_from_slice(&capture[..FILE_HEADER])?;
    Ok(())
}

/// Appends a record: the 16 bytes of the packet's header as they stand in the capture, and the frame.
pub fn write_packet(
    out: &mut Vec<u8>,
    capture: &[u8],
    packet: &Captured,
    frame: &[u8],
) -> Result<(), NoMemory>
    requires lies { packet.now.at + 16 ≤ length capture.now }
    requires long { length frame.now ≡ packet.now.len }
    ensures ok { OnOk result (out.new.items ≡ out.old.items ++ take 16 (drop packet.now.at capture.now) ++ frame.now) }
    ensures err { OnErr result (out.new.items ≡ out.old.items) }
{
    let before = out.len();
    out.extend_from_slice(&capture[packet.at..packet.at + RECORD_HEADER])?;
    if out.extend_from_slice(frame).is_err() {
        out.truncate(before);
        return Err(NoMemory);
    }
    Ok(())
}
