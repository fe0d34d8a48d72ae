//! Runs and refusals of the command, as texts.
//!
//! Each line has a word and what the word takes:
//!
//! - `start [CALL N]`: no file is there, and the call of this kind with this number fails.
//! - `toml TEXT`: the plan. `balancer SHARDS PROTO COUNT EPOCH`: a balancer's, with so many of these epochs.
//! - `nat LINE LOW HIGH EPOCHS`, `firewall EPOCHS`: a NAT's, with this line at its head and these ports, and a firewall's.
//! - `rules COUNT RULE % RULES`: a firewall's with so many times this rule and then these, and one instance.
//! - `in LANES COUNT LETTERS RECORDS`: so many more captures, each of this header and so many times these records.
//! - `flows`: one more capture, of 16,384 datagrams: from each of 64 ports of 256 hosts.
//! - `ends CODE LINE`: `step` runs on the plan and these captures, and ends with this status and fault line. Where it left
//!   files, and no call is going to fail, `check` accepts them.
//! - `runs NAME CODE LINE`: so the command of this name ends. `breaks NAME RULE PLACE`: it refuses the files so.
//!   `unread PLACE TEXT`: `check` refuses this text of a journal by rule 1.
//! - `was STATUS`: so the code's own name of it is. `words CODE WORDS`: the command ends so on these words.
//! - `put NAME TEXT`: the file holds this text. `swap NAME OLD%NEW`: it has one text in the place of another.
//!   `cut NAME`: its last byte is gone.
//! - `holds NAME LETTERS`, `says NAME TEXT`, `none NAME`: such a capture, such a text or nothing is there.
//! - `flowed NAME`: the verdicts are that each of the 16,384 datagrams is sent on from its own port.
//!
//! A letter stands for the bytes that it has in `letters`, a sign of a text for the words that it has there, and a
//! semicolon for a line's end. A line that begins with two blanks goes on with the one before it.

pub mod balancer;
pub mod broken;
pub mod checked;
pub mod fault;
pub mod firewall;
pub mod many;
pub mod nat;
pub mod sweep;
