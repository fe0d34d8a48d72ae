use slnf_base::Row;
use slnf_pcap::Capture;

/// A capture that was read, with its bytes.
#[derive(Debug, Drop)]
pub struct Given {
    pub bytes: Row<u8>,
    pub capture: Capture,
}

/// The files of a run as they were read: its journal, its verdicts, and an output capture for each lane, in order.
#[derive(Debug, Drop)]
pub struct RunFiles {
    pub journal: Row<u8>,
    pub verdicts: Row<u8>,
    pub outputs: Row<Row<u8>>,
}
