use crate::{Captured, PcapError, read_capture, write_header, write_packet};
use slnf_base::Link;
use std::alloc::{AllocError, Global};
use std::test::Fail;

/// A file in the order of low bytes first, with raw IP, and two records of 28 bytes.
#[rattlefmt::skip]
const USUAL: [u8; 112] = [
    0xd4, 0xc3, 0xb2, 0xa1, 0x02, 0x00, 0x04, 0x00, 0x00, 0x00, 0x00, 0x00, 0x00, 0x00, 0x00, 0x00,
    0x00, 0x00, 0x04, 0x00, 0x65, 0x00, 0x00, 0x00, 0x01, 0x00, 0x00, 0x00, 0x00, 0x00, 0x00, 0x00,
    0x1c, 0x00, 0x00, 0x00, 0x1c, 0x00, 0x00, 0x00, 0x45, 0x00, 0x00, 0x1c, 0x00, 0x01, 0x00, 0x00,
    0x40, 0x11, 0x8e, 0x91, 0xc0, 0x00, 0x02, 0x01, 0xc6, 0x33, 0x64, 0x0a, 0x0f, 0xa0, 0x00, 0x35,
    0x00, 0x08, 0x03, 0xca, 0x02, 0x00, 0x00, 0x00, 0x00, 0x00, 0x00, 0x00, 0x1c, 0x00, 0x00, 0x00,
    0x1c, 0x00, 0x00, 0x00, 0x45, 0x00, 0x00, 0x1c, 0x00, 0x02, 0x00, 0x00, 0x40, 0x11, 0x8e, 0x90,
    0xc0, 0x00, 0x02, 0x01, 0xc6, 0x33, 0x64, 0x0a, 0x0f, 0xa0, 0x00, 0x35, 0x00, 0x08, 0x03, 0xca,
];

#[test]
fn two_records_are_read_and_written_back(rt: HostRuntime) -> Result<(), Fail> {
    let capture = read_capture(rt.alloc(), &USUAL)?;
    let records = [Captured { at: 24, len: 28 }, Captured { at: 68, len: 28 }];
    assert_eq!(rt; capture.packets.as_slice(), records.as_slice());
    let mut out = Vec::new(rt.alloc());
    write_header(&mut out, &USUAL)?;
    write_packet(
        &mut out,
        &USUAL,
        &Captured { at: 24, len: 28 },
        &USUAL[40..68],
    )?;
    write_packet(
        &mut out,
        &USUAL,
        &Captured { at: 68, len: 28 },
        &USUAL[84..112],
    )?;
    assert_eq!(rt; out.as_slice(), USUAL.as_slice());
    Ok(())
}

/// What the two records, cut to this length, must give: how many records, or the error.
fn outcome_of_cut(len: usize) -> Result<usize, PcapError> {
    match len {
        0..=23 => Err(PcapError::ShortHeader),
        24 => Ok(0),
        25..=67 => Err(PcapError::TornRecord(24)),
        68 => Ok(1),
        69..=111 => Err(PcapError::TornRecord(68)),
        _ => Ok(2),
    }
}

#[test]
fn a_cut_file_is_torn_where_it_ends(rt: HostRuntime) {
    for len in 0..113 {
        let found = read_capture(rt.alloc(), &USUAL[..len]).map(|capture| capture.packets.len());
        assert!(rt; found == outcome_of_cut(len), "{len}");
    }
}

/// A file header with these fields, and zeros in the others.
fn header(alloc: Global, magic: &[u8], version: &[u8], link: &[u8]) -> Result<Vec<u8>, AllocError> {
    let mut file = Vec::new(alloc);
    file.extend_from_slice(magic)?;
    file.extend_from_slice(version)?;
    file.extend_from_slice(&[0; 12])?;
    file.extend_from_slice(link)?;
    Ok(file)
}

#[test]
fn headers_say_order_fraction_and_link(rt: HostRuntime) -> Result<(), Fail> {
    for (magic, version, link, want) in [
        (
            b"\xa1\xb2\xc3\xd4",
            b"\0\x02\0\x04",
            b"\0\0\0\x01",
            (true, false, Link::Ethernet),
        ),
        (
            b"\xd4\xc3\xb2\xa1",
            b"\x02\0\x04\0",
            b"\x65\0\0\0",
            (false, false, Link::Raw),
        ),
        (
            b"\xa1\xb2\x3c\x4d",
            b"\0\x02\0\x04",
            b"\0\0\0\x65",
            (true, true, Link::Raw),
        ),
        (
            b"\x4d\x3c\xb2\xa1",
            b"\x02\0\x04\0",
            b"\x01\0\0\0",
            (false, true, Link::Ethernet),
        ),
    ] {
        let file = header(rt.alloc(), magic, version, link)?;
        let found = read_capture(rt.alloc(), &file)?;
        assert!(rt; (found.big, found.nanos, found.link) == want, "{want:?}");
    }
    Ok(())
}

#[test]
fn broken_headers_are_refused(rt: HostRuntime) -> Result<(), Fail> {
    for (magic, version, link, want) in [
        (
            b"\xa1\xb2\xc3\xd5",
            b"\0\x02\0\x04",
            b"\0\0\0\x01",
            PcapError::BadMagic,
        ),
        (
            b"\xa1\xb2\xc3\xd4",
            b"\x02\0\x04\0",
            b"\0\0\0\x01",
            PcapError::BadVersion,
        ),
        (
            b"\xa1\xb2\xc3\xd4",
            b"\0\x02\0\x04",
            b"\x10\0\0\x01",
            PcapError::LinkType(0x1000_0001),
        ),
        // Of two rules the first is told.
        (
            b"\xa1\xb2\xc3\xd4",
            b"\0\x02\0\x05",
            b"\0\0\0\x02",
            PcapError::BadVersion,
        ),
    ] {
        let file = header(rt.alloc(), magic, version, link)?;
        let found = read_capture(rt.alloc(), &file).err();
        assert!(rt; found == Some(want), "{want:?}");
    }
    Ok(())
}

/// A file in the order of high bytes first, with records of these captured lengths and zeros in them.
fn records(alloc: Global, lengths: &[u8]) -> Result<Vec<u8>, AllocError> {
    let mut file = header(alloc, b"\xa1\xb2\x3c\x4d", b"\0\x02\0\x04", b"\0\0\0\x01")?;
    for length in lengths {
        file.extend_from_slice(&[0; 8])?;
        file.extend_from_slice(&[0, 0, 0, *length, 0, 0, 0, *length])?;
        file.extend_from_slice(vec![in alloc; 0u8; *length as usize]?.as_slice())?;
    }
    Ok(file)
}

#[test]
fn five_bytes_behind_the_records_are_torn(rt: HostRuntime) -> Result<(), Fail> {
    let mut file = records(rt.alloc(), &[42, 42, 60])?;
    let places = [
        Captured { at: 24, len: 42 },
        Captured { at: 82, len: 42 },
        Captured { at: 140, len: 60 },
    ];
    assert_eq!(rt;
        read_capture(rt.alloc(), &file)?.packets.as_slice(),
        places.as_slice()
    );
    file.extend_from_slice(&[0; 5])?;
    let torn = read_capture(rt.alloc(), &file).err();
    assert_eq!(rt; torn, Some(PcapError::TornRecord(216)));
    Ok(())
}

#[test]
fn a_record_over_the_snapshot_length_is_refused(rt: HostRuntime) -> Result<(), Fail> {
    for (low, want) in [(1, PcapError::OverSnap(24)), (0, PcapError::TornRecord(24))] {
        let mut file = records(rt.alloc(), &[])?;
        file.extend_from_slice(&[0, 0, 0, 0, 0, 0, 0, 0, 0, 4, 0, low, 0, 4, 0, low])?;
        assert_eq!(rt; read_capture(rt.alloc(), &file).err(), Some(want));
    }
    Ok(())
}

#[test]
fn no_more_records_than_a_million_are_read(rt: HostRuntime) -> Result<(), Fail> {
    let mut file = records(rt.alloc(), &[])?;
    file.extend_from_slice(vec![in rt.alloc(); 0u8; 16 * 1_048_576]?.as_slice())?;
    assert_eq!(rt; read_capture(rt.alloc(), &file)?.packets.len(), 1_048_576);
    file.push(0)?;
    let found = read_capture(rt.alloc(), &file).err();
    assert_eq!(rt; found, Some(PcapError::TooMany));
    Ok(())
}

#[test]
fn errors_tell_their_places(rt: HostRuntime) -> Result<(), Fail> {
    for (error, number, text) in [
        (PcapError::BadVersion, 3, "the version isn't 2.4"),
        (PcapError::LinkType(9), 4, "link type 9"),
        (PcapError::TornRecord(24), 5, "the record at 24 is torn"),
    ] {
        assert_eq!(rt; error.number(), Some(number));
        assert_eq!(rt; format!(in rt.alloc(); "{error}")?.as_str(), text);
    }
    Ok(())
}
