//! The worked files: one with no entry, one with one, and what is damaged.
use crate::making::{file_of, opened, start};
use std::alloc::{AllocError, Global};
use std::test::Fail;
use tk_payload::entry_bytes;

/// The bytes as pairs of hexadecimal digits, the entry's text in the middle left out.
fn shown(alloc: Global, bytes: &[u8], skipped: usize) -> Result<String, AllocError> {
    let mut text = String::new(alloc);
    for (place, byte) in bytes.iter().enumerate() {
        if place < 17 || place >= skipped.saturating_add(17) {
            text.push_str(format!(in alloc; "{byte:02x} ")?.as_str())?;
        }
    }
    Ok(text)
}

/// A file with no entry; one with one entry whose text has 103 bytes, so that it has 121.
#[test]
fn files_are_as_written(rt: HostRuntime) -> Result<(), Fail> {
    let alloc = rt.alloc();
    let none = file_of(alloc, 0)?;
    assert_eq!(rt;
        shown(alloc, &none, 0)?.as_str(),
        "54 4b 4e 4a 52 4e 4c 31 00 "
    );
    let text = entry_bytes(alloc, &start(alloc, 0)?)?;
    let one = file_of(alloc, 1)?;
    assert_eq!(rt; one.len(), text.len().saturating_add(18));
    assert_eq!(rt;
        shown(alloc, &one, text.len())?.as_str(),
        "54 4b 4e 4a 52 4e 4c 31 01 67 00 00 00 00 00 00 00 00 "
    );
    Ok(())
}

/// A file, and what an opening says of it. `|` stands for an open gate, `.` for a closed one.
const FILES: &str = "=> damaged 0
TKNJRNL => damaged 0
TKNJRNL1 => damaged 0
XKNJRNL1. => damaged 0
TKNJRNL2. => damaged 0
TKNJRNL1. => 0 entries
TKNJRNL1.| => 0 entries
TKNJRNL1| => damaged 8
TKNJRNL1|....... => damaged 8
TKNJRNL1|........ => damaged 8
TKNJRNL1|......... => damaged 8";

#[test]
fn files_are_opened(rt: HostRuntime) -> Result<(), Fail> {
    let alloc = rt.alloc();
    for row in FILES.split("\n") {
        let Some((file, wanted)) = row.split_once("=> ") else {
            continue;
        };
        let mut bytes = Vec::new(alloc);
        for byte in file.trim_end().bytes() {
            let byte = match byte {
                b'|' => 1,
                b'.' => 0,
                other => other,
            };
            bytes.push(byte)?;
        }
        assert_eq!(rt; opened(alloc, bytes)?.as_str(), wanted, "{row}");
    }
    Ok(())
}
