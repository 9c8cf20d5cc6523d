//! Texts that are long or deep.

use crate::objects::told;
use std::alloc::{AllocError, Global};
use std::test::Fail;
use tk_manifest::KindSet;
use tk_types::Text;
use tk_vars::{ScanError, scan};

/// A reference and plain text, of 123 bytes.
const ROUND: &str =
    "$(params.x)$ plain é $()$ plain é $()$ plain é $()$ plain é $()$ plain é $()$ plain é $()$ plain é $()$ plain é $()";

/// How many pieces a text has, or where its bad reference stands.
fn scanned(alloc: Global, text: &str) -> Result<String, AllocError> {
    match scan(alloc, text) {
        Ok(pieces) => format!(in alloc; "{} pieces", pieces.len()),
        Err(ScanError::BadReference { offset }) => format!(in alloc; "bad {offset}"),
        Err(ScanError::Memory) => Err(AllocError),
    }
}

#[test]
fn a_long_text_is_scanned(rt: HostRuntime) -> Result<(), Fail> {
    let alloc = rt.alloc();
    let mut text = ROUND.repeat(alloc, 1_000)?;
    assert_eq!(rt; scanned(alloc, text.as_str())?.as_str(), "2000 pieces");
    text.push_str("$(params.)")?;
    assert_eq!(rt; scanned(alloc, text.as_str())?.as_str(), "bad 123000");
    Ok(())
}

/// What is told of lists in lists, so many deep.
fn nested(alloc: Global, depth: usize) -> Result<Text, AllocError> {
    let mut text = "[".repeat(alloc, depth)?;
    text.push_str("]".repeat(alloc, depth)?.as_str())?;
    told(alloc, KindSet::Four, text.as_str())
}

#[test]
fn a_text_nests_127_deep(rt: HostRuntime) -> Result<(), Fail> {
    let alloc = rt.alloc();
    assert_eq!(rt; nested(alloc, 127)?.as_str(), "rejected 2 WrongShape $\n");
    assert_eq!(rt; nested(alloc, 128)?.as_str(), "rejected 1 BadJson\n");
    Ok(())
}
