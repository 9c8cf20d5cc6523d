//! Names that are too long end in a hash, as md5 gives it.

use std::test::Fail;
use tk_names::shorten;

/// Texts, and behind `=> ` what each is shortened to.
const SHORTENED: &str =
    "aaaaaaaaaaaaaaaaaaaaaaaaaaaaaaaaaaaaaaaaaaaaaaaaaaaaaaaaaaaaaaa => aaaaaaaaaaaaaaaaaaaaaaaaaaaaaaaaaaaaaaaaaaaaaaaaaaaaaaaaaaaaaaa
aaaaaaaaaaaaaaaaaaaaaaaaaaaaaaaaaaaaaaaaaaaaaaaaaaaaaaaaaaaaaaaa => aaaaaaaaaaaaaaaaaaaaaaaaaaaaaa-014842d480b571495a4a0363793f7367
12345678901234567890123456789012345678901234567890123456789012345678901234567890 => 123456789012345678901234567890-57edf4a22be3c955ac49da2e2107b67a";

#[test]
fn long_names_end_in_their_hash(rt: HostRuntime) -> Result<(), Fail> {
    for row in SHORTENED.split('\n') {
        let (text, wanted) = row.split_once(" => ").unwrap_or((row, "no answer"));
        assert_eq!(rt; shorten(rt.alloc(), text)?.as_str(), wanted, "of {text}");
    }
    Ok(())
}
