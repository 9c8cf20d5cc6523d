ghost use Rattle.std.specs.Prelude.{◌≡◌, ◌⊎◌, ◌↔◌, if◌then◌else◌, is_some, IsTrue};

/// What is said of a status that has nothing to do with what the input says, if anything.
pub fn message(status: u8) -> Option<&'static str>
    ensures { IsTrue (is_some result) ↔ ((status ≡ 4) ⊎ (status ≡ 5) ⊎ (status ≡ 6)) }
{
    match status {
        4 => Some("standard input can't be read; give the input by < INPUT.json or by a pipe"),
        5 => Some(
            "standard output can't be written, so the text is cut; free the disk or keep the pipe open",
        ),
        6 => Some("there is not enough memory for this input; split it or give more memory"),
        _ => None,
    }
}

/// The status with which a program ends whose words can't be had, for want of memory or since one isn't text, and what is said
/// before the usage, where that is shown.
pub fn unread_words(lacks_memory: bool) -> (u8, Option<&'static str>)
    ensures known { (result.0 ≡ 2) ⊎ (result.0 ≡ 6) }
    ensures status { result.0 ≡ (if lacks_memory then 6 else 2) }
    ensures usage { IsTrue (is_some result.1) ↔ (result.0 ≡ 2) }
{
    if lacks_memory {
        (6, None)
    } else {
        (2, Some("a word isn't text in UTF-8"))
    }
}
