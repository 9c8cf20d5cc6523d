ghost use Rattle.std.specs.Prelude.{◌≡◌, Bool, List, ℕ, Some, None, if◌then◌else◌, bytes_eq};
ghost use Rattle.std.specs.List.{list_any};
ghost use Rattle.tk_types.specs.Fault.{fault};
ghost use Rattle.tk_types.specs.declared.fault.Detail.TheVariants.{Nothing};
ghost use Rattle.tk_fields.specs.Check.{one_of, text, text_that};
ghost use Rattle.tk_fields.specs.Get.{text_of};

use crate::reader::{OrEmpty, Reader};
use serde_json::Value;
use std::alloc::Global;
use std::marker::PhantomData;
use tk_types::{Fault, Location, Rejected, Text, refusal};

/// Any text.
pub struct AnyText;

impl Reader for AnyText {
    type Out = Text;

    ghost check = { text };

    ghost value_of = { text_of };

    fn read(alloc: Global, value: &Value, place: &Location<'_>) -> Result<Text, Rejected> {
        match value.as_str() {
            Some(text) => Ok(Text::from_str(alloc, text)?),
            None => Err(refusal(alloc, Fault::WRONG_SHAPE, place)),
        }
    }
}

impl OrEmpty for AnyText {
    fn empty(alloc: Global) -> Text {
        Text::new(alloc)
    }
}

/// A rule for texts, as the grammar of a kind of names.
pub trait TextRule {
    /// The texts that obey it.
    ghost obeys: { List ℕ → Bool };

    /// The fault of one that doesn't.
    ghost fault_number: { ℕ };

    /// Whether a text obeys the rule.
    fn is_obeyed(text: &str) -> bool
        ensures { result ≡ obeys text.now };

    /// The number of the fault that a text is which doesn't.
    fn number() -> u8
        ensures { result ≡ fault_number };
}

/// A text that obeys a rule.
pub struct TextThat<T>(PhantomData<T>);

impl<T: TextRule> Reader for TextThat<T> {
    type Out = Text;

    ghost check = { text_that T.obeys (λ place. fault T.fault_number place Nothing) };

    ghost value_of = { text_of };

    fn read(alloc: Global, value: &Value, place: &Location<'_>) -> Result<Text, Rejected> {
        let Some(text) = value.as_str() else {
            return Err(refusal(alloc, Fault::WRONG_SHAPE, place));
        };
        if !T::is_obeyed(text) {
            return Err(refusal(alloc, T::number(), place));
        }
        Ok(Text::from_str(alloc, text)?)
    }
}

/// Some words, each of which means something.
pub trait Words {
    /// What a word means.
    type Meaning: Drop;

    /// The words.
    ghost words: { List (List ℕ) };

    /// What each of them means.
    ghost meaning: { List ℕ → Self.Meaning };

    /// What a word means, if it is one of them.
    fn meaning_of(word: &str) -> Option<Self::Meaning>
        ensures { result ≡ (if list_any (bytes_eq word.now) words then Some (meaning word.now) else None) };
}

/// One of some words, else `BadChoice`.
pub struct OneOf<W>(PhantomData<W>);

impl<W: Words> Reader for OneOf<W> {
    type Out = W::Meaning;

    ghost check = { one_of W.words };

    ghost value_of = { λ d. W.meaning (text_of d) };

    fn read(alloc: Global, value: &Value, place: &Location<'_>) -> Result<W::Meaning, Rejected> {
        let Some(word) = value.as_str() else {
            return Err(refusal(alloc, Fault::WRONG_SHAPE, place));
        };
        match W::meaning_of(word) {
            Some(meaning) => Ok(meaning),
            None => Err(refusal(alloc, Fault::BAD_CHOICE, place)),
        }
    }
}
