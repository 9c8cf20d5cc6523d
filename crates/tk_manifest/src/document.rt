ghost use Rattle.std.specs.Prelude.{◌≡◌, false, length, nat_lt, IfOk, option_map};
ghost use Rattle.serde_json.specs.View.{view as read_view};
ghost use Rattle.tk_types.specs.Json.{json_of};
ghost use Rattle.tk_types.specs.Limits.{longest_input};

use serde_json::Value as Json;
use std::alloc::{AllocError, Global};
use std::marker::Model;
use tk_types::{LONGEST_INPUT, json_of};

/// The bytes of an input with the JSON that they are, which is parsed once. A contract sees the bytes.
///
/// Its holder says when what was parsed is freed: it takes many times the memory of its text, and a program that ends
/// at once needn't free it.
#[derive(Drop)]
pub struct Document<'b> {
    bytes: &'b [u8],
    /// Not there where the bytes are too many, or no text of JSON.
    json: Option<Json>,
}

impl<'b> Model for Document<'b> {
    ghost use Rattle.std.specs.Prelude.{◌≡◌, ℕ, List, false, nat_lt, length, option_map};
    ghost use Rattle.serde_json.specs.View.{view as read_view};
    ghost use Rattle.tk_types.specs.Json.{json_of};
    ghost use Rattle.tk_types.specs.Limits.{longest_input};

    ghost Value = { List ℕ };

    ghost view = { λ document. document.bytes.now };

    ghost invariant = { λ document. nat_lt longest_input (length document.bytes.now) ≡ false → option_map (λ v. read_view v) document.json ≡ json_of document.bytes.now };
}

impl<'b> Document<'b> {
    /// The document of these bytes. Above 8,388,608 bytes nothing is parsed. The only error is want of memory.
    pub fn new(alloc: Global, bytes: &'b [u8]) -> Result<Self, AllocError>
        ensures { IfOk result (λ document. document ≡ bytes.now) }
    {
        let json = if LONGEST_INPUT < bytes.len() {
            None
        } else {
            json_of(alloc, bytes)?
        };
        Ok(Document { bytes, json })
    }

    /// Whether there are more bytes than an input may have.
    pub(crate) fn is_too_long(&self) -> bool
        ensures { result ≡ nat_lt longest_input (length self.now) }
    {
        LONGEST_INPUT < self.bytes.len()
    }

    /// The JSON that the bytes are.
    pub(crate) fn json(&self) -> Option<&Json>
        requires { nat_lt longest_input (length self.now) ≡ false }
        ensures { option_map (λ v. read_view v.now) result ≡ json_of self.now }
    {
        self.json.as_ref()
    }
}
