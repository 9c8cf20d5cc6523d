ghost use Rattle.std.specs.Prelude.{◌≡◌, ◌++◌, map, Ok, All, IfErr, IfOk, OnOk, ok_or, option_and_then, string_bytes};
ghost use Rattle.std.specs.Option.{option_copied};
ghost use Rattle.tk_types.specs.Lists.{all_ok};
ghost use Rattle.tk_types.specs.Value.{value_texts};
ghost use Rattle.tk_types.specs.declared.value.Pair.{Pair as P};
ghost use Rattle.tk_vars.specs.Reading.{HasReading, pieces_of};
ghost use Rattle.tk_bind.specs.Refusal.{IsUnavailable};
ghost use Rattle.tk_bind.specs.Substitute.{on_ok, as_text, as_list, element, joined_text, piece_text, reference_value, spliced_texts, substituted, substituted_list, substituted_pair, substituted_value, whole_value};

use crate::env::Env;
use crate::found::Found;
use crate::lookup::{Lookup, index_of};
use crate::refusal::SubstituteError;
use std::alloc::{AllocError, Global};
use tk_types::{List, Pair, Text, TryCopy, Value};
use tk_vars::{Piece, Reference, known_pieces, whole_of};

impl<'i, 'p, 'r, 'w, 'o> Lookup<'i, 'p, 'r, 'w, 'o> {
    /// The text that a reference takes.
    fn text_of<'s>(
        &'s self,
        alloc: Global,
        reference: &Reference<'_>,
    ) -> Result<&'s Text, SubstituteError>
        ensures value { IfOk result (λ text. ok_or (option_and_then as_text (reference_value self.now reference.now)) reference.now.spelling ≡ Ok text.now) }
        ensures refused { IfErr result (IsUnavailable (ok_or (option_and_then as_text (reference_value self.now reference.now)) reference.now.spelling)) }
    {
        match self.reference_value(alloc, reference)? {
            Some(Found::Text(text)) => Ok(text),
            _ => Err(SubstituteError::Unavailable {
                reference: Text::from_str(alloc, reference.spelling.as_str())?,
            }),
        }
    }

    /// The list that a reference takes.
    fn list_of<'s>(
        &'s self,
        alloc: Global,
        reference: &Reference<'_>,
    ) -> Result<&'s [Text], SubstituteError>
        ensures value { IfOk result (λ texts. ok_or (option_and_then as_list (reference_value self.now reference.now)) reference.now.spelling ≡ Ok texts.now) }
        ensures refused { IfErr result (IsUnavailable (ok_or (option_and_then as_list (reference_value self.now reference.now)) reference.now.spelling)) }
    {
        match self.reference_value(alloc, reference)? {
            Some(Found::Texts(texts)) => Ok(texts),
            _ => Err(SubstituteError::Unavailable {
                reference: Text::from_str(alloc, reference.spelling.as_str())?,
            }),
        }
    }

    /// The value that a reference takes, copied.
    fn value_of(&self, alloc: Global, reference: &Reference<'_>) -> Result<Value, SubstituteError>
        ensures value { IfOk result (λ value. ok_or (reference_value self.now reference.now) reference.now.spelling ≡ Ok value) }
        ensures refused { IfErr result (IsUnavailable (ok_or (reference_value self.now reference.now) reference.now.spelling)) }
    {
        match self.reference_value(alloc, reference)? {
            Some(found) => Ok(found.copy(alloc)?),
            None => Err(SubstituteError::Unavailable {
                reference: Text::from_str(alloc, reference.spelling.as_str())?,
            }),
        }
    }

    /// Adds the text of a piece.
    fn push_piece(
        &self,
        alloc: Global,
        text: &mut String,
        piece: &Piece<'_>,
    ) -> Result<(), SubstituteError>
        ensures value { OnOk result (on_ok (λ t. string_bytes text.old ++ t) (piece_text self.now piece.now) ≡ Ok (string_bytes text.new)) }
        ensures refused { IfErr result (IsUnavailable (piece_text self.now piece.now)) }
    {
        match piece {
            Piece::Plain(word) => text.push_str(word.as_str())?,
            Piece::Ref(reference) => text.push_str(self.text_of(alloc, reference)?.as_str())?,
        }
        Ok(())
    }

    /// The texts of the pieces, joined.
    fn joined_text(&self, alloc: Global, pieces: &[Piece<'_>]) -> Result<Text, SubstituteError>
        ensures value { IfOk result (λ text. joined_text self.now pieces.now ≡ Ok text) }
        ensures refused { IfErr result (IsUnavailable (joined_text self.now pieces.now)) }
    {
        let mut text = String::new(alloc);
        for piece in pieces {
            self.push_piece(alloc, &mut text, piece)?;
        }
        Ok(Text::from_string(text))
    }

    /// Adds the texts that an element of a list gives.
    fn push_element(
        &self,
        alloc: Global,
        made: &mut List<Text>,
        text: &str,
    ) -> Result<(), SubstituteError>
        requires { HasReading text.now }
        ensures value { OnOk result (on_ok (λ ts. made.old ++ ts) (element self.now text.now) ≡ Ok made.new) }
        ensures refused { IfErr result (IsUnavailable (element self.now text.now)) }
    {
        let pieces = known_pieces(alloc, text)?;
        match whole_of(pieces.as_slice()) {
            None => made.push(self.joined_text(alloc, pieces.as_slice())?)?,
            Some(reference) => made.push_all(alloc, self.list_of(alloc, reference)?)?,
        }
        Ok(())
    }

    /// The value that a text gives as a value.
    fn whole_value(&self, alloc: Global, text: &str) -> Result<Value, SubstituteError>
        requires { HasReading text.now }
        ensures value { IfOk result (λ value. whole_value self.now (pieces_of text.now) ≡ Ok value) }
        ensures refused { IfErr result (IsUnavailable (whole_value self.now (pieces_of text.now))) }
    {
        let pieces = known_pieces(alloc, text)?;
        match whole_of(pieces.as_slice()) {
            None => Ok(Value::Str(self.joined_text(alloc, pieces.as_slice())?)),
            Some(reference) => self.value_of(alloc, reference),
        }
    }

    /// A text with its references substituted, or the first reference without a value.
    pub fn substitute(&self, alloc: Global, text: &str) -> Result<Text, SubstituteError>
        requires { HasReading text.now }
        ensures value { IfOk result (λ t. substituted self.now text.now ≡ Ok t) }
        ensures refused { IfErr result (IsUnavailable (substituted self.now text.now)) }
    {
        let pieces = known_pieces(alloc, text)?;
        self.joined_text(alloc, pieces.as_slice())
    }

    /// A list with the references of its elements substituted.
    pub fn substitute_list(
        &self,
        alloc: Global,
        texts: &[Text],
    ) -> Result<List<Text>, SubstituteError>
        requires { All HasReading texts.now }
        ensures value { IfOk result (λ ts. substituted_list self.now texts.now ≡ Ok ts) }
        ensures refused { IfErr result (IsUnavailable (substituted_list self.now texts.now)) }
    {
        let mut made = List::new(alloc);
        for text in texts {
            self.push_element(alloc, &mut made, text.as_str())?;
        }
        Ok(made)
    }

    fn substitute_pair(&self, alloc: Global, pair: &Pair) -> Result<Pair, SubstituteError>
        requires { HasReading pair.now.value }
        ensures value { IfOk result (λ p. substituted_pair self.now pair.now ≡ Ok p) }
        ensures refused { IfErr result (IsUnavailable (substituted_pair self.now pair.now)) }
    {
        Ok(Pair {
            key: pair.key.copy(alloc)?,
            value: self.substitute(alloc, pair.value.as_str())?,
        })
    }

    fn substitute_pairs(&self, alloc: Global, pairs: &[Pair]) -> Result<List<Pair>, SubstituteError>
        requires { All (λ (p : P). HasReading p.value) pairs.now }
        ensures value { IfOk result (λ ps. all_ok (map (substituted_pair self.now) pairs.now) ≡ Ok ps) }
        ensures refused { IfErr result (IsUnavailable (all_ok (map (substituted_pair self.now) pairs.now))) }
    {
        let mut made = List::new(alloc);
        for pair in pairs {
            made.push(self.substitute_pair(alloc, pair)?)?;
        }
        Ok(made)
    }

    /// A value with its references substituted.
    pub fn substitute_value(&self, alloc: Global, value: &Value) -> Result<Value, SubstituteError>
        requires { All HasReading (value_texts value.now) }
        ensures value { IfOk result (λ v. substituted_value self.now value.now ≡ Ok v) }
        ensures refused { IfErr result (IsUnavailable (substituted_value self.now value.now)) }
    {
        match value {
            Value::Str(text) => self.whole_value(alloc, text.as_str()),
            Value::Arr(texts) => Ok(Value::Arr(self.substitute_list(alloc, texts.as_slice())?)),
            Value::Obj(pairs) => Ok(Value::Obj(self.substitute_pairs(alloc, pairs.as_slice())?)),
        }
    }
}

/// A text with its references substituted, or the first reference without a value (Tekton, Pipelines, Variable
/// Substitutions Supported by Tasks and Pipelines).
pub fn substitute(alloc: Global, text: &str, env: &Env) -> Result<Text, SubstituteError>
    requires { HasReading text.now }
    ensures value { IfOk result (λ t. substituted env.now text.now ≡ Ok t) }
    ensures refused { IfErr result (IsUnavailable (substituted env.now text.now)) }
{
    let index = index_of(alloc, env)?;
    let lookup = Lookup::new(&index, &[]);
    lookup.substitute(alloc, text)
}

/// A list with the references of its elements substituted: a whole `[*]` splices the list that it takes.
pub fn substitute_list(
    alloc: Global,
    texts: &[Text],
    env: &Env,
) -> Result<List<Text>, SubstituteError>
    requires { All HasReading texts.now }
    ensures value { IfOk result (λ ts. substituted_list env.now texts.now ≡ Ok ts) }
    ensures refused { IfErr result (IsUnavailable (substituted_list env.now texts.now)) }
{
    let index = index_of(alloc, env)?;
    let lookup = Lookup::new(&index, &[]);
    lookup.substitute_list(alloc, texts)
}

/// A value with its references substituted: a text that is a whole `[*]` gives the list or the object that it takes.
pub fn substitute_value(alloc: Global, value: &Value, env: &Env) -> Result<Value, SubstituteError>
    requires { All HasReading (value_texts value.now) }
    ensures value { IfOk result (λ v. substituted_value env.now value.now ≡ Ok v) }
    ensures refused { IfErr result (IsUnavailable (substituted_value env.now value.now)) }
{
    let index = index_of(alloc, env)?;
    let lookup = Lookup::new(&index, &[]);
    lookup.substitute_value(alloc, value)
}
