ghost use Rattle.std.specs.Prelude.{◌≡◌, Some, None, IfOk, IfErr, OnOk, filter_map, map, option_map};
ghost use Rattle.tk_types.specs.declared.fault.Detail.TheVariants.{Reference as ReferenceTold};
ghost use Rattle.tk_types.specs.Fault.{bad_reference, fault};
ghost use Rattle.tk_types.specs.First.{first_of};
ghost use Rattle.tk_types.specs.Rejected.{IsRefusal, Reads};
ghost use Rattle.tk_vars.specs.Offset.{bad_offset};
ghost use Rattle.tk_vars.specs.Reading.{pieces_of};
ghost use Rattle.tk_vars.specs.Target.{referenced};
ghost use Rattle.tk_validate.specs.Scoped.{pieces_finding};
ghost use Rattle.tk_validate.specs.Texts.{text_finding, unknown_of};

use crate::rule::Checked;
use crate::seen::scope::LayeredNames;
use crate::sited::TextRule;
use std::alloc::Global;
use tk_bind::{first_mistyped, first_unseen};
use tk_types::{Detail, Fault, Location, NameSet, Rejected, Text, refusal, told, told_name};
use tk_vars::laws::one_bad_offset;
use tk_vars::{Piece, Pieces, ScanError, is_plain, scan};

/// A fault about a reference to what isn't there.
fn told_unknown(alloc: Global, place: &Location<'_>, spelling: &str) -> Rejected
    ensures { IsRefusal (Some (fault 15 place.now (ReferenceTold spelling.now))) result }
{
    match Text::from_str(alloc, spelling) {
        Ok(reference) => told(
            alloc,
            Fault::UNKNOWN_VARIABLE,
            place,
            Detail::Reference(reference),
        ),
        Err(_) => Rejected::Memory,
    }
}

/// The pieces of a text; one without a reading is refused where a reference must stand.
fn scanned<'t>(alloc: Global, text: &'t str, place: &Location<'_>) -> Result<Pieces<'t>, Rejected>
    ensures pieces { IfOk result (λ pieces. pieces ≡ pieces_of text.now) }
    ensures good { OnOk result (bad_offset text.now ≡ None) }
    ensures refused { IfErr result (IsRefusal (option_map (bad_reference place.now) (bad_offset text.now))) }
{
    one_bad_offset();
    match scan(alloc, text) {
        Ok(pieces) => Ok(pieces),
        Err(ScanError::BadReference { offset }) => {
            Err(told(alloc, Fault::BAD_REFERENCE, place, Detail::Offset(offset)))
        }
        Err(ScanError::Memory) => Err(Rejected::Memory),
    }
}

/// Texts that have a reading, name what they may, and use it by its type.
#[derive(Drop)]
pub(crate) struct InScope<'s> {
    pub(crate) names: &'s LayeredNames<'s>,
    pub(crate) firsts: &'s NameSet<'s>,
}

impl<'s> InScope<'s> {
    /// The first task that some pieces name and that isn't there.
    fn unknown_task<'p, 't>(&self, pieces: &'p [Piece<'t>]) -> Option<&'p str>
        ensures { option_map (λ task. task.now) result ≡ first_of (map (unknown_of self.now.firsts.now self.now.names.now) (filter_map referenced pieces.now)) }
    {
        for piece in pieces {
            if let Piece::Ref(reference) = piece
                && let Some(task) = self.names.unknown_of(self.firsts, reference)
            {
                return Some(task);
            }
        }
        None
    }

    /// Refuses what is wrong first with the references of some pieces.
    fn check_pieces(
        &self,
        alloc: Global,
        whole: bool,
        pieces: &[Piece<'_>],
        place: &Location<'_>,
    ) -> Checked
        ensures { Reads (pieces_finding self.now.firsts.now self.now.names.now whole pieces.now place.now) tt result }
    {
        if let Some(reference) = first_unseen(alloc, self.names, pieces)? {
            return Err(told_unknown(alloc, place, reference.spelling.as_str()));
        }
        if let Some(task) = self.unknown_task(pieces) {
            return Err(told_name(alloc, Fault::UNKNOWN_TASK, place, task));
        }
        if let Some(_) = first_mistyped(alloc, self.names, whole, pieces)? {
            return Err(refusal(alloc, Fault::WRONG_TYPE, place));
        }
        Ok(())
    }
}

impl<'s> TextRule for InScope<'s> {
    ghost in_text = { λ rule. text_finding rule.firsts.now rule.names.now };

    #[tactic(auto, unfolding(crate::specs::Texts::text_finding))]
    fn check_text(&self, alloc: Global, whole: bool, text: &str, place: &Location<'_>) -> Checked {
        if is_plain(text) {
            return Ok(());
        }
        let pieces = scanned(alloc, text, place)?;
        self.check_pieces(alloc, whole, pieces.as_slice(), place)
    }
}
