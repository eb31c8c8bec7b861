//! The numbers of objects, whose texts are found by hash.

ghost use Rattle.std.specs.Prelude.{◌≡◌, IfErr, IfOk, OnOk};
ghost use Rattle.std.specs.List.{position_or_len};
ghost use Rattle.rw_import.specs.Csv.{is_same_text, with_text};
ghost use Rattle.rw_import.specs.Sheet.{texts_in};
ghost use Rattle.rw_import.specs.declared.fault.ImportFault.TheVariants.{Memory};

use crate::fault::ImportFault;
use indexmap::IndexSet;
use std::alloc::Global;
use std::hash::RandomState;

/// The texts so far, in the order in which they came. They are hashed with keys, so that whoever writes them cannot choose texts
/// of one hash.
pub type Texts = IndexSet<Vec<u8>, RandomState>;

/// The text of a field.
fn owned(alloc: Global, field: &[u8]) -> Result<Vec<u8>, ImportFault>
    ensures text { IfOk result (λ v. v.items ≡ field.now) }
    ensures refused { IfErr result (λ e. e ≡ Memory) }
{
    Vec::from_slice(alloc, field).map_err(|_| ImportFault::Memory)
}

/// The number of a text among those so far and it. Takes memory only for a new text.
#[tactic(auto, using(crate::proofs::Texts::item_rules))]
pub fn number_of(alloc: Global, texts: &mut Texts, text: &[u8]) -> Result<u64, ImportFault>
    ensures number { IfOk result (λ n.
        n ≡ position_or_len (is_same_text text.now) (texts_in texts.old)) }
    ensures texts { OnOk result (texts_in texts.new ≡ with_text (texts_in texts.old) text.now) }
    ensures refused { IfErr result (λ e. e ≡ Memory) }
{
    if let Some(known) = texts.get_index_of(text) {
        return Ok(known as u64);
    }
    let Ok((number, _)) = texts.insert_full(owned(alloc, text)?) else {
        return Err(ImportFault::Memory);
    };
    Ok(number as u64)
}
