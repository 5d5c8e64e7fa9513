//! An answer's fields, each by its entry in the layout.

ghost use Rattle.std.specs.Prelude.{◌≡◌, ◌<◌, nat_lt, List, [], ◌∷◌, ◌++◌, length, map, IfOk};
ghost use Rattle.ds_inbound.specs.Characters.{characters_in};
ghost use Rattle.ds_inbound.specs.Reading.{sent_of};
ghost use Rattle.scr_check.specs.Binding.{Pair, bound_at, bound_field, bound_of};
ghost use Rattle.scr_check.specs.Bound.{Binds, BindsAs, AreTaken, bound_seen};

use crate::bound::Bound;
use ds_inbound::{FieldSlice, Inbound, chars};
use scr_layout::{Entry, Layout};
use std::alloc::{AllocError, AllocFailed, Global};
use std::fmt;
use thiserror::Error;

/// Why an answer is not that of a layout's screen.
#[derive(Clone, Copy, Debug, PartialEq, Eq)]
pub enum BindFault {
    /// B1: a field at a place where no entry begins.
    NotDeclared,
    /// B2: a field with more characters than declared.
    Longer,
    /// B3: a second field at the place of an entry.
    Twice,
    /// B4: characters before the first field.
    Lead,
}

impl BindFault {
    ghost use Rattle.scr_check.specs.BindFaultText.{bind_words};

    /// The printed words, as `B2 Longer`.
    pub fn words(self) -> &'static str
        ensures { result.now ≡ bind_words self }
    {
        match self {
            BindFault::NotDeclared => "B1 NotDeclared",
            BindFault::Longer => "B2 Longer",
            BindFault::Twice => "B3 Twice",
            BindFault::Lead => "B4 Lead",
        }
    }
}

impl fmt::Display for BindFault {
    ghost use Rattle.std.specs.Prelude.{Some};
    ghost use Rattle.scr_check.specs.BindFaultText.{bind_words};

    ghost output = { λ fault. Some (bind_words fault) };

    fn fmt<W: fmt::Write>(&self, f: &mut fmt::Formatter<W>) -> fmt::Result {
        f.write_str(self.words())
    }
}

impl std::error::Error for BindFault {}

/// Why an answer could not be bound.
#[derive(Clone, Copy, Debug, PartialEq, Eq, Error)]
pub enum BindError {
    #[error("{0}")]
    Refused(BindFault),
    #[error("out of memory")]
    OutOfMemory,
}

impl From<BindFault> for BindError {
    ghost use Rattle.scr_check.specs.declared.binding.BindError.TheVariants.{Refused};

    ghost from_gives = { λ fault e. e ≡ Refused fault };

    fn from(fault: BindFault) -> BindError {
        BindError::Refused(fault)
    }
}

impl From<AllocError> for BindError {
    ghost use Rattle.scr_check.specs.declared.binding.BindError.TheVariants.{OutOfMemory};

    ghost from_gives = { λ _ e. e ≡ OutOfMemory };

    fn from(_e: AllocError) -> BindError {
        BindError::OutOfMemory
    }
}

impl<T: Drop> From<AllocFailed<T>> for BindError {
    ghost use Rattle.scr_check.specs.declared.binding.BindError.TheVariants.{OutOfMemory};

    ghost from_gives = { λ _ e. e ≡ OutOfMemory };

    fn from(_e: AllocFailed<T>) -> BindError {
        BindError::OutOfMemory
    }
}

/// Whether the entry of each index has its field already; a layout has at most so many.
type Taken = [bool; 1000];

/// Whether there are more characters than so many; a pair of the graphic escape and a code is one.
fn is_longer(raw: &[u8], declared: u32) -> bool
    ensures { result ≡ nat_lt declared (length (characters_in raw.now)) }
{
    chars(raw).nth(declared as usize).is_some()
}

/// No entry has its field yet.
fn none_taken() -> Taken
    ensures { AreTaken result [] }
{
    [false; 1000]
}

/// The pair of a field and the entry of this index, which is taken from then on.
fn bind_entry<'a>(
    index: usize,
    entry: &Entry,
    taken: &mut Taken,
    field: FieldSlice<'a>,
) -> Result<Bound<'a>, BindFault>
    requires { index < 1000 }
    ensures due { (bound : List Pair) → AreTaken taken.old bound
        → BindsAs (bound_at bound (sent_of field.entry) index entry.now) field.entry result }
    ensures taken { (bound : List Pair) → AreTaken taken.old bound
        → IfOk result (λ pair. AreTaken taken.new (bound ++ bound_seen pair ∷ [])) }
{
    if taken[index] {
        return Err(BindFault::Twice);
    }
    if is_longer(field.raw, entry.length) {
        return Err(BindFault::Longer);
    }
    taken[index] = true;
    Ok(Bound {
        entry: index,
        raw: field.raw,
    })
}

/// The pair of a field and its entry, which is taken from then on. Takes no memory.
fn bind_field<'a>(
    layout: &Layout,
    taken: &mut Taken,
    field: FieldSlice<'a>,
) -> Result<Bound<'a>, BindFault>
    ensures due { (bound : List Pair) → AreTaken taken.old bound
        → BindsAs (bound_field layout.now.entries bound (sent_of field.entry)) field.entry result }
    ensures taken { (bound : List Pair) → AreTaken taken.old bound
        → IfOk result (λ pair. AreTaken taken.new (bound ++ bound_seen pair ∷ [])) }
{
    let Some(index) = layout.entry_at(field.place) else {
        return Err(BindFault::NotDeclared);
    };
    match layout.entries().get(index) {
        Some(entry) => bind_entry(index, entry, taken, field),
        None => Err(BindFault::NotDeclared),
    }
}

/// The fields of an answer in its order, each with the entry at its place: an answer to Read Modified
/// that the layout's screen can have given. Looks for each field's entry by halving.
///
/// # Errors
///
/// B4 where characters stand before the first field. Then field by field: B1 where no entry begins at
/// its place, B3 where that entry has a field already, B2 where it has more characters than declared.
/// `OutOfMemory` where nothing of that is at fault, and a request for memory was refused.
pub fn bind<'a>(
    alloc: Global,
    layout: &Layout,
    inbound: &Inbound<'a>,
) -> Result<Vec<Bound<'a>>, BindError>
    ensures { Binds (λ v. map bound_seen v.items) result (bound_of layout.now.entries inbound.now) }
{
    if !inbound.lead().is_empty() {
        return Err(BindError::Refused(BindFault::Lead));
    }
    let mut taken = none_taken();
    let mut bound = Vec::new(alloc);
    let mut is_short = false;
    for field in inbound.fields() {
        let pair = bind_field(layout, &mut taken, field)?;
        if is_short {
            continue;
        }
        match bound.push(pair) {
            Ok(()) => (),
            Err(_refused) => is_short = true,
        }
    }
    if is_short {
        return Err(BindError::OutOfMemory);
    }
    Ok(bound)
}
