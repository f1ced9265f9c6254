//! The fields of a stanza, and the look-up of a name.
ghost use Rattle.std.specs.Prelude.{◌≡◌, ◌<◌, [], ◌∷◌, ◌++◌, Some, not, length, map, take, find, slice_get, IfOk, OnOk, option_copied};
ghost use Rattle.std.specs.Bool.{OnTrue};
ghost use Rattle.std.specs.Option.{option_map};
ghost use Rattle.std.specs.List.{list_any};
ghost use Rattle.dist_control.specs.Fields.{is_same_name};

use crate::marks::{MARKS, mark_of};
use crate::names::NameSet;
use smallvec::SmallVec;
use std::alloc::{AllocError, Global};
use std::marker::Model;

/// How many fields a stanza holds without an allocation, and how many are looked through one by one. Nearly
/// all stanzas of an archive have fewer.
pub(crate) const EARLY_FIELDS: usize = 24;

/// One field: its name and its value are slices of the text, and its line is that of its name, from 1.
#[derive(Clone, Copy, Debug, Default)]
pub struct Field<'a> {
    pub name: &'a [u8],
    pub value: &'a [u8],
    pub line: u64,
}

/// The fields of a stanza, in the order of the text.
#[derive(Drop)]
pub struct Fields<'a> {
    items: SmallVec<Field<'a>, EARLY_FIELDS>,
    /// The marks of their names: a name whose mark is not here is none of theirs, and they are not looked through for it.
    marks: [bool; MARKS],
}

impl<'a> Model for Fields<'a> {
    ghost use Rattle.std.specs.Prelude.{List, map};
    ghost use Rattle.dist_control.specs.FieldText.{FieldText, field_text};

    ghost Value = { List FieldText };

    ghost view = { λ fields. map field_text fields.items.items };

    ghost use Rattle.dist_control.specs.Pieces.{AreMarked};

    ghost invariant = { λ fields. AreMarked fields.marks (map field_text fields.items.items) };
}

/// One stanza, and the number of its first line.
#[derive(Drop)]
pub struct Stanza<'a> {
    pub line: u64,
    pub fields: Fields<'a>,
}

/// Whether two names are the same, ASCII case apart.
fn is_same_name(name: &[u8], other: &[u8]) -> bool
    ensures { result ≡ is_same_name name.now other.now }
{
    name.eq_ignore_ascii_case(other)
}

/// The first field of this name.
fn field_named<'f, 'a>(fields: &'f [Field<'a>], name: &[u8]) -> Option<&'f Field<'a>>
    ensures { option_copied result ≡ find (λ field. is_same_name name.now field.name.now) fields.now }
{
    fields.iter().find(|field| is_same_name(name, field.name))
}

/// The early ones of these fields.
fn early<'f, 'a>(fields: &'f [Field<'a>]) -> &'f [Field<'a>]
    ensures { result.now ≡ take EARLY_FIELDS fields.now }
{
    if fields.len() < EARLY_FIELDS {
        fields
    } else {
        &fields[..EARLY_FIELDS]
    }
}

impl<'a> Fields<'a> {
    ghost use Rattle.std.specs.Prelude.{false};
    ghost use Rattle.dist_control.specs.FieldText.{field_text};

    /// No fields.
    pub(crate) fn new(alloc: Global) -> Fields<'a>
        ensures { result ≡ [] }
    {
        Fields {
            items: SmallVec::new(alloc),
            marks: [false; MARKS],
        }
    }

    /// Adds a field, and sets its name's mark.
    pub(crate) fn push(&mut self, field: Field<'a>) -> Result<(), AllocError>
        ensures ok { OnOk result (self.new ≡ self.old ++ field_text field.entry ∷ []) }
    {
        let mark = mark_of(field.name);
        self.items.push(field)?;
        self.marks[mark] = true;
        Ok(())
    }

    /// Whether a field may have this name.
    fn may_have(&self, name: &[u8]) -> bool
        ensures { result ≡ false → list_any (λ field. is_same_name name.now field.name) self.now ≡ false }
    {
        self.marks[mark_of(name)]
    }

    /// Whether one of the early fields has this name.
    fn has_early_name(&self, name: &[u8]) -> bool
        ensures { result ≡ list_any (λ field. is_same_name name.now field.name) (take EARLY_FIELDS self.now) }
    {
        self.may_have(name) && field_named(early(self.items.as_slice()), name).is_some()
    }

    /// The first field of this name.
    fn named(&self, name: &[u8]) -> Option<&Field<'a>>
        ensures { option_map field_text (option_copied result)
            ≡ find (λ field. is_same_name name.now field.name) self.now }
    {
        if !self.may_have(name) {
            return None;
        }
        field_named(self.items.as_slice(), name)
    }

    /// How many fields there are.
    pub fn len(&self) -> usize
        ensures { result ≡ length self.now }
    {
        self.items.len()
    }

    /// The field at a place, from 0.
    pub fn get(&self, place: usize) -> &Field<'a>
        requires { place < length self.now }
        ensures { slice_get self.now place ≡ Some (field_text result.now) }
    {
        &self.items.as_slice()[place]
    }
}

impl<'a> Stanza<'a> {
    ghost use Rattle.dist_control.specs.FieldText.{field_text};

    /// The field of a name, ASCII case apart.
    pub fn get(&self, name: &[u8]) -> Option<&Field<'a>>
        ensures { option_map field_text (option_copied result)
            ≡ find (λ field. is_same_name name.now field.name) self.now.fields }
    {
        self.fields.named(name)
    }
}

ghost use Rattle.dist_control.specs.FieldText.{field_text};
ghost use Rattle.dist_control.specs.Pieces.{AreLateNames};

/// Adds a field, or finds that an earlier one has its name. Late names are those after the early fields.
pub(crate) fn add_field<'a>(
    alloc: Global,
    fields: &mut Fields<'a>,
    late: &mut NameSet,
    field: Field<'a>,
) -> Result<bool, AllocError>
    requires { AreLateNames fields.old late.old }
    ensures fresh { IfOk result (λ added. added
        ≡ not (list_any (λ earlier. is_same_name field.entry.name.now earlier.name) fields.old)) }
    ensures added { IfOk result (λ added. OnTrue added (fields.new ≡ fields.old ++ field_text field.entry ∷ [])) }
    ensures late { IfOk result (λ added. OnTrue added (AreLateNames fields.new late.new)) }
{
    if fields.has_early_name(field.name) {
        return Ok(false);
    }
    if fields.len() < EARLY_FIELDS {
        fields.push(field)?;
        return Ok(true);
    }
    if !late.insert(alloc, field.name)? {
        return Ok(false);
    }
    fields.push(field)?;
    Ok(true)
}
