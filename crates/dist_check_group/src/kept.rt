//! The numbers of an installation: a list, or a row of bits where they are many.
ghost use Rattle.std.specs.Prelude.{◌≡◌, ◌==◌, ◌&&◌, ◌+◌, ◌^◌, ◌≤◌, [], ℕ, false, true, IfOk, OnOk, filter, length, nat_le, not};
ghost use Rattle.std.specs.List.{list_all};
ghost use Rattle.dist_lanes.specs.Rows.{value_at};
ghost use Rattle.dist_cert.specs.Rising.{AreRising, is_among};
ghost use Rattle.dist_check_group.specs.KeptPrivate.{IsForm, numbers_of, true_places};

use crate::numbers::has;
use dist_lanes::Row;
use std::alloc::{AllocError, Global};
use std::marker::Model;

/// Numbers are a row where there is one for so many places at least. It takes at most eight times the memory of their list then.
const PLACES_PER_NUMBER: usize = 256;

/// How numbers are kept.
#[derive(Drop)]
pub(crate) enum Form {
    Listed(Vec<u32>),
    /// Each number is the place of a bit.
    Placed(Row),
}

/// Rising numbers.
#[derive(Drop)]
pub(crate) struct Kept {
    form: Form,
    /// How many there were at first.
    size: usize,
}

impl Model for Kept {
    ghost use Rattle.std.specs.Prelude.{ℕ, List};
    ghost use Rattle.dist_check_group.specs.KeptPrivate.{IsForm, numbers_of};

    ghost Value = { List ℕ };

    ghost view = { λ k. numbers_of k.form };

    ghost invariant = { λ k. IsForm k.form };
}

impl Kept {
    /// No numbers.
    pub(crate) fn none(alloc: Global) -> Kept
        ensures { result ≡ [] }
    {
        Kept {
            form: Form::Listed(Vec::new(alloc)),
            size: 0,
        }
    }

    /// Rising numbers. Rows of those with the same last place are compared by words.
    pub(crate) fn new(alloc: Global, numbers: Vec<u32>, last: u32) -> Result<Kept, AllocError>
        requires { AreRising numbers.items }
        ensures { IfOk result (λ kept. kept ≡ numbers.items) }
    {
        let size = numbers.len();
        if are_few(&numbers, last) {
            return Ok(Kept {
                form: Form::Listed(numbers),
                size,
            });
        }
        let row = placed(alloc, &numbers, last)?;
        Ok(Kept {
            form: Form::Placed(row),
            size,
        })
    }

    /// The same numbers.
    pub(crate) fn copied(&self, alloc: Global) -> Result<Kept, AllocError>
        ensures { IfOk result (λ kept. kept ≡ self.now) }
    {
        let form = match &self.form {
            Form::Listed(numbers) => Form::Listed(numbers.to_vec(alloc)?),
            Form::Placed(row) => Form::Placed(copy_of(alloc, row)?),
        };
        Ok(Kept {
            form,
            size: self.size,
        })
    }

    /// Whether they are a row.
    pub(crate) fn is_row(&self) -> bool {
        matches!(&self.form, Form::Placed(_))
    }

    /// How many there were at first.
    pub(crate) fn size(&self) -> usize {
        self.size
    }

    /// Whether a number is one of them.
    pub(crate) fn has(&self, number: u32) -> bool
        ensures { result ≡ is_among self.now number }
    {
        match &self.form {
            Form::Listed(numbers) => has(numbers, number),
            Form::Placed(row) => is_placed(row, number),
        }
    }

    /// Whether others may have one of them. Rows of as many places are compared.
    pub(crate) fn may_meet(&self, others: &Kept) -> bool
        ensures { result ≡ false → (q : ℕ) → (is_among self.now q && is_among others.now q) ≡ false }
    {
        match &self.form {
            Form::Listed(_) => true,
            Form::Placed(row) => others.may_have_place(row),
        }
    }

    /// Whether one of them may be a place of a row.
    fn may_have_place(&self, row: &Row) -> bool
        ensures { result ≡ false → (q : ℕ) → (is_among (true_places row.now) q && is_among self.now q) ≡ false }
    {
        match &self.form {
            Form::Listed(_) => true,
            Form::Placed(others) => may_meet(row, others),
        }
    }

    /// The numbers as a list.
    pub(crate) fn listed(&self, alloc: Global) -> Result<Vec<u32>, AllocError>
        ensures value { IfOk result (λ numbers. numbers.items ≡ self.now) }
        ensures rising { IfOk result (λ numbers. AreRising numbers.items) }
    {
        match &self.form {
            Form::Listed(numbers) => Ok(numbers.to_vec(alloc)?),
            Form::Placed(row) => true_places(alloc, row),
        }
    }

    /// Leaves out a number and some others.
    pub(crate) fn leave_out(&mut self, own: u32, others: &[u32])
        requires { AreRising others.now }
        ensures { self.new ≡ filter (λ q. not (q == own) && not (is_among others.now q)) self.old }
    {
        leave_out_of(&mut self.form, own, others);
    }

    /// Keeps those that others have.
    pub(crate) fn narrow(&mut self, alloc: Global, others: &Kept) -> Result<(), AllocError>
        ensures { OnOk result (self.new ≡ filter (is_among others.now) self.old) }
    {
        narrow(alloc, &mut self.form, others)
    }

    /// Keeps those places of a row that are among the numbers, where both are rows of as many places. Answers whether they are.
    fn narrow_row(&self, row: &mut Row) -> bool
        ensures length { length row.new ≡ length row.old }
        ensures narrowed { result ≡ true → true_places row.new ≡ filter (is_among self.now) (true_places row.old) }
        ensures same { result ≡ false → row.new ≡ row.old }
    {
        match &self.form {
            Form::Listed(_) => false,
            Form::Placed(others) => and_places(row, others),
        }
    }

    /// Those of the numbers that are places of a row.
    fn those_placed(&self, alloc: Global, row: &Row) -> Result<Vec<u32>, AllocError>
        ensures value { IfOk result (λ common. common.items ≡ filter (is_among self.now) (true_places row.now)) }
        ensures rising { IfOk result (λ common. AreRising common.items) }
    {
        let mut common = self.listed(alloc)?;
        keep_placed(&mut common, row);
        Ok(common)
    }
}

/// Leaves out a number and some others.
fn leave_out_of(form: &mut Form, own: u32, others: &[u32])
    requires form { IsForm form.old }
    requires others { AreRising others.now }
    ensures form { IsForm form.new }
    ensures left { numbers_of form.new ≡ filter (λ q. not (q == own) && not (is_among others.now q)) (numbers_of form.old) }
{
    match form {
        Form::Listed(numbers) => leave_out(numbers, own, others),
        Form::Placed(row) => clear_places(row, own, others),
    }
}

/// Keeps those numbers that others have.
fn narrow(alloc: Global, form: &mut Form, others: &Kept) -> Result<(), AllocError>
    requires { IsForm form.old }
    ensures form { IsForm form.new }
    ensures narrowed { OnOk result (numbers_of form.new ≡ filter (is_among others.now) (numbers_of form.old)) }
{
    match form {
        Form::Listed(numbers) => keep_those_of(numbers, others),
        Form::Placed(row) => {
            if others.narrow_row(row) {
                return Ok(());
            }
            let common = others.those_placed(alloc, row)?;
            *form = Form::Listed(common);
        }
    }
    Ok(())
}

/// Whether numbers take less memory as a list, or one is above the last place.
fn are_few(numbers: &[u32], last: u32) -> bool
    ensures { result ≡ false → list_all (λ number. nat_le number last) numbers.now ≡ true }
{
    numbers.len() <= last as usize / PLACES_PER_NUMBER || !are_up_to(numbers, last)
}

/// Whether no number is above a last one.
fn are_up_to(numbers: &[u32], last: u32) -> bool
    ensures { result ≡ list_all (λ number. nat_le number last) numbers.now }
{
    numbers.iter().all(|number| *number <= last)
}

/// A row in which just these numbers are true.
fn placed(alloc: Global, numbers: &[u32], last: u32) -> Result<Row, AllocError>
    requires { list_all (λ number. nat_le number last) numbers.now ≡ true }
    ensures places { IfOk result (λ row. length row ≡ last + 1) }
    ensures each { IfOk result (λ row. (q : ℕ) → value_at row q ≡ is_among numbers.now q) }
{
    let mut row = Row::new(alloc, last as usize + 1)?;
    for number in numbers {
        row.set(*number as usize, true);
    }
    Ok(row)
}

/// A row of the same places.
fn copy_of(alloc: Global, row: &Row) -> Result<Row, AllocError>
    ensures { IfOk result (λ copy. copy ≡ row.now) }
{
    let mut copy = Row::new(alloc, row.len())?;
    copy.copy_from(row);
    Ok(copy)
}

/// Whether the place of a number is true.
fn is_placed(row: &Row, number: u32) -> bool
    ensures { result ≡ is_among (true_places row.now) number }
{
    (number as usize) < row.len() && row.get(number as usize)
}

/// The places that are true.
fn true_places(alloc: Global, row: &Row) -> Result<Vec<u32>, AllocError>
    requires { length row.now ≤ 2 ^ 32 }
    ensures value { IfOk result (λ places. places.items ≡ true_places row.now) }
    ensures rising { IfOk result (λ places. AreRising places.items) }
{
    let mut places = Vec::new(alloc);
    let mut from = 0;
    'places: while from < row.len() {
        match row.next_true(from) {
            Some(place) => {
                places.push(place as u32)?;
                from = place + 1;
            }
            None => from = row.len(),
        }
    }
    Ok(places)
}

/// Keeps those of some numbers that others have. Rising ones stay so.
pub(crate) fn keep_those_of(numbers: &mut Vec<u32>, others: &Kept)
    ensures rising { AreRising numbers.old.items → AreRising numbers.new.items }
    ensures kept { numbers.new.items ≡ filter (is_among others.now) numbers.old.items }
{
    numbers.retain(|number| others.has(*number));
}

/// Keeps those of some numbers that are places of a row.
fn keep_placed(numbers: &mut Vec<u32>, row: &Row)
    requires { AreRising numbers.old.items }
    ensures rising { AreRising numbers.new.items }
    ensures kept { numbers.new.items ≡ filter (is_among (true_places row.now)) numbers.old.items }
{
    numbers.retain(|number| is_placed(row, *number));
}

/// Keeps those places of a row that another row of as many places has. Answers whether it has as many.
fn and_places(row: &mut Row, others: &Row) -> bool
    ensures length { length row.new ≡ length row.old }
    ensures narrowed { result ≡ true → true_places row.new ≡ filter (is_among (true_places others.now)) (true_places row.old) }
    ensures same { result ≡ false → row.new ≡ row.old }
{
    if row.len() != others.len() {
        return false;
    }
    row.and_into(others);
    true
}

/// Whether two rows may have a place in common: they are not of as many places, or have one.
fn may_meet(row: &Row, others: &Row) -> bool
    ensures { result ≡ false → (q : ℕ) → (is_among (true_places row.now) q && is_among (true_places others.now) q) ≡ false }
{
    row.len() != others.len() || row.meets(others)
}

/// Leaves out a number and some others.
fn leave_out(numbers: &mut Vec<u32>, own: u32, others: &[u32])
    requires numbers { AreRising numbers.old.items }
    requires others { AreRising others.now }
    ensures rising { AreRising numbers.new.items }
    ensures left { numbers.new.items ≡ filter (λ q. not (q == own) && not (is_among others.now q)) numbers.old.items }
{
    numbers.retain(|number| *number != own && !has(others, *number));
}

/// Makes the place of a number false.
fn clear_place(row: &mut Row, number: u32)
    ensures length { length row.new ≡ length row.old }
    ensures cleared { true_places row.new ≡ filter (λ q. not (q == number)) (true_places row.old) }
{
    if (number as usize) < row.len() {
        row.set(number as usize, false);
    }
}

/// Makes the places of some numbers false.
fn clear_all(row: &mut Row, numbers: &[u32])
    ensures length { length row.new ≡ length row.old }
    ensures cleared { true_places row.new ≡ filter (λ q. not (is_among numbers.now q)) (true_places row.old) }
{
    for number in numbers {
        clear_place(row, *number);
    }
}

/// Makes the places of a number and of some others false.
fn clear_places(row: &mut Row, own: u32, others: &[u32])
    ensures length { length row.new ≡ length row.old }
    ensures cleared { true_places row.new ≡ filter (λ q. not (q == own) && not (is_among others.now q)) (true_places row.old) }
{
    clear_place(row, own);
    clear_all(row, others);
}
