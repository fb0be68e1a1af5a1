//! Abstract values of the words of a workspace.

ghost use Rattle.std.specs.Prelude.{◌≡◌, ◌+◌, ◌≤◌, ◌<◌, length, map, replicate, take, drop, slice_set, min, IsTrue};
ghost use Rattle.std.specs.Prelude.{IfOk, ◌++◌, ◌-◌, true, false};
ghost use Rattle.tp_state.specs.CellRules.{cell_at, cells_from, with_cells, are_free, are_defined, blurred, copied};
ghost use Rattle.tp_state.specs.Rules.{are_apart};
ghost use Rattle.tp_state.specs.Order.{joined_cells, ReportsChange, AreBelow, OneIsNotBelow, AgreeOnValues};
ghost use Rattle.tp_state.specs.Planes.{seen, IsWhole};
ghost use Rattle.tp_state.specs.Entry.{first_cells};

use crate::cell::Cell;
use crate::planes::{
    Bits, Kept, Planes, WORDS, all_defined, all_free, blur_all, copied_planes, join_planes,
    planes_below, put_all, put_one, set_planes, whole_planes,
};
use std::alloc::{AllocError, Global};
use std::marker::Model;
use tp_image::Image;

/// The abstract value of each workspace word, by its number: a contract sees the list of these.
///
/// Two bits of each word say which cell it is, in planes: 64 words are joined or compared at once. Beside them
/// is a value for each word, which means something only where a word is known or a live control word.
#[derive(Drop)]
pub struct Cells {
    pub(crate) values: Vec<u32>,
    pub(crate) planes: Planes,
}

impl Model for Cells {
    ghost use Rattle.std.specs.Prelude.{List};
    ghost use Rattle.tp_state.specs.declared.cell.Cell.{Cell};
    ghost use Rattle.tp_state.specs.Planes.{seen, IsWhole};

    ghost Value = { List Cell };

    ghost view = { λ c. seen c.values.items c.planes.items };

    ghost invariant = { λ c. IsWhole c.values.items c.planes.items };
}

impl Cells {
    /// The abstract value of a word; `Undef` outside the workspace.
    pub fn get(&self, x: usize) -> Cell
        ensures { result ≡ cell_at self.now x }
    {
        word_at(&self.values, &self.planes, x)
    }

    /// The cells of a list: of each word, what is known of it. A workspace has at most 512 words.
    pub fn from_slice(alloc: Global, cells: &[Cell]) -> Result<Cells, AllocError>
        requires { length cells.now ≤ 512 }
        ensures { IfOk result (λ new. new ≡ cells.now) }
    {
        let words = cells.len();
        let values = first_values(alloc, &[], words)?;
        let planes = whole_planes(words);
        let mut new = Cells { values, planes };
        for x in 0..words {
            new.set(x, cells[x]);
        }
        Ok(new)
    }

    /// A list of cells.
    pub fn to_vec(&self, alloc: Global) -> Result<Vec<Cell>, AllocError>
        ensures { IfOk result (λ cells. cells.items ≡ self.now) }
    {
        let words = self.values.len();
        let mut cells = Vec::with_capacity(alloc, words)?;
        for x in 0..words {
            cells.push(self.get(x))?;
        }
        Ok(cells)
    }

    pub(crate) fn set(&mut self, x: usize, cell: Cell)
        requires { x < length self.old }
        ensures { self.new ≡ slice_set self.old x cell }
    {
        set_word(&mut self.values, &mut self.planes, x, cell);
    }

    /// The abstract values of a worker's words before its first instruction.
    pub(crate) fn entry(alloc: Global, image: &Image) -> Result<Cells, AllocError>
        ensures { IfOk result (λ cells. cells ≡ first_cells image.now) }
    {
        let words = image.workspace as usize;
        let values = first_values(alloc, &image.initial, words)?;
        let planes = whole_planes(words);
        Ok(Cells { values, planes })
    }

    /// A copy.
    pub(crate) fn copy_of(&self, alloc: Global) -> Result<Cells, AllocError>
        ensures { IfOk result (λ cells. cells ≡ self.now) }
    {
        let values = Vec::from_slice(alloc, &self.values)?;
        let planes = copied_planes(&self.planes);
        Ok(Cells { values, planes })
    }

    /// Copies the cells of the other, which has as many words.
    pub(crate) fn set_to(&mut self, others: &Cells)
        requires { length others.now ≡ length self.old }
        ensures { self.new ≡ others.now }
    {
        set_words(
            &mut self.values,
            &mut self.planes,
            &others.values,
            &others.planes,
        );
    }

    /// Copies the cells of another that is above it: a value that means something there is here already.
    pub(crate) fn raise_to(&mut self, others: &Cells)
        requires sized { length others.now ≡ length self.old }
        requires below { AreBelow self.old others.now }
        ensures { self.new ≡ others.now }
    {
        set_planes(&mut self.planes, &others.planes);
    }

    /// The join of both, word by word. Where words that have a value in both are known to have the same, no value is
    /// looked at. It answers whether anything changed.
    pub(crate) fn join(&mut self, others: &Cells, agree: bool) -> bool
        requires sized { length others.now ≡ length self.old }
        requires agree { agree ≡ true → AgreeOnValues self.old others.now }
        ensures value { self.new ≡ joined_cells self.old others.now }
        ensures changed { ReportsChange result self.old self.new }
    {
        join_words(
            &self.values,
            &mut self.planes,
            &others.values,
            &others.planes,
            agree,
        )
    }

    /// Whether each cell is below the other's of the same word.
    pub(crate) fn are_below(&self, others: &Cells) -> bool
        requires { length others.now ≡ length self.now }
        ensures yes { result ≡ true → AreBelow self.now others.now }
        ensures no { result ≡ false → OneIsNotBelow self.now others.now }
    {
        words_below(&self.values, &self.planes, &others.values, &others.planes)
    }

    /// Whether none of n words, from a word on, is a live control word.
    pub(crate) fn are_free(&self, x: usize, n: usize) -> bool
        ensures { result ≡ are_free (cells_from self.now x n) }
    {
        words_free(&self.values, &self.planes, x, n)
    }

    /// Whether the bytes of n words, from a word on, are defined.
    pub(crate) fn are_defined(&self, x: usize, n: usize) -> bool
        ensures { result ≡ are_defined (cells_from self.now x n) }
    {
        words_defined(&self.values, &self.planes, x, n)
    }

    /// The same is known of n words, from a word on.
    pub(crate) fn fill(&mut self, x: usize, n: usize, cell: Cell)
        requires { x + n ≤ length self.old }
        ensures sized { length self.new ≡ length self.old }
        ensures value { self.new ≡ with_cells self.old x (replicate n cell) }
    {
        fill_words(&mut self.values, &mut self.planes, x, n, cell);
    }

    /// Each of n words, from a word on, may have taken something, as far as the workspace goes.
    pub(crate) fn blur(&mut self, x: usize, n: usize)
        ensures value { self.new ≡ with_cells self.old x (map blurred (cells_from self.old x n)) }
        ensures sized { length self.new ≡ length self.old }
    {
        blur_words(&self.values, &mut self.planes, x, n);
    }

    /// n words, from a word on, take copies of n others.
    pub(crate) fn copy(&mut self, x: usize, y: usize, n: usize)
        requires target { x + n ≤ length self.old }
        requires source { y + n ≤ length self.old }
        requires apart { IsTrue (are_apart n x y) }
        ensures value { self.new ≡ with_cells self.old x (map copied (cells_from self.old y n)) }
        ensures sized { length self.new ≡ length self.old }
    {
        copy_words(&mut self.values, &mut self.planes, x, y, n);
    }
}

/// The part of n words, from a word on, that lies in a workspace: its first word, and its end.
fn part(len: usize, x: usize, n: usize) -> (usize, usize)
    ensures first { result.0 ≡ min x len }
    ensures end { result.1 ≡ min x len + min n (len - min x len) }
{
    let first = x.min(len);
    (first, first + n.min(len - first))
}

/// The abstract value of a word; `Undef` outside the workspace.
#[tactic(auto, using(crate::proofs::SeenLemmas::length_seen))]
fn word_at(values: &[u32], planes: &[Bits], x: usize) -> Cell
    requires { IsWhole values.now planes.now }
    ensures { result ≡ cell_at (seen values.now planes.now) x }
{
    if x < values.len() {
        planes[x / WORDS].cell(x % WORDS, values[x])
    } else {
        Cell::Undef
    }
}

#[tactic(auto, using(crate::proofs::SeenLemmas::length_seen))]
fn set_word(values: &mut [u32], planes: &mut [Bits], x: usize, cell: Cell)
    requires whole { IsWhole values.old planes.old }
    requires inside { x < length (seen values.old planes.old) }
    ensures whole { IsWhole values.new planes.new }
    ensures value { seen values.new planes.new ≡ slice_set (seen values.old planes.old) x cell }
{
    let kept = Kept::of(cell);
    values[x] = kept.value;
    put_one(planes, x, kept);
}

/// Copies all cells from `others`, which has the same length.
#[tactic(auto, using(crate::proofs::SeenLemmas::length_seen))]
fn set_words(values: &mut [u32], planes: &mut [Bits], other_values: &[u32], others: &[Bits])
    requires whole { IsWhole values.old planes.old }
    requires others { IsWhole other_values.now others.now }
    requires long { length (seen other_values.now others.now) ≡ length (seen values.old planes.old) }
    ensures values { values.new ≡ other_values.now }
    ensures planes { planes.new ≡ others.now }
{
    values.copy_from_slice(other_values);
    set_planes(planes, others);
}

/// The values of an image's first words, and of the others, which begin with 0.
fn first_values(alloc: Global, initial: &[u32], words: usize) -> Result<Vec<u32>, AllocError>
    requires { length initial.now ≤ words }
    ensures value { IfOk result (λ values. values.items ≡ initial.now ++ replicate (words - length initial.now) 0) }
    ensures long { IfOk result (λ values. length values.items ≡ words) }
{
    let mut values = Vec::with_capacity(alloc, words)?;
    values.extend_from_slice(initial)?;
    values.resize(words, 0)?;
    Ok(values)
}

/// The join of both, word by word. Where words that have a value in both are known to have the same, no value is
/// looked at. It answers whether anything changed.
#[tactic(auto, using(crate::proofs::SeenLemmas::length_seen))]
fn join_words(
    values: &[u32],
    planes: &mut [Bits],
    other_values: &[u32],
    others: &[Bits],
    agree: bool,
) -> bool
    requires whole { IsWhole values.now planes.old }
    requires others { IsWhole other_values.now others.now }
    requires long { length (seen other_values.now others.now) ≡ length (seen values.now planes.old) }
    requires agree { agree ≡ true → AgreeOnValues (seen values.now planes.old) (seen other_values.now others.now) }
    ensures whole { IsWhole values.now planes.new }
    ensures value { seen values.now planes.new ≡
        joined_cells (seen values.now planes.old) (seen other_values.now others.now) }
    ensures changed { ReportsChange result (seen values.now planes.old) (seen values.now planes.new) }
{
    join_planes(planes, others, values, other_values, agree)
}

/// Whether each cell is below the other's of the same word.
#[tactic(auto, using(crate::proofs::SeenLemmas::length_seen))]
fn words_below(values: &[u32], planes: &[Bits], other_values: &[u32], others: &[Bits]) -> bool
    requires whole { IsWhole values.now planes.now }
    requires others { IsWhole other_values.now others.now }
    requires long { length (seen other_values.now others.now) ≡ length (seen values.now planes.now) }
    ensures yes { result ≡ true → AreBelow (seen values.now planes.now) (seen other_values.now others.now) }
    ensures no { result ≡ false → OneIsNotBelow (seen values.now planes.now) (seen other_values.now others.now) }
{
    planes_below(planes, others, values, other_values)
}

/// Whether none of n words, from a word on, is a live control word.
#[tactic(auto, using(crate::proofs::SeenLemmas::length_seen))]
fn words_free(values: &[u32], planes: &[Bits], x: usize, n: usize) -> bool
    requires { IsWhole values.now planes.now }
    ensures { result ≡ are_free (cells_from (seen values.now planes.now) x n) }
{
    let (first, end) = part(values.len(), x, n);
    all_free(planes, first, end)
}

/// Whether the bytes of n words, from a word on, are defined.
#[tactic(auto, using(crate::proofs::SeenLemmas::length_seen))]
fn words_defined(values: &[u32], planes: &[Bits], x: usize, n: usize) -> bool
    requires { IsWhole values.now planes.now }
    ensures { result ≡ are_defined (cells_from (seen values.now planes.now) x n) }
{
    let (first, end) = part(values.len(), x, n);
    all_defined(planes, first, end)
}

/// The same is known of n words, from a word on.
#[tactic(auto, using(crate::proofs::SeenLemmas::length_seen))]
fn fill_words(values: &mut [u32], planes: &mut [Bits], x: usize, n: usize, cell: Cell)
    requires whole { IsWhole values.old planes.old }
    requires room { x + n ≤ length (seen values.old planes.old) }
    ensures sized { length (seen values.new planes.new) ≡ length (seen values.old planes.old) }
    ensures whole { IsWhole values.new planes.new }
    ensures value { seen values.new planes.new ≡ with_cells (seen values.old planes.old) x (replicate n cell) }
{
    let kept = Kept::of(cell);
    fill_values(values, x, n, kept.value);
    put_all(planes, x, x + n, kept);
}

/// The values of n words, from a word on, are one value.
fn fill_values(values: &mut [u32], x: usize, n: usize, value: u32)
    requires { x + n ≤ length values.old }
    ensures { values.new ≡ take x values.old
        ++ (replicate n value ++ drop (x + length (replicate n value)) values.old) }
{
    values[x..x + n].fill(value);
}

/// Each of n words, from a word on, may have taken something, as far as the workspace goes.
#[tactic(auto, using(crate::proofs::SeenLemmas::length_seen))]
fn blur_words(values: &[u32], planes: &mut [Bits], x: usize, n: usize)
    requires { IsWhole values.now planes.old }
    ensures sized { length (seen values.now planes.new) ≡ length (seen values.now planes.old) }
    ensures whole { IsWhole values.now planes.new }
    ensures value { seen values.now planes.new ≡
        with_cells (seen values.now planes.old) x (map blurred (cells_from (seen values.now planes.old) x n)) }
{
    let (first, end) = part(values.len(), x, n);
    blur_all(planes, first, end);
}

/// n words, from a word on, take copies of n others.
#[tactic(auto, using(crate::proofs::SeenLemmas::length_seen))]
fn copy_words(values: &mut [u32], planes: &mut [Bits], x: usize, y: usize, n: usize)
    requires whole { IsWhole values.old planes.old }
    requires target { x + n ≤ length (seen values.old planes.old) }
    requires source { y + n ≤ length (seen values.old planes.old) }
    requires apart { IsTrue (are_apart n x y) }
    ensures sized { length (seen values.new planes.new) ≡ length (seen values.old planes.old) }
    ensures whole { IsWhole values.new planes.new }
    ensures value { seen values.new planes.new ≡
        with_cells (seen values.old planes.old) x (map copied (cells_from (seen values.old planes.old) y n)) }
{
    for i in 0..n {
        let cell = word_at(values, planes, y + i).copied();
        set_word(values, planes, x + i, cell);
    }
}
