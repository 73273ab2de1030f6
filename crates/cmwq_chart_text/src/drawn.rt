//! What is drawn of each band: its rows, one below the other.
ghost use Rattle.std.specs.Prelude.{◌≡◌, ◌≢◌, ℕ, ◌-◌, ◌<◌, ◌≤◌, ◌∷◌, ◌++◌, [], filter, flat_map, length, map};
ghost use Rattle.std.specs.Prelude.{IfOk, OnOk, option_map, option_to_list, slice_index_or};
ghost use Rattle.std.specs.List.{range_with_len};
ghost use Rattle.std.specs.List.Sorted.{IsNonDecreasingBy};
ghost use Rattle.cmwq_chart_text.specs.declared.figures.Figure.{Figure as TheFigure};
ghost use Rattle.cmwq_chart_text.specs.Figures.{figure_number, most_rows};
ghost use Rattle.cmwq_chart_text.specs.Drawings as spec;

use crate::bands::by_band;
use crate::figures::{Figure, Row};
use crate::notes::{has_number, note_of};
use crate::page::Page;
use crate::part::{Part, What};
use std::alloc::{AllocError, Global};
use std::marker::Model;

/// What is drawn, and where the upper edge of what is drawn next will be.
#[derive(Drop)]
pub struct Drawn {
    parts: Vec<Part>,
    top: u32,
}

impl Model for Drawn {
    ghost use Rattle.cmwq_chart_text.specs.Drawings.{Drawing};

    ghost Value = { Drawing };

    ghost view = { λ d. record { parts = d.parts.items; top = d.top } };
}

/// Orders shapes by their rows. Those of one row stay in their order.
fn sort_by_row(own: &mut Vec<Figure>) -> Result<(), AllocError>
    ensures sorted { OnOk result (IsNonDecreasingBy figure_number own.new.items) }
    ensures rows { (n : ℕ) → filter (spec.is_in_row n) own.new.items ≡ filter (spec.is_in_row n) own.old.items }
{
    own.sort_by_key(|figure| figure.row().number())?;
    Ok(())
}

/// How many of these shapes, from the first on, stand in its row.
fn run_of(own: &[Figure]) -> usize
    requires { 0 < length own.now }
    ensures some { 0 < result }
    ensures within { result ≤ length own.now }
    ensures same { (k : ℕ) (d : TheFigure) → k < result
        → figure_number (slice_index_or own.now k d) ≡ figure_number (slice_index_or own.now 0 d) }
    ensures numbered { (d : TheFigure) → figure_number (slice_index_or own.now 0 d) < most_rows }
    ensures other { (d : TheFigure) → result < length own.now
        → figure_number (slice_index_or own.now result d) ≢ figure_number (slice_index_or own.now 0 d) }
{
    let row = own[0].row().number();
    let mut many = 1;
    while many < own.len() && own[many].row().number() == row {
        many += 1;
    }
    many
}

/// Whether one of these shapes shows something.
fn shows(own: &[Figure]) -> bool
    ensures { result ≡ spec.shows own.now }
{
    own.iter().any(|figure| !figure.is_flat())
}

/// The row of these shapes, which are of one, if one of them shows something.
fn row_shown(own: &[Figure]) -> Option<Row>
    ensures { result ≡ spec.row_shown own.now }
{
    match own.first() {
        Some(first) if shows(own) => Some(first.row()),
        _ => None,
    }
}

/// In how many rows below that of their caller these shapes stand.
fn waits_in(own: &[Figure]) -> u32
    ensures waits { result ≡ spec.waits_in own.now }
    ensures few { result ≤ 64 }
{
    let mut most = 0;
    for figure in own {
        most = most.max(figure.wait_rows());
    }
    most
}

fn push_part(parts: &mut Vec<Part>, band: u32, top: u32, what: What) -> Result<(), AllocError>
    ensures { OnOk result (parts.new.items ≡ parts.old.items ++ spec.part_at band top what ∷ []) }
{
    parts.push(Part { what, band, top })?;
    Ok(())
}

/// Adds shapes.
fn push_figures(
    parts: &mut Vec<Part>,
    band: u32,
    top: u32,
    own: &[Figure],
) -> Result<(), AllocError>
    ensures { OnOk result (parts.new.items ≡ parts.old.items ++ map (spec.figure_part band top) own.now) }
{
    for figure in own {
        push_part(parts, band, top, What::Figure(*figure))?;
    }
    Ok(())
}

/// Adds what is there, if it is.
fn push_note(
    parts: &mut Vec<Part>,
    band: u32,
    top: u32,
    note: Option<What>,
) -> Result<(), AllocError>
    ensures { OnOk result
        (parts.new.items ≡ parts.old.items ++ option_to_list (option_map (spec.part_at band top) note)) }
{
    if let Some(what) = note {
        push_part(parts, band, top, what)?;
    }
    Ok(())
}

/// Adds the items of shapes.
fn push_notes(
    parts: &mut Vec<Part>,
    page: &Page,
    band: u32,
    top: u32,
    own: &[Figure],
) -> Result<(), AllocError>
    ensures { OnOk result
        (parts.new.items ≡ parts.old.items ++ flat_map (spec.note_parts page.now band top) own.now) }
{
    for figure in own {
        push_note(parts, band, top, note_of(page, band, figure))?;
    }
    Ok(())
}

/// The number of an entry, if it is written.
fn number_of(page: &Page, place: u64, height: u32) -> Option<What>
    requires { place ≤ 4294967295 }
    ensures { result ≡ spec.number_of page.now height place }
{
    if has_number(page, place) {
        Some(What::Number(place as u32, height))
    } else {
        None
    }
}

/// Adds the numbers of the entries from one up to an end, over rows that are so high together.
fn push_numbers(
    parts: &mut Vec<Part>,
    page: &Page,
    band: u32,
    top: u32,
    height: u32,
    from: u64,
    end: u64,
) -> Result<(), AllocError>
    requires { end ≤ 4294967296 }
    ensures { OnOk result
        (parts.new.items ≡ parts.old.items
        ++ flat_map (spec.number_parts page.now band top height) (range_with_len from (end - from))) }
{
    for place in from..end {
        push_note(parts, band, top, number_of(page, place, height))?;
    }
    Ok(())
}

impl Drawn {
    /// Adds the row of these shapes, which are of one, if it shows something.
    fn draw_row(&mut self, page: &Page, band: u32, own: &[Figure]) -> Result<(), AllocError>
        ensures { OnOk result (self.new ≡ spec.with_row page.now band own.now self.old) }
    {
        if let Some(row) = row_shown(own) {
            push_part(&mut self.parts, band, self.top, What::Row(row))?;
            push_figures(&mut self.parts, band, self.top, own)?;
            push_notes(&mut self.parts, page, band, self.top, own)?;
            self.top = self.top.saturating_add(row.height(waits_in(own)));
        }
        Ok(())
    }

    /// Adds the rows of shapes, which are ordered by their rows.
    fn draw_rows(&mut self, page: &Page, band: u32, own: &[Figure]) -> Result<(), AllocError>
        requires { IsNonDecreasingBy figure_number own.now }
        ensures { OnOk result (self.new ≡ spec.with_rows page.now band own.now self.old) }
    {
        let mut rest = own;
        while !rest.is_empty() {
            let (row, others) = rest.split_at(run_of(rest));
            self.draw_row(page, band, row)?;
            rest = others;
        }
        Ok(())
    }

    /// Adds the rows of shapes, which it orders by their rows.
    fn sort_and_draw_rows(
        &mut self,
        page: &Page,
        band: u32,
        own: &mut Vec<Figure>,
    ) -> Result<(), AllocError>
        ensures { OnOk result (self.new ≡ spec.with_rows page.now band own.old.items self.old) }
    {
        sort_by_row(own)?;
        self.draw_rows(page, band, own)?;
        Ok(())
    }

    /// Adds a band, in which these shapes stand: the numbers of its entries, and below them its rows.
    fn draw_band(
        &mut self,
        alloc: Global,
        page: &Page,
        band: u32,
        own: &mut Vec<Figure>,
    ) -> Result<(), AllocError>
        ensures { OnOk result (self.new ≡ spec.with_band page.now own.old.items self.old band) }
    {
        let top = self.top.saturating_add(22);
        let mut rows = Drawn {
            parts: Vec::new(alloc),
            top,
        };
        rows.sort_and_draw_rows(page, band, own)?;
        let (from, end) = (
            page.band_start(band.into()),
            page.end_in(band.into(), page.end.into()),
        );
        let height = rows.top.saturating_sub(top);
        push_numbers(&mut self.parts, page, band, self.top, height, from, end)?;
        self.parts.extend_from_slice(&rows.parts)?;
        self.top = rows.top.saturating_add(18);
        Ok(())
    }

    /// All bands of a page on which these shapes stand.
    #[tactic(auto, unfolding(crate::specs::Drawings::page_drawn))]
    pub(crate) fn new(alloc: Global, page: &Page, figures: &[Figure]) -> Result<Drawn, AllocError>
        requires { page.now.end ≤ 1073741824 }
        ensures { IfOk result (λ drawn. drawn ≡ spec.page_drawn page.now figures.now) }
    {
        let mut bands = by_band(alloc, page, figures)?;
        let mut drawn = Drawn {
            parts: Vec::new(alloc),
            top: 74,
        };
        for band in 0..page.bands() as u32 {
            drawn.draw_band(alloc, page, band, &mut bands[band as usize])?;
        }
        Ok(drawn)
    }

    pub(crate) fn parts(&self) -> &[Part]
        ensures { result.now ≡ self.now.parts }
    {
        &self.parts
    }

    pub(crate) fn top(&self) -> u32
        ensures { result ≡ self.now.top }
    {
        self.top
    }
}
