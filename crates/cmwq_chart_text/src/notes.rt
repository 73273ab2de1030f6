//! Which entries have numbers, and which bars and signs their items.
ghost use Rattle.std.specs.Prelude.{◌≡◌, ◌≤◌};
ghost use Rattle.cmwq_chart_text.specs.Notes as spec;

use crate::figures::Figure;
use crate::page::Page;
use crate::part::What;
use crate::spans::span_width;
use cmwq_chart::{Bar, Sign};

/// Whether an entry has its number above its column: each fifth or tenth, or the first that is shown where none of
/// these is.
pub(crate) fn has_number(page: &Page, place: u64) -> bool
    ensures { result ≡ spec.has_number page.now place }
{
    let every = if page.end.saturating_sub(page.first) <= 90 {
        5
    } else {
        10
    };
    let first = u64::from(page.first);
    place % every == 0 || (place == first && u64::from(page.end) <= (first + 4) / 5 * 5)
}

/// How wide a bar must be for the digits of its item.
fn caption_width(item: u16) -> u64
    ensures { result ≡ spec.caption_width item }
{
    match item {
        0..=9 => 10,
        10..=99 => 17,
        100..=999 => 24,
        1000..=9999 => 31,
        _ => 37,
    }
}

fn has_caption(page: &Page, band: u32, bar: &Bar) -> bool
    ensures { result ≡ spec.has_caption page.now band bar.now }
{
    caption_width(bar.item.0) <= span_width(page, bar.from, bar.to, band.into())
}

/// How wide a column must be for the digits of an item beside its sign.
fn label_width(item: u16) -> u64
    ensures { result ≡ spec.label_width item }
{
    match item {
        0..=9 => 13,
        10..=99 => 18,
        100..=999 => 24,
        _ => 29,
    }
}

fn has_label(page: &Page, sign: &Sign) -> bool
    ensures { result ≡ spec.has_label page.now sign.now }
{
    match sign.item {
        Some(item) => label_width(item) <= page.column_width(),
        None => false,
    }
}

/// The item of a shape, if it is written there.
pub(crate) fn note_of(page: &Page, band: u32, figure: &Figure) -> Option<What>
    ensures { result ≡ spec.note_of page.now band figure.now }
{
    match figure {
        Figure::Bar(bar) if has_caption(page, band, bar) => Some(What::Caption(*bar)),
        Figure::Sign(sign) if has_label(page, sign) => Some(What::Label(*sign)),
        _ => None,
    }
}
