//! Where a span of entries stands.
ghost use Rattle.std.specs.Prelude.{◌≡◌, ◌≤◌};
ghost use Rattle.cmwq_chart_text.specs.Spans as spec;

use crate::page::Page;

/// Where a span ends on the page: after its last entry, or at the end of what is shown.
#[tactic(auto, unfolding(crate::specs::Spans::span_end))]
pub(crate) fn span_end(page: &Page, to: Option<u32>) -> u64
    ensures end { result ≡ spec.span_end page.now to }
    ensures within { result ≤ 4294967296 }
{
    match to {
        Some(last) => u64::from(last) + 1,
        None => page.end.into(),
    }
}

/// Its left edge in a band.
#[tactic(auto, unfolding(crate::specs::Spans::span_left))]
pub(crate) fn span_left(page: &Page, from: u32, band: u64) -> u64
    requires { band ≤ 4294967296 }
    ensures left { result ≡ spec.span_left page.now from band }
    ensures within { result ≤ 100000000000000 }
{
    page.column_at(band, page.from_in(band, from.into()))
}

/// How wide it is in a band.
#[tactic(auto, unfolding(crate::specs::Spans::span_width))]
pub(crate) fn span_width(page: &Page, from: u32, to: Option<u32>, band: u64) -> u64
    requires { band ≤ 4294967296 }
    ensures { result ≡ spec.span_width page.now from to band }
{
    let end = page.end_in(band, span_end(page, to));
    page.width_of(page.from_in(band, from.into()), end)
}

#[tactic(auto, unfolding(crate::specs::Spans::first_shown))]
fn first_shown(page: &Page, from: u32) -> u64
    ensures first { result ≡ spec.first_shown page.now from }
    ensures within { result ≤ 4294967296 }
{
    from.max(page.first).into()
}

#[tactic(auto, unfolding(crate::specs::Spans::end_shown))]
fn end_shown(page: &Page, to: Option<u32>) -> u64
    ensures end { result ≡ spec.end_shown page.now to }
    ensures within { result ≤ 4294967296 }
{
    span_end(page, to).min(page.end.into())
}

/// The first band in which it stands.
#[tactic(auto, unfolding(crate::specs::Spans::span_band))]
pub(crate) fn span_band(page: &Page, from: u32) -> u64
    ensures band { result ≡ spec.span_band page.now from }
    ensures within { result ≤ 4294967296 }
{
    page.band_of(first_shown(page, from))
}

/// The end of the bands in which it stands.
#[tactic(auto, unfolding(crate::specs::Spans::span_bands_end))]
pub(crate) fn span_bands_end(page: &Page, from: u32, to: Option<u32>) -> u64
    ensures end { result ≡ spec.span_bands_end page.now from to }
    ensures within { result ≤ 4294967296 }
{
    page.bands_end(first_shown(page, from), end_shown(page, to))
}
