//! Where on the page an entry stands.
ghost use Rattle.std.specs.Prelude.{◌≡◌, ◌+◌, ◌<◌, ◌≤◌};
ghost use Rattle.cmwq_chart_text.specs.Pages as spec;

use cmwq_model::WorkerId;

/// How wide all columns of a band are together.
const BAND_WIDTH: u64 = 1080;

/// The entries that are shown, from the first up to the end. Each is a column, and a band has as many as fit, so that
/// long histories go on in further bands below.
#[derive(Clone, Copy)]
pub struct Page {
    pub first: u32,
    pub end: u32,
}

/// Which entries of a history are shown: those from one up to another, where there are so many.
#[derive(Clone, Copy, Debug)]
pub struct Window {
    pub from: u64,
    pub to: u64,
}

impl Page {
    /// The page of what a window shows of so many entries.
    #[tactic(auto, unfolding(crate::specs::Pages::page_of))]
    pub(crate) fn new(window: Window, entries: usize) -> Page
        requires { entries ≤ 1073741824 }
        ensures page { result ≡ spec.page_of window entries }
        ensures within { result.end ≤ 1073741824 }
    {
        let first = window.from.min(entries as u64) as u32;
        let end = window.to.min(entries as u64) as u32;
        Page {
            first,
            end: end.max(first),
        }
    }

    /// How wide a column is: as wide as lets all entries stand in one band, within limits.
    #[tactic(auto, unfolding(crate::specs::Pages::column_width))]
    pub(crate) fn column_width(&self) -> u64
        ensures width { result ≡ spec.column_width self.now }
        ensures some { 6 ≤ result }
        ensures few { result ≤ 24 }
    {
        let shown = u64::from(self.end.saturating_sub(self.first));
        (BAND_WIDTH / shown.max(1)).min(24).max(6)
    }

    /// How many columns a band has.
    #[tactic(auto, unfolding(crate::specs::Pages::columns))]
    pub(crate) fn columns(&self) -> u64
        ensures columns { result ≡ spec.columns self.now }
        ensures some { 0 < result }
        ensures few { result ≤ 180 }
    {
        BAND_WIDTH / self.column_width()
    }

    /// The band in which an entry stands.
    #[tactic(auto, unfolding(crate::specs::Pages::band_of))]
    pub(crate) fn band_of(&self, place: u64) -> u64
        ensures band { result ≡ spec.band_of self.now place }
        ensures within { result ≤ place }
    {
        place.saturating_sub(self.first.into()) / self.columns()
    }

    /// The first entry of a band.
    #[tactic(auto, unfolding(crate::specs::Pages::band_start))]
    pub(crate) fn band_start(&self, band: u64) -> u64
        requires { band ≤ 4294967296 }
        ensures start { result ≡ spec.band_start self.now band }
        ensures within { result ≤ 1000000000000 }
    {
        u64::from(self.first) + band * self.columns()
    }

    /// How many bands there are.
    pub(crate) fn bands(&self) -> u64
        ensures bands { result ≡ spec.bands self.now }
        ensures within { result ≤ 4294967296 }
        ensures few { result ≤ self.now.end }
    {
        self.bands_end(self.first.into(), self.end.into())
    }

    /// The end of the bands in which entries stand, from the first of these up to their end.
    #[tactic(auto, unfolding(crate::specs::Pages::bands_end))]
    pub(crate) fn bands_end(&self, from: u64, end: u64) -> u64
        requires { end ≤ 4294967296 }
        ensures bands { result ≡ spec.bands_end self.now from end }
        ensures within { result ≤ 4294967296 }
        ensures few { result ≤ end }
    {
        if from < end {
            self.band_of(end - 1) + 1
        } else {
            0
        }
    }

    /// Where the column of an entry begins in its band.
    #[tactic(auto, unfolding(crate::specs::Pages::column_at))]
    pub(crate) fn column_at(&self, band: u64, place: u64) -> u64
        requires band { band ≤ 4294967296 }
        requires place { place ≤ 1000000000000 }
        ensures column { result ≡ spec.column_at self.now band place }
        ensures within { result ≤ 100000000000000 }
    {
        100 + place.saturating_sub(self.band_start(band)) * self.column_width()
    }

    /// How wide the columns from an entry up to another are.
    #[tactic(auto, unfolding(crate::specs::Pages::width_of))]
    pub(crate) fn width_of(&self, from: u64, end: u64) -> u64
        requires { end ≤ 4294967296 }
        ensures { result ≡ spec.width_of self.now from end }
    {
        end.saturating_sub(from) * self.column_width()
    }

    /// From which entry on a span stands in a band.
    #[tactic(auto, unfolding(crate::specs::Pages::from_in))]
    pub(crate) fn from_in(&self, band: u64, from: u64) -> u64
        requires band { band ≤ 4294967296 }
        requires from { from ≤ 4294967296 }
        ensures from { result ≡ spec.from_in self.now band from }
        ensures within { result ≤ 1000000000000 }
    {
        from.max(self.band_start(band))
    }

    /// Up to which entry a span stands in a band.
    #[tactic(auto, unfolding(crate::specs::Pages::end_in))]
    pub(crate) fn end_in(&self, band: u64, end: u64) -> u64
        requires { band ≤ 4294967296 }
        ensures end { result ≡ spec.end_in self.now band end }
        ensures within { result ≤ 4294967296 }
    {
        end.min(self.end.into())
            .min(self.band_start(band) + self.columns())
    }

    /// The middle of an entry's column.
    #[tactic(auto, unfolding(crate::specs::Pages::middle_of))]
    pub(crate) fn middle_of(&self, place: u64) -> u64
        requires { place ≤ 4294967296 }
        ensures middle { result ≡ spec.middle_of self.now place }
        ensures within { result ≤ 200000000000000 }
    {
        self.column_at(self.band_of(place), place) + self.column_width() / 2
    }
}

/// The letter of a worker's pool.
#[tactic(auto, unfolding(crate::specs::Pages::worker_letter))]
pub(crate) fn worker_letter(worker: WorkerId) -> u64
    ensures { result ≡ spec.worker_letter worker }
{
    if worker.pool.high { 104 } else { 110 }
}
