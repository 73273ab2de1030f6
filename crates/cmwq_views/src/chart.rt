//! The word `chart`.

ghost use Rattle.std.specs.Prelude.{◌≡◌, Option, Result, IfSome, IsErrOf, IfOk, OnErr, OnOk, Err};
ghost use Rattle.cmwq_io.specs.Counts.{Rises};
ghost use Rattle.cmwq_model.specs.Prelude.{past_of};
ghost use Rattle.cmwq_base.specs.declared.refusal.Refusal.{Refusal as TheRefusal};
ghost use Rattle.cmwq_history.specs.Faults.{FaultsAreTrue};
ghost use Rattle.cmwq_history.specs.Views.{WriteEnds};
ghost use Rattle.cmwq_chart_levels.specs.Seen.{IsSeen};
ghost use Rattle.cmwq_chart_text.specs.PictureText.{picture_text};
ghost use Rattle.cmwq_views.specs.Chart.{ChartEnds, IsChartFlushed, chart_status, chart_text, charted_text};
ghost use Rattle.cmwq_views.specs.Chart.{entries_in, has_too_many};
ghost use Rattle.cmwq_views.specs.declared.chart.Charted.{Charted as TheCharted};

use cmwq_base::{Illegal, Refusal, Shape, Sink, Source, read_file, tell};
use cmwq_chart_levels::{Seen, shapes_of};
use cmwq_chart_text::{Picture, Window};
use cmwq_core::Judge;
use cmwq_history::{Following, View, refusal_status, tell_illegal};
use std::alloc::Global;

/// How many entries a picture shows, unless it is to show all. A browser shows a larger one slowly or not at all.
const MOST_SHOWN: u64 = 20_000;

/// What became of a history that was to be drawn.
#[derive(Clone, Copy)]
pub(crate) enum Charted {
    /// Its picture was written.
    Drawn,
    /// It is legal, and the window shows so many entries, which are too many.
    TooMany(u64),
    /// It is illegal.
    Illegal(Illegal),
}

/// How many entries a window shows of so many.
fn entries_in(window: Window, entries: u64) -> u64
    ensures { result ≡ entries_in window entries }
{
    window
        .to
        .min(entries)
        .saturating_sub(window.from.min(entries))
}

/// The picture of what a window shows of a legal history.
#[tactic(auto, unfolding(crate::specs::Chart::chart_text))]
fn picture_of(alloc: Global, window: Window, shape: &Shape, seen: &Seen) -> Result<Picture, Refusal>
    requires { IsSeen shape.now (past_of seen.now.entries.items) seen.now }
    ensures picture { IfOk result
        (λ picture. picture_text picture seen.now.entries.items ≡ chart_text window shape.now seen.now.entries.items) }
    ensures err { OnErr result (result ≡ Err Refusal.NoMemory) }
{
    let shapes = shapes_of(alloc, shape, seen)?;
    Ok(Picture::new(alloc, window, seen.entries.len(), &shapes)?)
}

/// Writes the picture of what a window shows of a legal history. All memory is taken before the first byte is written.
fn draw<O: Sink>(
    alloc: Global,
    output: &mut O,
    window: Window,
    shape: &Shape,
    seen: &Seen,
) -> Result<(), Refusal>
    requires { IsSeen shape.now (past_of seen.now.entries.items) seen.now }
    ensures ends { WriteEnds (O.written output.old) (O.written output.new)
        (chart_text window shape.now seen.now.entries.items) result }
    ensures flushed { OnOk result (O.held output.new ≡ 0) }
    ensures fault { IsErrOf result Refusal.WriteFault → Rises (O.troubles output.old) (O.troubles output.new) }
{
    let picture = picture_of(alloc, window, shape, seen)?;
    picture.write(output, &seen.entries)?;
    Ok(())
}

/// The picture of what a window shows, and whether that may be any number of entries.
#[derive(Drop)]
struct Chart {
    window: Window,
    shows_all: bool,
}

impl Chart {
    /// Whether the window shows too many of so many entries.
    fn has_too_many(&self, entries: u64) -> bool
        ensures { result ≡ has_too_many self.now.window self.now.shows_all entries }
    {
        !self.shows_all && entries_in(self.window, entries) > MOST_SHOWN
    }
}

impl<W: Sink> View<W> for Chart {
    type Made = Seen;

    ghost text_of = { λ view. charted_text view.window };

    fn write(
        &self,
        alloc: Global,
        seen: &Seen,
        shape: &Shape,
        _: &Judge,
        _: u8,
        sink: &mut W,
    ) -> Result<(), Refusal> {
        draw(alloc, sink, self.window, shape, seen)
    }
}

/// Reads a history, and writes its picture if it is legal and the window does not show too many entries.
fn write_chart<S: Source, O: Sink>(
    alloc: Global,
    chart: &Chart,
    input: &mut S,
    output: &mut O,
) -> Result<Charted, Refusal>
    ensures ends { IfSome (S.left input.old)
        (λ text. ChartEnds chart.now.window chart.now.shows_all text (O.written output.old) (O.written output.new)
        result) }
    ensures flushed { IsChartFlushed result (O.held output.new) }
    ensures faults { FaultsAreTrue result S.troubles input.old input.new O.troubles output.old output.new }
{
    let file = read_file::<Following<Seen>, S>(alloc, input, false)?;
    let entries = file.all.entries();
    match file.all.legal()? {
        Ok(_) if chart.has_too_many(entries) => {
            Ok(Charted::TooMany(entries_in(chart.window, entries)))
        }
        Ok(legal) => {
            chart.write(
                alloc,
                legal.made,
                legal.shape,
                legal.judge,
                file.version,
                output,
            )?;
            Ok(Charted::Drawn)
        }
        Err(illegal) => Ok(Charted::Illegal(illegal)),
    }
}

/// Tells why a history was not drawn. Takes no memory; a failing sink changes nothing.
fn tell_charted<E: Sink>(errors: &mut E, ended: &Result<Charted, Refusal>) {
    match ended {
        Ok(Charted::Drawn) => {}
        Ok(Charted::TooMany(entries)) => tell(
            errors,
            format_args!(
                "{entries} entries in the window, at most {MOST_SHOWN}: use --from and --to, page, or --all"
            ),
        ),
        Ok(Charted::Illegal(illegal)) => tell_illegal(errors, *illegal),
        Err(refusal) => tell(errors, *refusal),
    }
}

/// The exit status of a run that ended so.
fn chart_status(ended: &Result<Charted, Refusal>) -> u8
    ensures { result ≡ chart_status ended.now }
{
    match ended {
        Ok(Charted::Drawn) => 0,
        Ok(Charted::TooMany(_)) => 1,
        Ok(Charted::Illegal(_)) => 3,
        Err(refusal) => refusal_status(*refusal),
    }
}

/// Reads all of a history of any format, and writes the picture of what the window shows of a legal one, as SVG.
///
/// It writes nothing for an illegal history, whose verdict is told on `errors`, and nothing if the window shows more
/// than 20,000 entries and `shows_all` is false, which is told there too. What went wrong is told there as well; that
/// its own writes fail changes nothing. Returns the exit status: 0 written, 1 refused input or too many entries, 3
/// illegal, 4 no memory, 5 a fault of reading or writing. At a fault of writing a front of the picture is written, and
/// at each other status but 0 nothing.
pub fn run_chart<S: Source, O: Sink, E: Sink>(
    alloc: Global,
    input: &mut S,
    output: &mut O,
    errors: &mut E,
    window: Window,
    shows_all: bool,
) -> u8
    ensures ends { (ended : Result TheCharted TheRefusal)
        × (result ≡ chart_status ended)
        × IfSome (S.left input.old)
        (λ text. ChartEnds window shows_all text (O.written output.old) (O.written output.new) ended)
        × IsChartFlushed ended (O.held output.new)
        × FaultsAreTrue ended S.troubles input.old input.new O.troubles output.old output.new }
{
    let ended = write_chart(alloc, &Chart { window, shows_all }, input, output);
    tell_charted(errors, &ended);
    chart_status(&ended)
}
