//! What is drawn, and in which rows.
ghost use Rattle.std.specs.Prelude.{◌≡◌, ◌<◌, ◌≤◌, IfOk, map};
ghost use Rattle.cmwq_chart_text.specs.Figures as spec;
ghost use Rattle.cmwq_chart_text.specs.declared.figures.Figure.TheVariants as figure;

use cmwq_chart::{Bar, CallerWait, Level, Shapes, Sign, Sleep, WaitSign};
use cmwq_model::{CallerId, Place, Who, WorkerId};
use std::alloc::{AllocError, Global};

/// A shape that is drawn.
#[derive(Clone, Copy)]
pub enum Figure {
    Wait(CallerWait),
    WaitSign(WaitSign),
    Bar(Bar),
    Sleep(Sleep),
    Sign(Sign),
    Level(Level),
}

/// A row in which shapes are drawn. That of a caller has those of its waits below it, and that of a worker its signs
/// below its bars.
#[derive(Clone, Copy)]
pub enum Row {
    Caller(CallerId),
    Worker(WorkerId),
    Place(Place),
}

impl Row {
    /// Its number: callers come first, then workers by CPU, pool and index, then places by queue and CPU.
    pub(crate) fn number(self) -> usize
        ensures number { result ≡ spec.row_number self }
        ensures within { result < spec.most_rows }
    {
        match self {
            Row::Caller(caller) => caller.0.into(),
            Row::Worker(worker) => {
                let high = if worker.pool.high { 256 } else { 0 };
                256 + 512 * usize::from(worker.pool.cpu.0) + high + usize::from(worker.index)
            }
            Row::Place(place) => 131_328
                + 256 * usize::from(place.queue.0)
                + usize::from(place.cpu.0),
        }
    }

    /// How high it is with so many rows of waits.
    pub(crate) fn height(self, waits: u32) -> u32
        requires { waits ≤ 64 }
        ensures { result ≡ spec.row_height self waits }
    {
        match self {
            Row::Caller(_) => 18 * (1 + waits),
            Row::Worker(_) => 28,
            Row::Place(_) => 36,
        }
    }
}

impl Figure {
    /// Its row.
    pub(crate) fn row(self) -> Row
        ensures { result ≡ spec.figure_row self }
    {
        match self {
            Figure::Wait(wait) => Row::Caller(wait.caller),
            Figure::WaitSign(sign) => Row::Caller(sign.caller),
            Figure::Bar(bar) => Row::Worker(bar.worker),
            Figure::Sleep(sleep) => Row::Worker(sleep.worker),
            Figure::Sign(sign) => match sign.who {
                Who::Caller(caller) => Row::Caller(caller),
                Who::Worker(worker) => Row::Worker(worker),
            },
            Figure::Level(level) => Row::Place(level.place),
        }
    }

    /// The entry from which on it stands.
    pub(crate) fn from(self) -> u32
        ensures { result ≡ spec.figure_from self }
    {
        match self {
            Figure::Wait(wait) => wait.from,
            Figure::WaitSign(sign) => sign.at,
            Figure::Bar(bar) => bar.from,
            Figure::Sleep(sleep) => sleep.from,
            Figure::Sign(sign) => sign.at,
            Figure::Level(level) => level.from,
        }
    }

    /// Its last entry, if it has ended.
    pub(crate) fn to(self) -> Option<u32>
        ensures { result ≡ spec.figure_to self }
    {
        match self {
            Figure::Wait(wait) => wait.to,
            Figure::WaitSign(sign) => Some(sign.at),
            Figure::Bar(bar) => bar.to,
            Figure::Sleep(sleep) => sleep.to,
            Figure::Sign(sign) => Some(sign.at),
            Figure::Level(level) => level.to,
        }
    }

    /// Up to which row of its caller's waits it stands, the first of which is 1, and 0 if it stands in none.
    pub(crate) fn wait_rows(self) -> u32
        ensures rows { result ≡ spec.wait_rows self }
        ensures few { result ≤ 64 }
    {
        match self {
            Figure::Wait(wait) => wait.row.min(63) + 1,
            Figure::WaitSign(sign) => sign.row.min(63) + 1,
            _ => 0,
        }
    }

    /// Whether it is a level at which nothing is open, which shows nothing.
    pub(crate) fn is_flat(self) -> bool
        ensures { result ≡ spec.is_flat self }
    {
        match self {
            Figure::Level(level) => level.height.open_count == 0,
            _ => false,
        }
    }

    /// How many are open, at a level.
    pub(crate) fn open_count(self) -> u32
        ensures { result ≡ spec.figure_open self }
    {
        match self {
            Figure::Level(level) => level.height.open_count,
            _ => 0,
        }
    }
}

fn of_waits(alloc: Global, waits: &[CallerWait]) -> Result<Vec<Figure>, AllocError>
    ensures { IfOk result (λ figures. figures.items ≡ map figure.Wait waits.now) }
{
    waits.iter().map(|wait| Figure::Wait(*wait)).collect(alloc)
}

fn of_wait_signs(alloc: Global, wait_signs: &[WaitSign]) -> Result<Vec<Figure>, AllocError>
    ensures { IfOk result (λ figures. figures.items ≡ map figure.WaitSign wait_signs.now) }
{
    wait_signs
        .iter()
        .map(|sign| Figure::WaitSign(*sign))
        .collect(alloc)
}

fn of_bars(alloc: Global, bars: &[Bar]) -> Result<Vec<Figure>, AllocError>
    ensures { IfOk result (λ figures. figures.items ≡ map figure.Bar bars.now) }
{
    bars.iter().map(|bar| Figure::Bar(*bar)).collect(alloc)
}

fn of_sleeps(alloc: Global, sleeps: &[Sleep]) -> Result<Vec<Figure>, AllocError>
    ensures { IfOk result (λ figures. figures.items ≡ map figure.Sleep sleeps.now) }
{
    sleeps
        .iter()
        .map(|sleep| Figure::Sleep(*sleep))
        .collect(alloc)
}

fn of_signs(alloc: Global, signs: &[Sign]) -> Result<Vec<Figure>, AllocError>
    ensures { IfOk result (λ figures. figures.items ≡ map figure.Sign signs.now) }
{
    signs.iter().map(|sign| Figure::Sign(*sign)).collect(alloc)
}

fn of_levels(alloc: Global, levels: &[Level]) -> Result<Vec<Figure>, AllocError>
    ensures { IfOk result (λ figures. figures.items ≡ map figure.Level levels.now) }
{
    levels
        .iter()
        .map(|level| Figure::Level(*level))
        .collect(alloc)
}

/// All shapes, in the order in which those of a row are drawn.
pub(crate) fn figures_of(alloc: Global, shapes: &Shapes) -> Result<Vec<Figure>, AllocError>
    ensures { IfOk result
        (λ figures. figures.items
        ≡ spec.figures_of shapes.now.callers.waits.items shapes.now.callers.signs.items shapes.now.bars.items
        shapes.now.sleeps.items shapes.now.signs.items shapes.now.levels.items) }
{
    let mut figures = of_waits(alloc, &shapes.callers.waits)?;
    figures.append(&mut of_wait_signs(alloc, &shapes.callers.signs)?)?;
    figures.append(&mut of_bars(alloc, &shapes.bars)?)?;
    figures.append(&mut of_sleeps(alloc, &shapes.sleeps)?)?;
    figures.append(&mut of_signs(alloc, &shapes.signs)?)?;
    figures.append(&mut of_levels(alloc, &shapes.levels)?)?;
    Ok(figures)
}
