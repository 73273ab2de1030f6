//! Which shapes stand in which band.
ghost use Rattle.std.specs.Prelude.{◌≡◌, ◌+◌, ◌∷◌, ◌++◌, [], ◌&&◌, IfOk, OnOk, length, nat_le, nat_lt};
ghost use Rattle.cmwq_chart_text.specs.Bands as spec;

use crate::figures::Figure;
use crate::page::Page;
use crate::spans::{span_band, span_bands_end};
use std::alloc::{AllocError, Global};

/// A list for each band, and no shape in any.
fn no_shapes(alloc: Global, bands: usize) -> Result<Vec<Vec<Figure>>, AllocError>
    ensures { IfOk result (λ lists. (length lists.items ≡ bands) × spec.AreEmpty lists.items) }
{
    let mut lists = Vec::new(alloc);
    for _ in 0..bands {
        lists.push(Vec::new(alloc))?;
    }
    Ok(lists)
}

fn push_figure(list: &mut Vec<Figure>, figure: Figure) -> Result<(), AllocError>
    ensures { OnOk result (list.new.items ≡ list.old.items ++ figure ∷ []) }
{
    list.push(figure)?;
    Ok(())
}

/// Adds a shape to the lists of the bands from one up to an end.
fn push_between(
    lists: &mut Vec<Vec<Figure>>,
    from: u64,
    end: u64,
    figure: Figure,
) -> Result<(), AllocError>
    ensures { OnOk result
        (spec.IsAdded (λ band. nat_le from band && nat_lt band end) figure lists.old.items lists.new.items) }
{
    for band in from..end.min(lists.len() as u64) {
        push_figure(&mut lists[band as usize], figure)?;
    }
    Ok(())
}

/// Adds a shape to the lists of the bands in which it stands.
fn push_shape(lists: &mut Vec<Vec<Figure>>, page: &Page, figure: Figure) -> Result<(), AllocError>
    ensures { OnOk result
        (spec.IsAdded (λ band. spec.stands_in page.now band figure) figure lists.old.items lists.new.items) }
{
    let first = span_band(page, figure.from());
    let behind = span_bands_end(page, figure.from(), figure.to());
    if figure.is_flat() && first + 1 < behind {
        push_between(lists, first, first + 1, figure)?;
        push_between(lists, behind - 1, behind, figure)?;
    } else {
        push_between(lists, first, behind, figure)?;
    }
    Ok(())
}

/// The shapes of each band, in their order.
pub(crate) fn by_band(
    alloc: Global,
    page: &Page,
    figures: &[Figure],
) -> Result<Vec<Vec<Figure>>, AllocError>
    ensures { IfOk result (λ lists. spec.AreByBand page.now figures.now lists.items) }
{
    let mut lists = no_shapes(alloc, page.bands() as usize)?;
    for figure in figures {
        push_shape(&mut lists, page, *figure)?;
    }
    Ok(lists)
}
