//! Tables that mark which numbers the elements of a list have.
ghost use Rattle.std.specs.Prelude.{◌≡◌};
ghost use Rattle.cmwq_chart.specs.Marks as spec;

/// Marks a number, if there is one and the table has it.
pub fn mark(marks: &mut Vec<bool>, number: Option<usize>)
    ensures { spec.IsMarked marks.old.items marks.new.items number }
{
    if let Some(number) = number {
        if let Some(mark) = marks.get_mut(number) {
            *mark = true;
        }
    }
}
