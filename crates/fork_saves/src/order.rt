//! Which of two files is put first, so that no fork is lost.

ghost use Rattle.std.specs.Prelude.{◌≡◌, IfSome};
ghost use Rattle.fork_saves.specs.Order.{KeepsForks, is_same, order_of};

/// Which of two new files is put first.
#[derive(Clone, Copy, PartialEq, Eq, Debug)]
pub(crate) enum Order {
    /// The file in its new container.
    OutputFirst,
    /// The file of the data fork.
    DataFirst,
}

/// Whether both are known, and one.
fn is_same<I: PartialEq>(a: &Option<I>, b: &Option<I>) -> bool
    ensures { result ≡ is_same I.eq a.now b.now }
{
    match (a, b) {
        (Some(a), Some(b)) => a == b,
        _ => false,
    }
}

/// In which order the output and the data fork's file are put, if they aren't one file: the one that is the input comes
/// last, since until then that has both forks. None of the standard input and output, which are no files.
pub(crate) fn order_of<I: PartialEq>(
    input: &Option<I>,
    output: &Option<I>,
    data_fork: &Option<I>,
) -> Option<Order>
    ensures exact { result ≡ order_of I.eq input.now output.now data_fork.now }
    ensures kept { IfSome result (KeepsForks I.eq input.now output.now data_fork.now) }
{
    if is_same(output, data_fork) {
        None
    } else if is_same(input, data_fork) {
        Some(Order::OutputFirst)
    } else {
        Some(Order::DataFirst)
    }
}
