//! A window on a block that is lent.

ghost use Rattle.held_calls.specs.Holding.{IsOn};

use raw_region::Lent;

/// Where the bytes of a loan are in the host's memory, and how many there are.
#[repr(C)]
#[derive(Drop)]
pub struct Window {
    pub start: *mut u8,
    pub length: usize,
}

/// The window on the bytes of a loan.
pub(crate) fn window_on(loan: &Lent) -> Window
    ensures { IsOn loan.now result }
{
    Window {
        start: loan.start(),
        length: loan.len(),
    }
}
