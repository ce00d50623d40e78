//! BinHex: texts that other programs wrote, cut and changed.

mod faults;
mod files;
mod texts;
