//! The pictures in QuickDraw's language that resources are, as PNG files.

ghost use Rattle.std.specs.Prelude.{◌≡◌, IfOk, option_map};
ghost use Rattle.fork_drawings.specs.Pictures.{picture_of as sketch_of};
ghost use Rattle.fork_view.specs.Forms.{drawing_file, is_drawing};
ghost use Rattle.fork_view.specs.Sights.{ShowsDrawing};

use crate::view::{NotShown, Sight};
use fork_bytes::table::Row;
use fork_drawings::fault::NotDrawn;
use fork_drawings::picture_of;
use fork_pictures::png_file;
use std::alloc::{AllocError, Global};

/// Whether the resources of a type are pictures in QuickDraw's language: 'PICT'.
pub fn is_drawing(row: &Row) -> bool
    ensures { result ≡ is_drawing row.now.kind }
{
    matches!(&row.kind.bytes(), b"PICT")
}

/// The PNG file of a picture in QuickDraw's language, or None where nothing of it is drawn, or its bytes are none.
pub(crate) fn drawing_file(alloc: Global, row: &Row) -> Result<Option<Vec<u8>>, AllocError>
    ensures { IfOk result (λ file. option_map (λ bytes. bytes.items) file ≡ drawing_file row.now) }
{
    match picture_of(alloc, row.datum.as_slice()) {
        Ok(drawing) => Ok(Some(png_file(alloc, &drawing.picture)?)),
        Err(NotDrawn::Fault(_)) => Ok(None),
        Err(NotDrawn::HostFull) => Err(AllocError),
    }
}

/// A picture in QuickDraw's language, as it is shown, with what of it isn't drawn; or why it isn't.
pub(crate) fn drawing_sight(alloc: Global, row: &Row) -> Result<Sight, NotShown>
    ensures { ShowsDrawing (sketch_of row.now.datum) result }
{
    match picture_of(alloc, row.datum.as_slice()) {
        Ok(drawing) => Ok(Sight {
            bytes: png_file(alloc, &drawing.picture)?,
            is_binary: true,
            untold: Vec::new(alloc),
            undrawn: drawing.undrawn,
        }),
        Err(NotDrawn::Fault(fault)) => Err(NotShown::Undrawn(fault)),
        Err(NotDrawn::HostFull) => Err(NotShown::HostFull),
    }
}
