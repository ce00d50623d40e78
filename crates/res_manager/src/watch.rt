//! A watch over the grow-zone procedure: rows forget the handles of which its answers dispose.

ghost use Rattle.std.specs.Prelude.{◌≡◌, [], IsTrue};
ghost use Rattle.mac_base.specs.GrowZone.{may_note, noted};
ghost use Rattle.mac_base.specs.Released.{disposed_by};
ghost use Rattle.res_manager.specs.Watching.{files_after, watched_source};

use fork_disk::store::ForkStore;
use mac_base::error::OsErr;
use mac_base::handle::Handle;
use mac_base::releasing::ReleasingCall;
use mac_base::{Answer, GrowZone};
use res_files::ResourceFiles;
use std::marker::{Brand, PhantomData};

/// The resource files as they were before a call of the Memory Manager. Each call picks them, and only proofs see them.
pub trait Before<S> {
    ghost use Rattle.res_files.specs.FilesOn.{FilesOn};

    ghost files: { FilesOn S };
}

impl<S> Before<S> for Brand {
    ghost use Rattle.std.specs.Prelude.{true, []};
    ghost use Rattle.res_table.specs.OpenFiles.{no_files};

    ghost files = { record { files = no_files; loads = true; stores = [] } };
}

/// A grow-zone procedure under watch: it answers as the one that is borrowed, and the rows of all open files forget
/// each handle of which its answers dispose. So the files differ from those before the call by these handles alone.
#[derive(Drop)]
pub struct Watched<'a, S: ForkStore, G: GrowZone, B: Before<S>> {
    files: &'a mut ResourceFiles<S>,
    procedure: &'a mut G,
    before: PhantomData<B>,
    ghost forgotten: { files.now ≡ files_after (G.asks procedure.now) B.files },
}

impl<'a, S: ForkStore, G: GrowZone, B: Before<S>> Watched<'a, S, G, B> {
    /// A procedure under watch that the running call hasn't asked yet.
    pub fn new(files: &'a mut ResourceFiles<S>, procedure: &'a mut G) -> Watched<'a, S, G, B>
        requires unasked { G.asks procedure.old ≡ [] }
        requires before { files.old ≡ B.files }
        ensures same_files { result.files.ghost_name ≡ files.entry.ghost_name }
        ensures files { result.files.now ≡ files.old }
        ensures same_procedure { result.procedure.ghost_name ≡ procedure.entry.ghost_name }
        ensures procedure { result.procedure.now ≡ procedure.old }
    {
        Watched {
            files,
            procedure,
            before: PhantomData,
        }
    }
}

impl<S: ForkStore, G: GrowZone, B: Before<S>> GrowZone for Watched<'_, S, G, B> {
    ghost asks = { λ w. G.asks w.procedure.now };

    ghost source = { λ w. watched_source w.files.ghost_name w.procedure.ghost_name (G.source w.procedure.now) };

    fn ask(&mut self, needed: u32) -> Option<Answer> {
        self.procedure.ask(needed)
    }

    fn did(&mut self, call: ReleasingCall, code: Option<OsErr>) {
        if let Some(handle) = disposed_by(&call, &code) {
            self.files.forget(handle);
        }
        self.procedure.did(call, code);
    }
}

/// The handle of which a call of an answer disposed, where it was carried out.
fn disposed_by(call: &ReleasingCall, code: &Option<OsErr>) -> Option<Handle>
    ensures { result ≡ disposed_by (call.now, code.now) }
{
    match call {
        ReleasingCall::DisposesHandle(handle) if code.is_none() => Some(*handle),
        _ => None,
    }
}
