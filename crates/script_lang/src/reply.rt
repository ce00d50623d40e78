//! The text of a reply in a buffer that is made once.

use crate::printing::render;
use crate::table::CallName;
use mac_base::error::HostFull;
use mac_base::{Asked, Reply};
use std::alloc::Global;
use std::marker::Model;

/// How many bytes a reply may have for which the host isn't asked for memory.
const REPLY_ROOM: usize = 1024;

/// What is printed for a line, in a buffer that goes on to the next. A contract sees the bytes.
#[derive(Drop)]
pub struct ReplyText {
    bytes: Vec<u8>,
}

impl Model for ReplyText {
    ghost use Rattle.std.specs.Prelude.{◌≤◌, List, ℕ, vec_capacity};
    ghost use Rattle.script_lang.specs.Text.{reply_room};

    ghost Value = { List ℕ };

    ghost view = { λ t. t.bytes.items };

    ghost invariant = { λ t. reply_room ≤ vec_capacity t.bytes };
}

impl ReplyText {
    ghost use Rattle.std.specs.Prelude.{◌≡◌, ◌<◌, [], length, IfOk, OnErr, OnOk};
    ghost use Rattle.script_lang.specs.Text.{reply_room, reply_text};

    /// No bytes, and the buffer.
    pub fn new(alloc: Global) -> Result<ReplyText, HostFull>
        ensures { IfOk result (λ text. text ≡ []) }
    {
        Ok(ReplyText {
            bytes: Vec::with_capacity(alloc, REPLY_ROOM)?,
        })
    }

    /// Takes all bytes away.
    pub fn clear(&mut self)
        ensures { self.new ≡ [] }
    {
        self.bytes.clear();
    }

    /// The bytes.
    pub fn as_slice(&self) -> &[u8]
        ensures { result.now ≡ self.now }
    {
        &self.bytes
    }

    /// Puts what the reply to a line's call prints in the place of what was there. The only error is that the host has
    /// no memory for a text of more than 1024 bytes.
    pub fn put(
        &mut self,
        number: u32,
        call: CallName,
        reply: &Reply,
        asked: &[Asked],
    ) -> Result<(), HostFull>
        ensures text { OnOk result (self.new ≡ reply_text number call reply.now asked.now) }
        ensures long { OnErr result (reply_room < length (reply_text number call reply.now asked.now)) }
    {
        self.bytes.clear();
        render(&mut self.bytes, number, call, reply, asked)
    }
}
