//! One attempt to serve a request, whatever it asks for.

use crate::place::{new_block, new_empty, new_master, new_pointer, reserve};
use crate::replace::replace;
use crate::shortage::Shortage;
use crate::size::resize_block;
use crate::zone::Zone;
use mac_base::request::Request;

impl Zone {
    ghost use Rattle.mac_base.specs.Sound.{Sound};
    ghost use Rattle.linked_zone.specs.Loans.{KeepsLoans};
    ghost use Rattle.zone_heap.specs.Attempts.{Attempts, CanAsk};

    /// Makes one attempt to serve a request in the zone as it is: blocks move where they must. Gives the number of the
    /// new handle or pointer, or of the block that the request is for; of a master block the address of its first slot,
    /// and 0 for a reservation.
    pub fn attempt(&mut self, request: Request) -> Result<u32, Shortage>
        requires { CanAsk self.old request }
        ensures sound { Sound self.old.shape self.old.heap }
        ensures attempt { Attempts request self.old result self.new }
        ensures loans { KeepsLoans self.old self.new }
    {
        match request {
            Request::NewBlock(length) => Ok(new_block(&mut self.pointers, length)?.number()),
            Request::NewEmpty => Ok(new_empty(&mut self.pointers)?.number()),
            Request::NewPointer(length) => Ok(new_pointer(&mut self.pointers, length)?.number()),
            Request::NewMaster => new_master(&mut self.pointers),
            Request::Reserve(length) => {
                reserve(&mut self.pointers, length)?;
                Ok(0)
            }
            Request::Resize(block, length) => {
                resize_block(&mut self.pointers, block, length)?;
                Ok(block)
            }
            Request::Replace(handle, length) => {
                replace(&mut self.pointers, handle, length)?;
                Ok(handle.number())
            }
        }
    }
}
