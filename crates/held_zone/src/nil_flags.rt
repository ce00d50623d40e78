//! Flag bits that a guest set in the master pointers of empty handles. They say nothing.

ghost use Rattle.std.specs.Prelude.{◌≡◌, ℕ, ◌+◌, ◌<◌, ◌≤◌, false, true, length, IfSome, IfNone, MatchBool};
ghost use Rattle.mac_base.specs.Sound.{Sound};
ghost use Rattle.held_zone.specs.NilFlags.{IsCleared, NoNilFlags, NoneBetween, has_nil_flags, is_nil};

use crate::repairing::past_block;
use linked_zone::LinkedZone;
use mac_base::block::HeadKind;
use mac_base::handle::Handle;

/// Whether the master pointer at an address is an empty handle's, and may say flags.
fn is_nil(zone: &LinkedZone, at: u32) -> bool
    ensures { result ≡ is_nil zone.now at }
{
    let handle = Handle::new(at);
    matches!(zone.spec().heads(), HeadKind::Bits24) && zone.is_live(handle) && !zone.is_full(handle)
}

/// Whether the byte at an address, among bytes from the zone's start on, is the high one of an empty handle's master
/// pointer, and has flag bits and no others.
fn has_nil_flags(zone: &LinkedZone, bytes: &[u8], at: u32) -> bool
    requires sound { Sound zone.now.shape zone.now.heap }
    requires long { length bytes.now ≡ zone.now.shape.limit }
    ensures { result ≡ has_nil_flags zone.now bytes.now at }
{
    if !is_nil(zone, at) {
        return false;
    }
    let high = bytes[(at - zone.spec().base()) as usize];
    high % 32 == 0 && high != 0
}

/// The first address from another on that has such a byte.
fn next_nil_flags(zone: &LinkedZone, bytes: &[u8], from: u32) -> Option<u32>
    requires sound { Sound zone.now.shape zone.now.heap }
    requires long { length bytes.now ≡ zone.now.shape.limit }
    ensures here { IfSome result (λ at. has_nil_flags zone.now bytes.now at ≡ true) }
    ensures reached { IfSome result (λ at. from ≤ at) }
    ensures inside { IfSome result (λ at. at < zone.now.shape.base + zone.now.shape.limit) }
    ensures before { IfSome result (λ at. NoneBetween zone.now bytes.now from at) }
    ensures none { IfNone result ((end : ℕ) → NoneBetween zone.now bytes.now from end) }
{
    let spec = zone.spec();
    let end = spec.base() + spec.size();
    let mut at = from;
    while at < end {
        match past_block(zone, at) {
            Some(next) => at = next,
            None => {
                if has_nil_flags(zone, bytes, at) {
                    return Some(at);
                }
                at += 1;
            }
        }
    }
    None
}

/// Whether any address has such a byte.
pub(crate) fn has_any(zone: &LinkedZone, bytes: &[u8]) -> bool
    requires sound { Sound zone.now.shape zone.now.heap }
    requires long { length bytes.now ≡ zone.now.shape.limit }
    ensures { MatchBool result (NoNilFlags zone.now bytes.now → ⊥) (NoNilFlags zone.now bytes.now) }
{
    next_nil_flags(zone, bytes, zone.spec().base()).is_some()
}

/// Clears these bits.
pub(crate) fn clear(zone: &LinkedZone, bytes: &mut [u8])
    requires sound { Sound zone.now.shape zone.now.heap }
    requires long { length bytes.old ≡ zone.now.shape.limit }
    ensures { IsCleared zone.now bytes.old bytes.new }
{
    let base = zone.spec().base();
    let mut from = base;
    while let Some(at) = next_nil_flags(zone, bytes, from) {
        bytes[(at - base) as usize] = 0;
        from = at + 1;
    }
}
