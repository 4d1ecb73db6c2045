//! The node at a place of the list, reached from the nearest of the front, the end and the finger.
ghost use Rattle.std.specs.Prelude.{◌≡◌, ◌⊎◌, ◌≤◌, ◌<◌, Some, None, IfNone, length};
ghost use Rattle.std.specs.Option.{option_map};
ghost use Rattle.lq_links.specs.State.{spot_at, IsOn, state_of, IsList, spots};

use lq_links::{Finger, Links, Spot, next, prev};

/// The spot at a place.
pub fn find<T>(links: &Links<T>, finger: Option<Finger>, at: usize) -> Option<Spot>
    requires list { IsList (state_of links.now) (spots (state_of links.now)) }
    requires on { IsOn (spots (state_of links.now)) finger }
    requires within { at < length (spots (state_of links.now)) }
    ensures { result ≡ spot_at (spots (state_of links.now)) at }
{
    match links.head {
        None => None,
        Some(head) => {
            let near = nearest(links, finger, head, at);
            if near.at <= at {
                walk_on(links, near, at)
            } else {
                walk_back(links, near, at)
            }
        }
    }
}

/// The nearest place whose node is known.
fn nearest<T>(links: &Links<T>, finger: Option<Finger>, head: Spot, at: usize) -> Finger
    requires list { IsList (state_of links.now) (spots (state_of links.now)) }
    requires on { IsOn (spots (state_of links.now)) finger }
    requires head { (state_of links.now).head ≡ Some head }
    ensures { IsOn (spots (state_of links.now)) (Some result) }
{
    let front = Finger { at: 0, spot: head };
    let end = finger_on(links.len.saturating_sub(1), links.tail);
    let side = nearer(end, front, at);
    nearer(finger, side, at)
}

fn nearer(one: Option<Finger>, other: Finger, at: usize) -> Finger
    ensures { (one ≡ Some result) ⊎ (result ≡ other) }
{
    match one {
        Some(one) if one.at.abs_diff(at) <= other.at.abs_diff(at) => one,
        _ => other,
    }
}

fn walk_on<T>(links: &Links<T>, from: Finger, to: usize) -> Option<Spot>
    requires list { IsList (state_of links.now) (spots (state_of links.now)) }
    requires on { IsOn (spots (state_of links.now)) (Some from) }
    requires ahead { from.at ≤ to }
    requires within { to < length (spots (state_of links.now)) }
    ensures { result ≡ spot_at (spots (state_of links.now)) to }
{
    let mut cur = Some(from.spot);
    for _ in from.at..to {
        let spot = match cur {
            Some(spot) => spot,
            None => return None,
        };
        cur = next(&links.arena, spot);
    }
    cur
}

fn walk_back<T>(links: &Links<T>, from: Finger, to: usize) -> Option<Spot>
    requires list { IsList (state_of links.now) (spots (state_of links.now)) }
    requires on { IsOn (spots (state_of links.now)) (Some from) }
    requires behind { to ≤ from.at }
    ensures { result ≡ spot_at (spots (state_of links.now)) to }
{
    let mut cur = Some(from.spot);
    for _ in to..from.at {
        let spot = match cur {
            Some(spot) => spot,
            None => return None,
        };
        cur = prev(&links.arena, spot);
    }
    cur
}

/// The finger on a spot, where there is one.
pub fn finger_on(at: usize, spot: Option<Spot>) -> Option<Finger>
    ensures { result ≡ option_map (λ s. record { at = at; spot = s }) spot }
{
    spot.map(|spot| Finger { at, spot })
}
