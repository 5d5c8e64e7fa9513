//! A hub of sessions that send back what they hear, and are over after a full stop.

use crate::{Came, End, Hub, Limits, Session, Stand};
use std::alloc::Global;
use std::test::Fail;

#[derive(Drop)]
struct Echo {
    heard: usize,
}

impl Session for Echo {
    ghost use Rattle.std.specs.Prelude.{◌≡◌, ◌++◌, ℕ, List};

    ghost takes = { λ _ bytes _ given _. (left : List ℕ) × (bytes ≡ given ++ left) };

    fn take(&mut self, _alloc: Global, bytes: &[u8], due: &mut Vec<u8>) -> Came {
        if due.extend_from_slice(bytes).is_err() {
            return Came::Over;
        }
        self.heard = self.heard.saturating_add(bytes.len());
        if bytes.contains(&b'.') {
            Came::Over
        } else {
            Came::More
        }
    }
}

const LIMITS: Limits = Limits {
    patience: 100,
    most_heard: 20,
    most_due: 10,
};

/// A hub with two terminals, at the tokens 0 and 1.
fn two(alloc: Global) -> Result<Hub<Echo>, Fail> {
    let mut hub = Hub::new(alloc, LIMITS);
    hub.open(0, Echo { heard: 0 }, Vec::new(alloc))?;
    hub.open(0, Echo { heard: 0 }, Vec::new(alloc))?;
    Ok(hub)
}

#[test]
fn each_gets_its_own(rt: HostRuntime) -> Result<(), Fail> {
    let alloc = rt.alloc();
    let mut hub = two(alloc)?;
    hub.hear(alloc, 0, 1, b"one");
    hub.hear(alloc, 1, 2, b"two.");
    hub.hear(alloc, 7, 2, b"nobody");
    assert_eq!(rt; hub.due(0), b"one".as_slice());
    assert_eq!(rt; hub.due(1), b"two.".as_slice());
    assert_eq!(rt; hub.due(7), b"".as_slice());
    hub.send(0, 2);
    assert_eq!(rt; hub.due(0), b"e".as_slice());
    assert_eq!(rt; hub.stand(0), Some(Stand::Goes));
    assert_eq!(rt; hub.stand(1), Some(Stand::Drains));
    hub.send(1, 4);
    assert_eq!(rt; hub.stand(1), Some(Stand::Ended(End::Over)));
    assert!(rt; hub.leave(0).is_none());
    let ended = hub.leave(1).ok_or("it left")?;
    assert_eq!(rt; ended.number, 2);
    assert_eq!(rt; ended.session.heard, 4);
    assert_eq!(rt; hub.stand(1), None);
    assert_eq!(rt; hub.came(), 2);
    if hub.came() < 9 {
        assert_eq!(rt; hub.open(3, Echo { heard: 0 }, Vec::new(alloc))?, 1);
    }
    Ok(())
}

/// How the terminals 0 and 1 stand.
fn stands(hub: &Hub<Echo>) -> (Option<Stand>, Option<Stand>) {
    (hub.stand(0), hub.stand(1))
}

#[test]
fn limits_hold(rt: HostRuntime) -> Result<(), Fail> {
    let alloc = rt.alloc();
    let mut hub = two(alloc)?;
    hub.hear(alloc, 0, 50, b"0123456789");
    hub.tick(100);
    let idle = Some(Stand::Ended(End::Idle));
    assert_eq!(rt; stands(&hub), (Some(Stand::Goes), idle));
    hub.hear(alloc, 0, 60, b"0");
    assert_eq!(rt; stands(&hub), (Some(Stand::Ended(End::Slow)), idle));
    let mut hub = two(alloc)?;
    for _ in 0..3 {
        hub.hear(alloc, 0, 50, b"0123456");
        hub.send(0, 7);
    }
    hub.hear(alloc, 1, 50, b"01");
    hub.close(1);
    let flooded = Some(Stand::Ended(End::Flooded));
    assert_eq!(rt; stands(&hub), (flooded, Some(Stand::Ended(End::Closed))));
    let mut hub = two(alloc)?;
    hub.hear(alloc, 0, 50, b"01.");
    hub.close(0);
    hub.break_off(1);
    let broken = Some(Stand::Ended(End::Broken));
    assert_eq!(rt; stands(&hub), (Some(Stand::Drains), broken));
    hub.break_off(0);
    assert_eq!(rt; stands(&hub), (broken, broken));
    Ok(())
}
