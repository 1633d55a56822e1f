// What no contract says, since each says what one step read: that a pass comes into an open gate, and that
// the gate then drains; and threads that go in and out meanwhile.
ghost use Rattle.std.specs.Prelude.{IsNone};

use cs_gate::{Entered, Gate, Keeper, KeeperState, Pass, Probe};
use std::test::Fail;
use std::thread;

const TRIES: u32 = 1000;

const TURNS: u32 = 3000;

#[test]
fn a_pass_goes_through_a_gate(rt: HostRuntime) -> Result<(), Fail> {
    let (mut keeper, mut passes) = Gate::make(rt.alloc(), 1, 0)?;
    assert_eq!(rt; passes.len(), 1);
    assert_eq!(rt; passes[0].inside(), None);
    let pass = &mut passes[0];
    let entered = pass.enter();
    assert_eq!(rt; entered, Entered::Shut { generation: 0 });
    keeper.reopen(1);
    let entered = pass.enter();
    assert_eq!(rt; entered, Entered::Inside { generation: 1 });
    keeper.shut();
    let found = keeper.probe();
    assert_eq!(rt; found, Probe::Occupied { count: 1 });
    pass.leave();
    let found = keeper.probe();
    assert_eq!(rt; found, Probe::Drained);
    assert_eq!(rt; keeper.state(), KeeperState::Drained(1));
    Ok(())
}

// Tries once to go in, and goes out again.
fn try_once(pass: &mut Pass) -> Entered
    requires { IsNone pass.old.inside }
    ensures { IsNone pass.new.inside }
{
    let entered = pass.enter();
    if let Entered::Inside { generation: _ } = entered {
        pass.leave();
    }
    entered
}

// Tries many times, and counts the tries. No try finds an earlier generation than one before it.
fn try_often(mut pass: Pass) -> (Pass, u32) {
    let mut last = 0;
    for tried in 0..TRIES {
        if pass.inside().is_some() {
            return (pass, tried);
        }
        let (Entered::Inside { generation } | Entered::Shut { generation }) = try_once(&mut pass);
        if generation < last {
            return (pass, tried);
        }
        last = generation;
    }
    (pass, TRIES)
}

// Shuts the gate where it is open, probes it where it is shut, and reopens it where it was found drained.
fn turn(keeper: &mut Keeper) {
    match keeper.state() {
        KeeperState::Open(_) => keeper.shut(),
        KeeperState::Shut(_) => {
            keeper.probe();
        }
        KeeperState::Drained(generation) => {
            if generation < TURNS {
                keeper.reopen(generation + 1);
            }
        }
    }
}

// Shuts the gate where it is open, and probes it.
fn look(keeper: &mut Keeper) -> Probe {
    match keeper.state() {
        KeeperState::Open(_) => {
            keeper.shut();
            keeper.probe()
        }
        KeeperState::Shut(_) | KeeperState::Drained(_) => keeper.probe(),
    }
}

#[test]
fn four_threads_go_through_a_gate(rt: HostRuntime) -> Result<(), Fail> {
    let (mut keeper, passes) = Gate::make(rt.alloc(), 4, 0)?;
    let mut children = Vec::new(rt.alloc());
    for pass in passes {
        children.push(thread::spawn(&rt, move || try_often(pass))?)?;
    }
    for _ in 0..TURNS {
        turn(&mut keeper);
        thread::yield_now();
    }
    let mut tries = 0u64;
    for child in children {
        let (pass, tried) = child.join(&rt);
        assert_eq!(rt; tried, TRIES);
        assert_eq!(rt; pass.inside(), None);
        tries = tries.wrapping_add(u64::from(tried));
    }
    let found = look(&mut keeper);
    assert_eq!(rt; found, Probe::Drained);
    println!(rt; "{tries} tries, then {found:?}")?;
    Ok(())
}
