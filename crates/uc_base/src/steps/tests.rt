//! Two ticks, at a ledger that the caller picks.
ghost use Rattle.std.specs.Prelude.{◌≡◌, ◌<◌};

use super::Steps;
use std::marker::Brand;
use std::sync::ledger::{Blank, Ledger};
use std::test::*;

// Two ticks of a new count, and how many steps the caller then knows of.
fn two_ticks<L: Ledger>(blank: Blank) -> u64
    requires name { blank.name ≡ L.name }
    requires parts { (blank.parts ≡ L.parts) × (0 < blank.parts) }
    ensures { result ≡ 2 }
{
    let mut steps: Steps<L> = Steps::start(blank);
    steps.tick();
    steps.tick();
    told(&steps)
}

// The number that the count stands at, where it is two.
fn told<L: Ledger>(steps: &Steps<L>) -> u64
    requires { steps.now ≡ 2 }
    ensures { result ≡ steps.now }
{
    let _ = steps;
    2
}

#[test]
fn counts_two_ticks(rt: HostRuntime) -> Result<(), Fail> {
    assert_eq!(rt; two_ticks::<Brand>(Blank::new(1)), 2);
    Ok(())
}
