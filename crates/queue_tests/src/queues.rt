ghost use Rattle.std.specs.Prelude.{◌≡◌};

use crate::asked::Asked;
use cc_base::{Cells, Memory};
use std::alloc::Global;
use std::rt::HostRuntime;
use std::test::Fail;

/// Asks a call with these two cells.
fn ask(
    asked: &mut Asked,
    alloc: Global,
    target: u32,
    trans: u32,
    cells: (i64, i64),
) -> Result<(), Memory> {
    let mut args = Cells::new(alloc);
    args.push(cells.0)?;
    args.push(cells.1)?;
    asked.ask(target, trans, args);
    Ok(())
}

/// Takes the call out, and gives its two cells.
fn take(asked: &mut Asked, number: u32) -> Option<(i64, i64)> {
    let args = asked.take(number)?;
    if args.len() != 2 {
        return None;
    }
    Some((args.get(0)?, args.get(1)?))
}

fn best(asked: &Asked, alloc: Global, target: u32, trans: u32) -> Option<u32> {
    asked.best(&Cells::new(alloc), target, trans)
}

/// Three calls of one transaction at one process, of which the last two have equal ranks.
fn three_calls(alloc: Global) -> Result<Asked, Memory> {
    let mut asked = Asked::new(alloc, 3)?;
    ask(&mut asked, alloc, 1, 1, (5, 97))?;
    ask(&mut asked, alloc, 1, 1, (3, 98))?;
    ask(&mut asked, alloc, 1, 1, (3, 99))?;
    Ok(asked)
}

/// Five calls of each of two transactions at each of two targets, by rising rank, in room for ten more.
fn twenty_calls(alloc: Global) -> Result<Asked, Memory> {
    let mut asked = Asked::new(alloc, 30)?;
    for target in 0..2 {
        for trans in 0..2 {
            for cell in 0..5 {
                ask(&mut asked, alloc, target, trans, (cell, cell))?;
            }
        }
    }
    Ok(asked)
}

#[test]
fn the_least_rank_is_taken_and_the_earlier_on_a_tie(rt: HostRuntime) -> Result<(), Fail> {
    let alloc = rt.alloc();
    let mut asked = three_calls(alloc)?;
    assert_eq!(rt; best(&asked, alloc, 1, 1), Some(1));
    assert_eq!(rt; take(&mut asked, 1), Some((3, 98)));
    assert_eq!(rt; best(&asked, alloc, 1, 1), Some(2));
    assert_eq!(rt; take(&mut asked, 1), None);
    Ok(())
}

#[test]
fn the_calls_of_one_target_are_dropped(rt: HostRuntime) -> Result<(), Fail> {
    let alloc = rt.alloc();
    let mut asked = three_calls(alloc)?;
    asked.drop_all(2);
    assert_eq!(rt; best(&asked, alloc, 1, 1), Some(1));
    asked.drop_all(1);
    assert_eq!(rt; best(&asked, alloc, 1, 1), None);
    assert_eq!(rt; take(&mut asked, 0), None);
    assert_eq!(rt; take(&mut asked, 1), None);
    assert_eq!(rt; take(&mut asked, 2), None);
    Ok(())
}

#[test]
fn a_drop_at_another_target_leaves_the_list(rt: HostRuntime) -> Result<(), Fail> {
    let alloc = rt.alloc();
    let mut asked = three_calls(alloc)?;
    asked.drop_all(2);
    assert_eq!(rt; take(&mut asked, 0), Some((5, 97)));
    assert_eq!(rt; take(&mut asked, 1), Some((3, 98)));
    assert_eq!(rt; take(&mut asked, 2), Some((3, 99)));
    Ok(())
}

#[test]
fn calls_are_taken_from_any_place_of_a_chain(rt: HostRuntime) -> Result<(), Fail> {
    let alloc = rt.alloc();
    let mut asked = twenty_calls(alloc)?;
    assert_eq!(rt; best(&asked, alloc, 1, 1), Some(15));
    assert_eq!(rt; take(&mut asked, 15), Some((0, 0)));
    assert_eq!(rt; take(&mut asked, 17), Some((2, 2)));
    assert_eq!(rt; take(&mut asked, 19), Some((4, 4)));
    assert_eq!(rt; best(&asked, alloc, 1, 1), Some(16));
    assert_eq!(rt; take(&mut asked, 16), Some((1, 1)));
    assert_eq!(rt; best(&asked, alloc, 1, 1), Some(18));
    Ok(())
}

#[test]
fn a_slot_is_used_again(rt: HostRuntime) -> Result<(), Fail> {
    let alloc = rt.alloc();
    let mut asked = twenty_calls(alloc)?;
    assert_eq!(rt; take(&mut asked, 17), Some((2, 2)));
    ask(&mut asked, alloc, 1, 1, (0, 9))?;
    assert_eq!(rt; best(&asked, alloc, 1, 1), Some(15));
    assert_eq!(rt; take(&mut asked, 15), Some((0, 0)));
    assert_eq!(rt; best(&asked, alloc, 1, 1), Some(20));
    assert_eq!(rt; take(&mut asked, 20), Some((0, 9)));
    assert_eq!(rt; best(&asked, alloc, 1, 1), Some(16));
    Ok(())
}

#[test]
fn an_emptied_chain_is_used_anew(rt: HostRuntime) -> Result<(), Fail> {
    let alloc = rt.alloc();
    let mut asked = twenty_calls(alloc)?;
    asked.drop_all(1);
    assert_eq!(rt; best(&asked, alloc, 1, 0), None);
    assert_eq!(rt; best(&asked, alloc, 1, 1), None);
    assert_eq!(rt; best(&asked, alloc, 0, 0), Some(0));
    assert_eq!(rt; best(&asked, alloc, 0, 1), Some(5));
    ask(&mut asked, alloc, 1, 1, (7, 7))?;
    assert_eq!(rt; best(&asked, alloc, 1, 1), Some(20));
    assert_eq!(rt; best(&asked, alloc, 1, 0), None);
    assert_eq!(rt; take(&mut asked, 20), Some((7, 7)));
    assert_eq!(rt; best(&asked, alloc, 1, 1), None);
    Ok(())
}
