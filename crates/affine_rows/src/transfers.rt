// Halves, transfers, and a bus with one engine.
ghost use Rattle.std.specs.Prelude.{length, IsTrue};
ghost use Rattle.affine_rows.specs.Carried.{may_carry};

use bus_model::{BusState, Step, Transfer, meets};
use dma_engine::serve_one;
use fast_halves::{Away, Halves};
use std::alloc::{AllocError, Global};
use std::test::Fail;
use tag_table::{Bus, NotReady, Parcel};

const PLAIN: Transfer = Transfer {
    incoming: true,
    tag: 0,
    memref: 0,
    base: 1,
    stride: 1,
    chunk: 1,
    count: 2,
    fast: 0,
    half: 0,
    offset: 1,
};

#[test]
fn a_lent_half_is_away_until_it_is_accepted(rt: HostRuntime) -> Result<(), Fail> {
    let mut halves = Halves::new(rt.alloc(), 2, 4, -7)?;
    assert!(rt; halves.write(0, 2, 5).is_ok());
    let Ok(cells) = halves.lend(0, 3) else {
        panic!(rt; "not lent")
    };
    assert!(rt; matches!(halves.read(0, 2), Err(Away { tag: 3 })));
    assert!(rt; matches!(halves.write(0, 2, 6), Err(Away { tag: 3 })));
    assert!(rt; matches!(halves.lend(0, 1), Err(Away { tag: 3 })));
    assert!(rt; matches!(halves.read(1, 2), Ok(-7)));
    halves.accept(0, cells);
    assert!(rt; matches!(halves.read(0, 2), Ok(5)));
    halves.refill(9);
    assert!(rt; matches!(halves.read(0, 2), Ok(9)));
    Ok(())
}

#[test]
fn places_and_steps(rt: HostRuntime) -> Result<(), Fail> {
    let strided = Transfer {
        base: 3,
        stride: 5,
        chunk: 2,
        count: 6,
        ..PLAIN
    };
    assert!(rt; meets(&strided, 9));
    assert!(rt; !meets(&strided, 10));
    assert_eq!(rt; strided.slow(5), 14);
    let transfers = vec![in rt.alloc(); (PLAIN, 0, None), (strided, 6, Some(1))]?;
    let state = BusState { transfers };
    assert!(rt; state.legal(Step::Take { engine: 0, tag: 0 }));
    assert!(rt; !state.legal(Step::Take { engine: 1, tag: 0 }));
    assert!(rt; !state.legal(Step::Move { engine: 1 }));
    assert!(rt; state.legal(Step::Finish { engine: 1 }));
    assert!(rt; !state.legal(Step::Compute));
    Ok(())
}

#[test]
fn a_free_tag_is_not_ready(rt: HostRuntime) -> Result<(), Fail> {
    let (bus, compute, mut engines) = Bus::new(rt.alloc(), &[5, 6], 1, 1)?;
    assert!(rt; matches!(bus.try_take(&mut engines[0], 0), Err(NotReady { word: 0 })));
    let mut memory = [0; 2];
    bus.close(compute, engines, &mut memory);
    assert_eq!(rt; memory, [5, 6]);
    Ok(())
}

// A start, a collect that comes too early, an engine's service, a collect and the memory at the end: the cells and the
// memory. None where one of the four didn't answer as it should.
fn carried(
    alloc: Global,
    words: &[i64],
    transfer: Transfer,
    cells: Vec<i64>,
) -> Result<Option<(Vec<i64>, Vec<i64>)>, AllocError>
    requires { IsTrue (may_carry (length words.now) transfer (length cells.items)) }
{
    let mut memory = words.to_vec(alloc)?;
    let (bus, mut compute, mut engines) = Bus::new(alloc, words, 1, 1)?;
    let parcel = Parcel {
        transfer,
        cells,
        moved: 0,
    };
    bus.start(&mut compute, 0, parcel);
    let Err(_) = bus.try_collect(&mut compute, 0) else {
        return Ok(None);
    };
    if !serve_one(&bus, &mut engines[0]) {
        return Ok(None);
    }
    let Ok(parcel) = bus.try_collect(&mut compute, 0) else {
        return Ok(None);
    };
    bus.close(compute, engines, memory.as_mut_slice());
    Ok(Some((parcel.cells, memory)))
}

#[test]
#[tactic(auto, unfolding(bus_model::specs::Places::slow_place))]
fn transfers_carry_in(rt: HostRuntime) -> Result<(), Fail> {
    let words = [10, 11, 12, 13, 14, 15, 16, 17];
    let cells = Vec::from_elem(rt.alloc(), 0i64, 6)?;
    let strided = Transfer {
        base: 1,
        stride: 4,
        chunk: 2,
        count: 4,
        ..PLAIN
    };
    let Some((cells, memory)) = carried(rt.alloc(), &words, strided, cells)? else {
        panic!(rt; "not carried")
    };
    assert_eq!(rt; cells.as_slice(), [0, 11, 12, 15, 16, 0].as_slice());
    assert_eq!(rt; memory.as_slice(), words.as_slice());
    Ok(())
}

#[test]
#[tactic(auto, unfolding(bus_model::specs::Places::slow_place))]
fn transfers_carry_out(rt: HostRuntime) -> Result<(), Fail> {
    let words = [10, 11, 12, 13, 14, 15, 16, 17];
    let cells = vec![in rt.alloc(); 1, 2, 3, 4]?;
    let strided = Transfer {
        incoming: false,
        base: 0,
        stride: 3,
        chunk: 1,
        count: 3,
        ..PLAIN
    };
    let Some((cells, memory)) = carried(rt.alloc(), &words, strided, cells)? else {
        panic!(rt; "not carried")
    };
    assert_eq!(rt; cells.as_slice(), [1, 2, 3, 4].as_slice());
    assert_eq!(rt; memory.as_slice(), [2, 11, 12, 3, 14, 15, 4, 17].as_slice());
    Ok(())
}
