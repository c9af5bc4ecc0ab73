//! The actions of a valid module are orderly, so all orders of its transfers agree with its prompt meaning.
//!
//! The crate stands on `order_meaning`, and on the laws of valid modules.
#![tactic(auto)]

ghost use Rattle.order_laws.specs.Instance.{TwiceOut};
ghost use Rattle.order_laws.specs.Law.{ValidIsOrderly, ValidOrdersAgree};

/// From every memory that fits a valid module: an allocation isn't allocated when it runs, a started transfer lies
/// within an allocated half and within slow memory, its places are distinct, and its tag is released behind it.
pub fn valid_is_orderly()
    ensures { ValidIsOrderly }
{}

/// From every memory that fits a valid module, for every filler, capacity and number of engines from 1 on: each run of
/// its machine goes on to a maximal one and agrees with the prompt meaning; where that ends, so does each maximal run,
/// with the same slow memory, after as many steps as the prompt meaning counts; where it stops at a fault, so does each
/// maximal run.
pub fn valid_orders_agree()
    ensures { ValidOrdersAgree }
{}

/// A valid module with a transfer in a loop, and a memory that fits it: all its orders agree.
pub fn twice_out_agrees()
    ensures { TwiceOut }
{}
