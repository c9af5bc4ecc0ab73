//! A module's transfers under every order of the engines' steps.
//!
//! `Machine` runs a module beside engines, a step at a time: the walk over its actions, the memory of `order_memory`, and
//! which steps are enabled. `run_order` chooses the steps by numbers, and
//! `run_policy` as a tester says. `all_orders_agree` is the law of all orders for
//! one module and one memory: what any run of its machine comes to, whatever engine makes the next step. The machine,
//! its runs and the agreement are `order_meaning`'s. A step looks at what is outstanding alone, so idle tags cost nothing.
#![tactic(auto)]

ghost use Rattle.std.specs.Prelude.{◌≤◌};
ghost use Rattle.direct_meaning.specs.Memory.{Fits, module_actions};
ghost use Rattle.order_meaning.specs.Law.{OrdersAgree};

mod machine;
mod orders;
mod policies;

use affine_ast::{Image, Verified};
pub use machine::{Machine, NotEnabled};
pub use orders::{Ordered, run_order};
pub use policies::{Halted, Policy, run_policy};

/// Each run of the machine of a module, from a memory that fits it, agrees in each state with the prompt meaning after
/// as many actions, and goes on to a run after which no step is enabled. Where the prompt meaning ends, each such run
/// ends with its slow memory, after its actions and engine steps; where it stops at a fault, each such run stops at
/// that fault, after at most as many.
pub fn all_orders_agree(module: &Verified, image: &Image, filler: i64, capacity: u64, engines: u32)
    requires fits { Fits «module».now.inner image.now }
    requires some_engine { 1 ≤ engines }
    ensures { OrdersAgree filler capacity (module_actions «module».now.inner image.now.symbols) image.now engines }
{
    let _module = module.module();
}
