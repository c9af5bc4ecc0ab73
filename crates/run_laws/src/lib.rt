//! Laws of the runs of a valid module: an executor with registers and slow cells can make them, values fit their types, the memory
//! fits the module again behind them, numbers stay in their intervals, and names are bound once.
//!
//! The walk, the regions and the templates cite them. The crate stands on `valid_laws` and `direct_meaning`.
#![tactic(auto)]

ghost use Rattle.run_laws.specs.BindsOnce.{ValidBindsOnce};
ghost use Rattle.run_laws.specs.CanRun.{ValidCanRun};
ghost use Rattle.run_laws.specs.FitsTypes.{ValidFitsTypes};
ghost use Rattle.run_laws.specs.StaysFitting.{ValidStaysFitting};
ghost use Rattle.run_laws.specs.StaysWithin.{ValidStaysWithin};

/// The direct run of a valid module without allocations, deallocs, starts and waits, from every memory that fits it, is one that an
/// executor with registers and slow cells alone can make: places lie in the slow memory, operands fit the widths of their operations,
/// and a register is read only behind the action that sets it.
pub fn valid_can_run()
    ensures { ValidCanRun }
{}

/// In such a run every constant, and every value that is loaded, stored or operated on, lies in the signed range of its type.
pub fn valid_fits_types()
    ensures { ValidFitsTypes }
{}

/// Behind such a run, at its end or at its fault, the memory fits the module again.
pub fn valid_stays_fitting()
    ensures { ValidStaysFitting }
{}

/// From every memory that fits a valid module, wherever the list of its actions is made, each name with a number has it in its
/// interval, and the values of all expressions and of their parts lie within 2^62.
pub fn valid_stays_within()
    ensures { ValidStaysWithin }
{}

/// From every memory that fits a valid module, wherever the list of its actions is made, a statement binds a name that isn't in scope
/// and stands for no number and no memref yet.
pub fn valid_binds_once()
    ensures { ValidBindsOnce }
{}
