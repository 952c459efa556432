//! Laws of stores. The functions do nothing: what they ensure is the law.

ghost use Rattle.sp_lower.specs.StoresLaws.{StoresReadSrams, StoresStand, StoresAreOpen, StoresStay, SlicesAreOfUnits, SlicesStay, FillsDrive, ReservesAlone, DriveInTurn, DrivenBehind, WiresAreApart, TransfersAreHad};
ghost use Rattle.sp_load_units.specs.declared.unit.TransferUnit.{TransferUnit};
ghost use Rattle.std.specs.Prelude.{List};

use crate::loads_laws::loads_are_had;

/// The stores of a core read SRAMs.
pub fn stores_read_srams()
    ensures { StoresReadSrams }
{}

/// Where the units of a core's transfers stand those of its stores do.
pub fn stores_stand()
    ensures { StoresStand }
{}

/// The nets of the units of stores that are to be driven are open.
pub fn stores_are_open()
    ensures { StoresAreOpen }
{}

/// In a later draft in which these nets are open the units still stand.
pub fn stores_stay()
    ensures { StoresStay }
{}

/// What a tree hands on of its transfers are the slices of their units.
pub fn slices_are_of_units()
    ensures { SlicesAreOfUnits }
{}

/// Slices stand in a later draft.
pub fn slices_stay()
    ensures { SlicesStay }
{}

/// Nets may be driven and none reserved.
pub fn fills_drive()
    ensures { FillsDrive }
{}

/// Nets may be reserved and none driven.
pub fn reserves_alone()
    ensures { ReservesAlone }
{}

/// What two parts in turn drive and reserve, where the second one drives none that the first one reserved.
pub fn drive_in_turn()
    ensures { DriveInTurn }
{}

/// What was reserved is driven by a part behind, and is no open net.
pub fn driven_behind()
    ensures { DrivenBehind }
{}

/// The nets of the units of loads and those of stores are apart, and are all of the nets of units.
pub fn wires_are_apart()
    ensures { (units : List TransferUnit) → WiresAreApart units }
{}

/// A core's tree has its loads and its stores by what was emitted of them, each with the channel of its unit.
pub fn transfers_are_had()
    ensures { TransfersAreHad }
{
    loads_are_had();
}
