//! Laws of units. A law is a function whose contract is the law, and which does nothing but call the laws that it uses.

ghost use Rattle.sp_load_units.specs.Laws.{DramsStand, UnitsAreOpen, UnitsStay};

use sp_channels::channel_laws;

/// Behind arguments the DRAMs of a core stand.
pub fn drams_stand()
    ensures { DramsStand }
{}

/// The nets of units that are to be driven are open.
pub fn units_are_open()
    ensures { UnitsAreOpen }
{}

/// Units that stand still do in a later draft in which these nets are open.
pub fn units_stay()
    ensures { UnitsStay }
{
    channel_laws();
}
