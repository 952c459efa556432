//! Laws of combinations of elements. Each function does nothing: what it ensures is the law.

ghost use Rattle.sp_core.specs.PlainCore.{PlainCore};
ghost use Rattle.sp_lane_trees.specs.ElementsCells.{ElementsExchange};
ghost use Rattle.sp_lane_trees.specs.ElementsLaws.{ElementsGo};

use sp_fitting::{lists_fit, nodes_fit, stores_fit};
use sp_lane_groups::places_have_room;
use sp_words::{operators_associate, operators_give_words};

/// Words of lanes that are combined into elements at different places leave the same, lane by lane or element by element.
pub fn elements_exchange()
    ensures { ElementsExchange }
{}

/// A controller whose body has stages and several lanes, and whose last stage combines the elements of a memory, does in lanes what it
/// does in the core, where its other stages do in each lane.
pub fn elements_go()
    ensures { (core : PlainCore) → ElementsGo core }
{
    lists_fit();
    nodes_fit();
    stores_fit();
    places_have_room();
    operators_associate();
    operators_give_words();
}
