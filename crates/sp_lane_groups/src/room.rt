//! Laws of the room of memories in lanes. Each function does nothing: what it ensures is the law.

ghost use Rattle.sp_core.specs.PlainCore.{PlainCore};
ghost use Rattle.sp_lane_groups.specs.RoomLaws.{CopiesHaveRoom, PlacesHaveRoom};

/// Each copy of a memory holds as many words as the memory, where memories have one owner at most and no combination owns one.
pub fn copies_have_room()
    ensures { (core : PlainCore) → CopiesHaveRoom core }
{}

/// At each place of a core what may be used there stands in lanes for a memory that holds as many words.
pub fn places_have_room()
    ensures { (core : PlainCore) → PlacesHaveRoom core }
{}
