//! Laws of listings. A law is a function whose contract is the law, and whose body is empty.
ghost use Rattle.sp_listing.specs.Laws.{HasOneReading, BreaksNowhere, BreaksAtOneLine, ReadsBack};

use sp_netlist::refusals_exact;

/// A text is the listing of at most one list of cells.
pub fn listing_has_one_reading()
    ensures { HasOneReading }
{}

/// A text that is the listing of cells that obey the rules on lines breaks none of them.
pub fn listing_breaks_nowhere()
    ensures { BreaksNowhere }
{}

/// What is written of a netlist within the limits is read as that netlist, or refused for want of memory; and a text
/// that is read is what is written of its netlist.
pub fn netlist_reads_back()
    ensures { ReadsBack }
{
    refusals_exact();
}

/// A text breaks the rules on lines first at one line.
pub fn text_breaks_at_one_line()
    ensures { BreaksAtOneLine }
{}
