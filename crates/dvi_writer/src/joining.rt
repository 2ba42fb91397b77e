//! How pages join, and what the end makes of them.

ghost use Rattle.dvi_writer.specs.Joining.{PagesJoin, PagesBreakOff, FilesEnd};

use box_marks::laws::all_glyphs_are_marked;
use dvi_code::laws::{
    bodies_lead_on, bytes_lead_on, commands_draw, commands_draw_on, commands_lead, sheets_grow,
    the_last_is_placed,
};
use dvi_commands::laws::bytes_say_commands;

/// A page joins those before it.
pub(crate) fn pages_join()
    ensures { PagesJoin }
{
    commands_lead();
    bytes_lead_on();
    bodies_lead_on();
    commands_draw();
    commands_draw_on();
    bytes_say_commands();
    all_glyphs_are_marked();
}

/// Where a page breaks off, the whole pages are those before it.
pub(crate) fn pages_break_off()
    ensures { PagesBreakOff }
{
    commands_lead();
    bytes_lead_on();
    bodies_lead_on();
    bytes_say_commands();
    sheets_grow();
    all_glyphs_are_marked();
}

/// The end makes a file of the pages.
pub(crate) fn files_end()
    ensures { FilesEnd }
{
    commands_lead();
    bytes_lead_on();
    the_last_is_placed();
    bytes_say_commands();
}
