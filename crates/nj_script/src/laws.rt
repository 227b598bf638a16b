//! A law of what is read, the contract of a function that does nothing.

ghost use Rattle.nj_script.specs.Script.{WhatIsReadIsInRange};

use nj_pad::a_text_shows_its_pad;

/// The numbers of each script that is read are in their ranges, and its pads are bytes.
pub fn what_is_read_is_in_range()
    ensures { WhatIsReadIsInRange }
{
    a_text_shows_its_pad();
}
