//! The picture that catches up: dots stay pending until something asks what they did, and then many of them are run as
//! one. For every list of calls it answers as the picture that runs each dot at once.
//!
//! The main idea is that few dots do much. *Pending* dots are those that were asked for and not yet run: the picture's
//! meaning is the kept one after them. They stay pending in a *lull*, before the next dot that changes the vertical
//! blank flag (an event), so the NMI line is known without running them. Dots before an event are *calm*: they leave
//! all registers and memories but the position, v, the shift register, the OAM address, the row of sprite zero and the
//! two flags of sprites. A read of $2002 leaves them pending where it is *steady*: none of them raises such a flag.
//! When they are run, *idle* dots of a line move the position alone, so a run of them is one step, and *blank* ones do
//! so over many lines; *quiet* dots are those of visible pixels none of which can be a hit, so of many tiles the last
//! two alone are fetched; of *plain* lines, which have no row of sprite zero and no ninth sprite, nothing is left but
//! Y, so many of them are one step; a whole line with a row of sprite zero is one step with one search for the first
//! hit; each other dot is run by itself. Each step is one equation with the definition of single dots.
//!
//! Read first `IsLull` (specs/Limit.antt: what is kept beside the pending dots), then `IsSteady` and `IsAway`
//! (specs/Steady.antt), `is_idle` (specs/Idle.antt), `IsBlank` (specs/Place.antt), `IsQuiet` (specs/Tiles.antt) and
//! `IsPlain` (specs/Skip.antt).
#![tactic(auto)]

mod advance;
mod blank;
mod ending;
mod fixed;
mod idle;
mod line;
mod lull;
mod place;
mod skip;
mod sprites;
mod steady;
mod visible;

ghost use Rattle.std.specs.Prelude.{◌≡◌, ◌<◌, ℕ, List, true, false, length};
ghost use Rattle.nj_dots.specs.Screen.{IsScreen, power_on};
ghost use Rattle.nj_dots.specs.Dots.{after_dots};
ghost use Rattle.nj_catchup.specs.Limit.{pending_of, IsLull};
ghost use Rattle.nj_catchup.specs.Steady.{IsSteady};
ghost use Rattle.nj_catchup.specs.Fixed.{IsFixed};

use crate::advance::advance;
use crate::fixed::{steady_dots, was_read};
use crate::lull::Lull;
use crate::place::position_ahead;
use crate::steady::is_steady;
pub use fixed::FixedStatus;
use nj_dots::Screen;
use nj_dots::laws::sprite_overflow_is_timed;
pub use nj_dots::{Picture, Position};

/// A picture with dots pending: fewer than there are up to the next change of the vertical blank flag, and none once an
/// end is marked. The lull says how many more may be, so that a run of a few dots is one comparison and one difference.
#[derive(Drop)]
pub struct CatchUp {
    // The picture before its pending dots.
    screen: Screen,
    // What is kept of it: the dots that are pending and may be, and the NMI line.
    lull: Lull,
    ghost fits: { IsScreen screen },
    ghost lulls: { IsLull lull screen },
}

impl CatchUp {
    /// The picture at power-on, line 0 dot 0, for a cartridge of vertical or horizontal mirroring.
    pub fn new(vertical: bool) -> CatchUp
        ensures { (p : List ℕ) → ⟦<CatchUp as Picture>⟧.meaning result p ≡ power_on vertical }
    {
        let screen = Screen::power_on(vertical);
        let lull = Lull::of(&screen);
        CatchUp { screen, lull }
    }

    // The register is $2002, and no pending dot changes what a read of it does.
    fn is_steady(&self, reg: u8) -> bool
        ensures status { result ≡ true → reg ≡ 2 }
        ensures steady { (p : List ℕ) → result ≡ true → IsSteady (pending_of self.now.lull) p self.now.screen }
    {
        reg == 2 && is_steady(&self.screen, self.lull.pending())
    }

    // For how many dots reads of $2002 answer the latch, and change nothing.
    fn fixed_dots(&self) -> u32
        ensures { (p : List ℕ) → IsFixed self.now.screen.latch result p (⟦<CatchUp as Picture>⟧.meaning self.now p) }
    {
        sprite_overflow_is_timed();
        if !was_read(&self.screen) {
            return 0;
        }
        steady_dots(&self.screen).saturating_sub(self.lull.pending())
    }

    /// What reads of $2002 answer, for how many dots, while they change nothing. No dots where that is not known.
    pub fn fixed_status(&self) -> FixedStatus
        ensures { (p : List ℕ) → IsFixed result.status result.dots p (⟦<CatchUp as Picture>⟧.meaning self.now p) }
    {
        FixedStatus {
            status: self.screen.latch,
            dots: self.fixed_dots(),
        }
    }

    // Runs the pending dots.
    fn catch_up(&mut self, pattern: &[u8])
        requires { length pattern.now ≡ 8192 }
        ensures pending { pending_of self.new.lull ≡ 0 }
        ensures screen { self.new.screen ≡ after_dots (pending_of self.old.lull) pattern.now self.old.screen }
    {
        let pending = self.lull.pending();
        advance(&mut self.screen, pending, pattern);
        self.lull.limit = self.lull.spare;
    }

    // Runs the pending dots and so many more.
    #[cold]
    #[inline(never)]
    fn run_all(&mut self, dots: u32, pattern: &[u8])
        requires { length pattern.now ≡ 8192 }
        ensures pending { pending_of self.new.lull ≡ 0 }
        ensures screen { self.new.screen
            ≡ after_dots dots pattern.now (after_dots (pending_of self.old.lull) pattern.now self.old.screen) }
    {
        self.catch_up(pattern);
        advance(&mut self.screen, dots, pattern);
        self.lull = Lull::of(&self.screen);
    }

    // Takes the mark of an end.
    #[cold]
    #[inline(never)]
    fn take_mark(&mut self)
        requires { self.old.screen.ended ≡ true }
        ensures pending { pending_of self.new.lull ≡ 0 }
        ensures screen { self.new.screen ≡ record self.old.screen { ended = false } }
    {
        self.screen.ended = false;
        self.lull = Lull::of(&self.screen);
    }
}

impl Picture for CatchUp {
    ghost use Rattle.nj_dots.specs.Dots.{after_dots};
    ghost use Rattle.nj_dots.proofs.Kept.{after_dots-fits};
    ghost use Rattle.nj_catchup.specs.Limit.{pending_of};

    ghost meaning = { λ s p. after_dots (pending_of s.lull) p s.screen };

    ghost settled = { λ s. pending_of s.lull ≡ 0 };

    fn power_on(vertical: bool) -> CatchUp {
        CatchUp::new(vertical)
    }

    fn run(&mut self, dots: u32, pattern: &[u8]) {
        if self.defer(dots) {
            self.run_all(dots, pattern);
        }
    }

    #[inline(always)]
    fn defer(&mut self, dots: u32) -> bool {
        let past = self.lull.spare < dots;
        self.lull.spare = self.lull.spare.wrapping_sub(dots);
        if past {
            self.lull.give_back(dots);
            return true;
        }
        false
    }

    fn read(&mut self, reg: u8, pattern: &[u8]) -> u8 {
        if self.is_steady(reg) {
            let byte = self.screen.read(reg, pattern);
            self.lull.line = self.screen.nmi_line();
            return byte;
        }
        self.catch_up(pattern);
        let byte = self.screen.read(reg, pattern);
        self.lull = Lull::of(&self.screen);
        byte
    }

    fn write(&mut self, reg: u8, value: u8, pattern: &[u8]) -> Option<(u16, u8)> {
        self.catch_up(pattern);
        let left = self.screen.write(reg, value);
        self.lull = Lull::of(&self.screen);
        left
    }

    #[inline(always)]
    fn nmi_line(&self) -> bool {
        self.lull.line
    }

    #[inline(always)]
    fn has_ended(&self) -> bool {
        self.screen.ended
    }

    fn take_end(&mut self) -> bool {
        let ended = self.screen.ended;
        if ended {
            self.take_mark();
        }
        ended
    }

    fn position(&self) -> Position {
        position_ahead(&self.screen, self.lull.pending())
    }

    fn dots_to_event(&self) -> u32 {
        self.screen.dots_to_event() - self.lull.pending()
    }

    fn settle(&mut self, pattern: &[u8]) {
        self.catch_up(pattern);
    }

    fn put(&self, image: &mut [u8]) {
        self.screen.put(image);
    }

    fn get(&mut self, image: &[u8]) {
        self.screen.get(image);
        self.lull = Lull::of(&self.screen);
    }

    ghost fits = { λ s p. after_dots-fits (pending_of s.lull) p s.screen s.fits };
}
