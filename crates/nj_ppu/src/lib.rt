//! The picture that runs each dot when it is asked for.
#![tactic(auto)]

ghost use Rattle.std.specs.Prelude.{◌≡◌, ℕ, List};
ghost use Rattle.nj_dots.specs.Screen.{IsScreen, power_on};

use nj_dots::Screen;
pub use nj_dots::{Picture, Position};

/// A picture with no dot pending.
#[derive(Drop)]
pub struct DotPicture {
    screen: Screen,
    ghost fits: { IsScreen screen },
}

impl DotPicture {
    /// The picture at power-on, line 0 dot 0, for a cartridge of vertical or horizontal mirroring.
    pub fn new(vertical: bool) -> DotPicture
        ensures { (p : List ℕ) → ⟦<DotPicture as Picture>⟧.meaning result p ≡ power_on vertical }
    {
        DotPicture {
            screen: Screen::power_on(vertical),
        }
    }
}

impl Picture for DotPicture {
    ghost meaning = { λ s p. s.screen };

    ghost settled = { λ s. Unit {0} };

    fn power_on(vertical: bool) -> DotPicture {
        DotPicture::new(vertical)
    }

    fn run(&mut self, dots: u32, pattern: &[u8]) {
        for _i in 0..dots {
            self.screen.dot(pattern);
        }
    }

    fn defer(&mut self, _dots: u32) -> bool {
        true
    }

    fn read(&mut self, reg: u8, pattern: &[u8]) -> u8 {
        self.screen.read(reg, pattern)
    }

    fn write(&mut self, reg: u8, value: u8, _pattern: &[u8]) -> Option<(u16, u8)> {
        self.screen.write(reg, value)
    }

    fn nmi_line(&self) -> bool {
        self.screen.nmi_line()
    }

    fn has_ended(&self) -> bool {
        self.screen.ended
    }

    fn take_end(&mut self) -> bool {
        self.screen.take_end()
    }

    fn position(&self) -> Position {
        self.screen.position
    }

    fn dots_to_event(&self) -> u32 {
        self.screen.dots_to_event()
    }

    fn settle(&mut self, _pattern: &[u8]) {}

    fn put(&self, image: &mut [u8]) {
        self.screen.put(image);
    }

    fn get(&mut self, image: &[u8]) {
        self.screen.get(image);
    }

    ghost fits = { λ s p. s.fits };
}
