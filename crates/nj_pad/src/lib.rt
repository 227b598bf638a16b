//! The standard controller of the NES: the pad of one frame, its eight characters in a movie line, and a controller
//! port. Source: NESdev Wiki, "Standard controller" and "Controller reading".
#![tactic(auto)]

ghost use Rattle.std.specs.Prelude.{◌≡◌, ◌+◌, ◌^◌, ◌<◌, ◌≤◌, ◌↔◌, ℕ, List, ◌++◌, map, replicate, IsTrue, Some};
ghost use Rattle.nj_pad.specs.declared.Port.{Port};
ghost use Rattle.nj_pad.specs.Pad.{pressed_bit, turn_of, buttons_in_turn, place_value, place_shown, pad_text, pad_of_text};
ghost use Rattle.nj_pad.specs.Port.{port_at_power_on, port_after_write, port_after_read, bit_read, bits_read};

use std::marker::Model;

/// A button of the standard controller. Its number is its turn among the reads of a port.
#[derive(Clone, Copy, Debug, PartialEq, Eq)]
pub enum Button {
    A,
    B,
    Select,
    Start,
    Up,
    Down,
    Left,
    Right,
}

/// The buttons that are pressed in one frame: bit 0 is A, then B, Select, Start, Up, Down, Left, and bit 7 is Right.
/// Contracts see a pad as its byte.
#[derive(Clone, Copy, Debug, PartialEq, Eq, Hash)]
pub struct Pad(pub u8);

impl Model for Pad {
    ghost use Rattle.std.specs.Prelude.{ℕ};

    ghost Value = { ℕ };

    ghost view = { λ p. p.0 };

    ghost inverse = { λ n. record { 0 = n } };
}

impl Pad {
    /// Whether the button is pressed.
    pub fn is_pressed(self, button: Button) -> bool
        ensures { IsTrue result ↔ (pressed_bit self button ≡ 1) }
    {
        self.0 >> (button as u8) & 1 == 1
    }

    /// The pad that a text of eight characters shows, each the letter of a pressed button or a dot.
    #[tactic(auto, unfolding(crate::specs::Pad::pad_of_text))]
    pub fn from_text(text: &[u8]) -> Option<Self>
        ensures { result ≡ pad_of_text text.now }
    {
        let [up, down, left, right, start, select, b, a] = text else {
            return None;
        };
        let directions = value_at(Button::Up, b'U', *up)?
            + value_at(Button::Down, b'D', *down)?
            + value_at(Button::Left, b'L', *left)?
            + value_at(Button::Right, b'R', *right)?;
        let others = value_at(Button::Start, b'S', *start)?
            + value_at(Button::Select, b's', *select)?
            + value_at(Button::B, b'B', *b)?
            + value_at(Button::A, b'A', *a)?;
        Some(Pad(directions + others))
    }

    /// The eight characters of the pad.
    #[tactic(auto, unfolding(crate::specs::Pad::pad_text))]
    pub fn text(self) -> [u8; 8]
        ensures { result ≡ pad_text self }
    {
        [
            shown_at(self, Button::Up, b'U'),
            shown_at(self, Button::Down, b'D'),
            shown_at(self, Button::Left, b'L'),
            shown_at(self, Button::Right, b'R'),
            shown_at(self, Button::Start, b'S'),
            shown_at(self, Button::Select, b's'),
            shown_at(self, Button::B, b'B'),
            shown_at(self, Button::A, b'A'),
        ]
    }
}

// What a place of a text adds to the pad.
fn value_at(button: Button, letter: u8, byte: u8) -> Option<u8>
    ensures value { result ≡ place_value (button, letter) byte }
    ensures bound { (n : ℕ) → result ≡ Some n → n ≤ 2 ^ turn_of button }
{
    if byte == letter {
        Some(1 << (button as u8))
    } else if byte == b'.' {
        Some(0)
    } else {
        None
    }
}

// What a pad shows at a place of its text.
fn shown_at(pad: Pad, button: Button, letter: u8) -> u8
    ensures { result ≡ place_shown pad (button, letter) }
{
    if pad.is_pressed(button) { letter } else { b'.' }
}

/// A controller port: the strobe line and the latch whose bits are shifted out. Any three numbers are a port.
#[derive(Clone, Copy, Debug, PartialEq, Eq)]
pub struct Port {
    /// Bit 0 of the last write to $4016.
    pub strobe: bool,
    /// The pad's byte at the last fall of the strobe.
    pub latch: u8,
    /// How many bits were read since then. It stands still at 8.
    pub count: u8,
}

impl Port {
    /// The port at power-on.
    #[tactic(auto, unfolding(crate::specs::Port::port_at_power_on))]
    pub fn new() -> Self
        ensures { result ≡ port_at_power_on }
    {
        Port {
            strobe: false,
            latch: 0,
            count: 0,
        }
    }

    /// A write of `value` to $4016 in a frame whose pad is `pad`.
    #[tactic(auto, unfolding(crate::specs::Port::port_after_write))]
    pub fn strobe(&mut self, value: u8, pad: Pad)
        ensures { self.new ≡ port_after_write self.old value pad }
    {
        if value % 2 == 1 {
            self.strobe = true;
        } else if self.strobe {
            *self = Port {
                strobe: false,
                latch: pad.0,
                count: 0,
            };
        }
    }

    /// A read of the port in a frame whose pad is `pad`: 0 or 1.
    #[tactic(auto, unfolding(crate::specs::Port::bit_read, crate::specs::Port::port_after_read))]
    pub fn read(&mut self, pad: Pad) -> u8
        ensures bit { result ≡ bit_read self.old pad }
        ensures after { self.new ≡ port_after_read self.old }
        ensures one_bit { result < 2 }
    {
        if self.strobe {
            pad.0 % 2
        } else if self.count < 8 {
            let bit = self.latch >> self.count & 1;
            self.count += 1;
            bit
        } else {
            1
        }
    }
}

/// Law: a pad's text shows that pad, a text that shows a pad is that pad's text, and it shows a byte.
pub fn a_text_shows_its_pad()
    ensures shown { (pad : ℕ) → pad < 256 → pad_of_text (pad_text pad) ≡ Some pad }
    ensures only_its_text { (text : List ℕ) (pad : ℕ) → pad_of_text text ≡ Some pad → text ≡ pad_text pad }
    ensures byte { (text : List ℕ) (pad : ℕ) → pad_of_text text ≡ Some pad → pad < 256 }
{}

/// Law: after a write of 1 and a write of 0 the reads give A, B, Select, Start, Up, Down, Left and Right of the pad at
/// the second write, and then 1s. While the strobe is high every read gives A of the pad at the read.
pub fn reads_give_the_buttons_in_turn()
    ensures latched { (port : Port) (early pad later n : ℕ)
        → bits_read (8 + n) (port_after_write (port_after_write port 1 early) 0 pad) later
        ≡ map (pressed_bit pad) buttons_in_turn ++ replicate n 1 }
    ensures strobing { (port : Port) (early pad n : ℕ)
        → bits_read n (port_after_write port 1 early) pad ≡ replicate n (pressed_bit pad Button.A) }
{}

#[cfg(test)]
mod tests {
    use super::*;

    // The sequence of a program's reads: A held down is the first bit, and the ninth read is 1.
    #[test]
    fn reads_in_turn(rt: HostRuntime) {
        let mut port = Port::new();
        port.strobe(1, Pad(0));
        assert_eq!(rt; port.read(Pad(0b0000_0001)), 1);
        port.strobe(0, Pad(0b1000_1001));
        for want in [1, 0, 0, 1, 0, 0, 0, 1, 1, 1] {
            assert_eq!(rt; port.read(Pad(0)), want);
        }
        assert_eq!(rt; port.count, 8);
        port.strobe(2, Pad(0));
        assert_eq!(rt; port.count, 8);
    }

    #[test]
    fn texts(rt: HostRuntime) {
        for (text, byte) in [
            (b"........", 0u8),
            (b"...R....", 0x80),
            (b"U.......", 0x10),
            (b"....S...", 0x08),
            (b".....s..", 0x04),
            (b"......B.", 0x02),
            (b".......A", 0x01),
            (b"UDLRSsBA", 0xFF),
        ] {
            assert_eq!(rt; Pad::from_text(text), Some(Pad(byte)));
            assert_eq!(rt; Pad(byte).text().as_slice(), text.as_slice());
        }
        for text in [
            b"X.......",
            b".U......",
            b"u.......",
            b"....s...",
            b".......a",
        ] {
            assert_eq!(rt; Pad::from_text(text), None);
        }
        assert_eq!(rt; Pad::from_text(b"......."), None);
        assert_eq!(rt; Pad::from_text(b"........."), None);
        assert!(rt; Pad(0x08).is_pressed(Button::Start));
        assert!(rt; !Pad(0x08).is_pressed(Button::Select));
    }
}
